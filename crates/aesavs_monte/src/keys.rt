// The schedule of a record's key, and the key of the next record.
ghost use Rattle.std.specs.Prelude.{◌≡◌, ◌++◌, ◌≤◌, ◌<◌, get_or, take};
ghost use Rattle.octets.specs.Octets.{over};
ghost use Rattle.aesavs_monte.specs.Chain.{next_key};
ghost use Rattle.aesavs_monte.specs.Model.{schedule_for, key_byte};

use aes_schedule::KeySchedule;
use aes_schedule_inverse::invert;
use aesavs_line::Way;

// The schedule for the direction asked for.
pub fn schedule_for(way: Way, key: &[u8], schedule: &mut KeySchedule)
    ensures { schedule.new ≡ schedule_for way key.now }
{
    let _ = schedule.expand(key);
    if let Way::Decrypting = way {
        invert(schedule);
    }
}

// To as many bytes as the key has, the last ones of the two outputs joined are added.
pub fn next_key(key: [u8; 32], size: usize, before: [u8; 16], last: [u8; 16]) -> [u8; 32]
    ensures { result ≡ over (next_key (take size key) before last) key }
{
    let n = size.min(32);
    let mut next = [0; 32];
    for i in 0..32 {
        next[i] = key_byte(key, n, before, last, i);
    }
    next
}

fn key_byte(key: [u8; 32], n: usize, before: [u8; 16], last: [u8; 16], i: usize) -> u8
    requires { (i < 32) × (n ≤ 32) }
    ensures { result ≡ key_byte key n (before ++ last) i }
{
    if n <= i {
        return key[i];
    }
    key[i] ^ joined_at(before, last, 32 - n + i)
}

// Byte i of two blocks joined.
fn joined_at(before: [u8; 16], last: [u8; 16], i: usize) -> u8
    requires { i < 32 }
    ensures { result ≡ get_or (before ++ last) i 0 }
{
    if i < 16 {
        return before[i];
    }
    last[i - 16]
}
