// One block encrypted under a schedule, and a piece added to a chain.
#![tactic(auto)]

mod loops;

ghost use Rattle.std.specs.Prelude.{cond, ◌≡◌, ◌+◌, ◌≤◌, length, take, drop};
ghost use Rattle.octets.specs.Words.{word_at};
ghost use Rattle.octets.specs.Blocks.{◌⊕◌};
ghost use Rattle.octets_block.specs.Blocks.{fits};
ghost use Rattle.aes_sbox.specs.Sbox.{s_box};
ghost use Rattle.aes_state.specs.Model.{block_of};
ghost use Rattle.aes_spec.specs.Cipher.{encrypt_block};

use crate::loops::cipher;
use aes_schedule::KeySchedule;
use aes_state::{Columns, block_of, columns_of};
use aes_words::join;
use octets_slice::has_room;

// The block under a schedule; zeros if no key gives so many rounds.
pub fn encrypt_block(schedule: &KeySchedule, block: [u8; 16]) -> [u8; 16]
    ensures { result ≡ encrypt_block s_box schedule.now.words schedule.now.rounds block }
{
    let mut value = [0; 16];
    take_in(schedule, &mut value, &block, 0);
    value
}

// Adds the 16 bytes of a slice from a place on to a value, which becomes the cipher of the sum; it stays if the slice ends before.
pub fn absorb(schedule: &KeySchedule, value: &mut [u8; 16], part: &[u8], at: usize)
    ensures { value.new ≡ cond (fits (length part.now) at) (encrypt_block s_box schedule.now.words schedule.now.rounds (value.old ⊕ take 16 (drop at part.now))) value.old }
{
    if has_room(part.len(), at, 16) {
        take_in(schedule, value, part, at);
    }
}

// The same for bytes that exist.
fn take_in(schedule: &KeySchedule, value: &mut [u8; 16], part: &[u8], at: usize)
    requires { at + 16 ≤ length part.now }
    ensures { value.new ≡ encrypt_block s_box schedule.now.words schedule.now.rounds (value.old ⊕ take 16 (drop at part.now)) }
{
    if schedule.is_usable() {
        let taken = block_of(cipher(schedule, added(*value, part, at)));
        *value = taken;
    } else {
        *value = [0; 16];
    }
}

// A block and a piece of a slice added up, in columns.
fn added(v: [u8; 16], part: &[u8], at: usize) -> Columns
    requires { at + 16 ≤ length part.now }
    ensures { block_of result ≡ v ⊕ take 16 (drop at part.now) }
{
    let s = columns_of(v);
    Columns(
        s.0 ^ word_in(part, at),
        s.1 ^ word_in(part, at + 4),
        s.2 ^ word_in(part, at + 8),
        s.3 ^ word_in(part, at + 12),
    )
}

fn word_in(s: &[u8], at: usize) -> u32
    requires { at + 4 ≤ length s.now }
    ensures { result ≡ word_at s.now at }
{
    join(s[at], s[at + 1], s[at + 2], s[at + 3])
}
