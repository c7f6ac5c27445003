// The pieces of a message that goes through CMAC of SP 800-38B: filled up as their bytes come, and the last one with its subkey.
#![tactic(auto)]

mod doubling;

ghost use Rattle.std.specs.Prelude.{◌≡◌, ◌++◌, take};
ghost use Rattle.octets.specs.Octets.{pad_to};
ghost use Rattle.aes_spec.specs.Cipher.{standard};
ghost use Rattle.cmac_spec.specs.Cmac as spec;
ghost use Rattle.cmac_subkeys.specs.Keys.{subkeys_of};

use crate::doubling::doubled;
use aes_rounds::encrypt_block;
use aes_schedule::KeySchedule;
use octets_block::xor;

// The bytes held, then those of the part, as many as 16 bytes have room for, then zeros.
pub fn piece_filled(held: [u8; 16], count: usize, part: &[u8]) -> [u8; 16]
    ensures { result ≡ pad_to 16 (take 16 (take count held ++ part.now)) }
{
    let from_held = count.min(16);
    let from_part = part.len().min(16 - from_held);
    let mut piece = [0; 16];
    piece[..from_held].copy_from_slice(&held[..from_held]);
    piece[from_held..from_held + from_part].copy_from_slice(&part[..from_part]);
    piece
}

// K1 and K2.
#[derive(Clone, Copy)]
pub struct Subkeys {
    pub key1: [u8; 16],
    pub key2: [u8; 16],
}

impl Subkeys {
    pub fn new(schedule: &KeySchedule) -> Subkeys
        ensures { result ≡ subkeys_of (standard schedule.now.words schedule.now.rounds) }
    {
        let key1 = doubled(encrypt_block(schedule, [0; 16]));
        Subkeys {
            key1,
            key2: doubled(key1),
        }
    }

    // The last piece, of which this many bytes are held: a full one with K1, a shorter one padded and with K2.
    pub fn last(&self, held: [u8; 16], count: usize) -> [u8; 16]
        ensures { result ≡ spec.last_by self.now.key1 self.now.key2 (take count held) }
    {
        if count < 16 {
            xor(self.key2, piece_filled(held, count, b"\x80"))
        } else {
            xor(self.key1, held)
        }
    }
}
