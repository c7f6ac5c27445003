// Blocks of 16 bytes by value: out of a slice, into a slice, and their sum.
#![tactic(auto)]

ghost use Rattle.std.specs.Prelude.{◌≡◌};
ghost use Rattle.octets.specs.Blocks.{◌⊕◌};
ghost use Rattle.octets_slice.specs.Slices.{copied};
ghost use Rattle.octets_block.specs.Blocks.{block_at};

use octets_slice::{copy, has_room};
use std::array;

// The 16 bytes of s from a place on; zeros if s ends before.
#[tactic(auto, unfolding(crate::specs::Blocks::block_at))]
pub fn load(s: &[u8], at: usize) -> [u8; 16]
    ensures { result ≡ block_at s.now at }
{
    let mut block = [0; 16];
    if has_room(s.len(), at, 16) {
        block.copy_from_slice(&s[at..at + 16]);
    }
    block
}

// Puts the block into s from a place on; leaves s as it is if s ends before.
pub fn store(s: &mut [u8], at: usize, block: [u8; 16])
    ensures { s.new ≡ copied block at s.old }
{
    copy(&block, s, at);
}

pub fn xor(a: [u8; 16], b: [u8; 16]) -> [u8; 16]
    ensures { result ≡ a ⊕ b }
{
    array::from_fn(|i| a[i] ^ b[i])
}
