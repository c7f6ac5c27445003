// The mixing of one column, and back: FIPS 197, 5.1.3 and 5.3.3, on a word of four bytes.
#![tactic(auto)]

ghost use Rattle.std.specs.Prelude.{◌≡◌};
ghost use Rattle.aes_mix.specs.Mixing.{doubled, mix_column, inv_mix_column};

use aes_words::{rot_three, rot_two, rot_word};

// 2a + 3b + c + d at each byte is 2(a + b) + b + c + d, where b, c and d are the word rotated.
#[tactic(auto, using(crate::proofs::Mix::mix_code), unfolding(octets::specs::Octets::xor))]
pub fn mix_column(x: u32) -> u32
    ensures { result ≡ mix_column x }
{
    let y = rot_word(x);
    (double_each(x ^ y) ^ y) ^ (rot_two(x) ^ rot_three(x))
}

// The inverse matrix is the matrix times one that adds to each byte four times its sum with the byte two below.
#[tactic(auto, using(crate::proofs::Mix::inv_mix_code), unfolding(octets::specs::Octets::xor))]
pub fn inv_mix_column(x: u32) -> u32
    ensures { result ≡ inv_mix_column x }
{
    mix_column(x ^ double_each(double_each(x ^ rot_two(x))))
}

// Doubles the four bytes at once: the low seven bits of each shifted, and 1b for each top bit.
#[tactic(auto, using(crate::proofs::Mix::double_code), unfolding(octets::specs::Octets::xor))]
fn double_each(x: u32) -> u32
    ensures { result ≡ doubled x }
{
    let tops = x & 0x80808080;
    ((x & 0x7f7f7f7f) << 1) ^ ((tops - (tops >> 7)) & 0x1b1b1b1b)
}
