// The key schedule of Rijndael with wide blocks: a key of 16, 24 or 32 bytes expanded into round keys of six or eight words, and mixed back.
#![tactic(auto)]

ghost use Rattle.std.specs.Prelude.{◌≡◌, ◌≤◌, max, length};
ghost use Rattle.aes_spec.specs.Model.{mixed_back};
ghost use Rattle.rijndael_spec.specs.Rijndael.{shape_of, takes_key, wide_words, wide_rounds, wide_round_count};
ghost use Rattle.rijndael_spec.specs.Model.{wide_inverse};

use aes_expand::expand_into;
use aes_mix::inv_mix_column;
use aes_sbox::table;
use rijndael_spec::Width;

// The words of the schedule of a key, put where the caller has room, with zeros past the last. The answer is the number of rounds, 0 where
// the key is refused.
pub fn schedule_into(width: Width, key: &[u8], words: &mut [u32; 120]) -> usize
    ensures { (result ≡ wide_rounds width key.now) × (words.new ≡ wide_words width key.now) }
{
    *words = [0u32; 120];
    if takes_key(key.len()) {
        let nb = columns(width);
        let nk = key.len() / 4;
        let rounds = 6 + larger(nk, nb);
        let sbox = table();
        expand_into(&sbox, key, nk, nb * (rounds + 1), words);
        return rounds;
    }
    0
}

// Replaces the forward schedule with the inverse one; it stays if no key gives so many rounds.
pub fn invert(width: Width, rounds: usize, words: &mut [u32; 120])
    ensures { words.new ≡ wide_inverse width words.old rounds }
{
    if is_round_count(width, rounds) {
        let nb = columns(width);
        mix_back(words, nb, nb * rounds);
    }
}

// The columns of a block.
pub fn columns(width: Width) -> usize
    ensures { result ≡ (shape_of width).columns }
{
    match width {
        Width::Six => 6,
        Width::Eight => 8,
    }
}

// Whether a key can give so many rounds.
pub fn is_round_count(width: Width, rounds: usize) -> bool
    ensures { result ≡ wide_round_count width rounds }
{
    match width {
        Width::Six => {
            if rounds == 12 {
                return true;
            }
            rounds == 14
        }
        Width::Eight => rounds == 14,
    }
}

// Whether a key may have so many bytes.
fn takes_key(length: usize) -> bool
    ensures { result ≡ takes_key length }
{
    if length == 16 {
        return true;
    }
    if length == 24 {
        return true;
    }
    length == 32
}

fn larger(a: usize, b: usize) -> usize
    ensures { result ≡ max a b }
{
    if a < b { b } else { a }
}

// The words of a slice from a place up to another mixed back.
fn mix_back(words: &mut [u32], from: usize, end: usize)
    requires { end ≤ length words.old }
    ensures { words.new ≡ mixed_back from end words.old }
{
    for i in from..end {
        words[i] = inv_mix_column(words[i]);
    }
}
