// KEYEXPANSION of FIPS 197, 5.2: the words of the round keys from a key of that many words.
#![tactic(auto)]

ghost use Rattle.std.specs.Prelude.{◌≡◌, ◌+◌, ◌*◌, ◌≤◌, ◌<◌, length};
ghost use Rattle.octets.specs.Octets.{over, entry};
ghost use Rattle.octets.specs.Words.{word_at};
ghost use Rattle.aes_expand.specs.Expansion.{first_temp, later_temp, key_expansion, expanded_over};

use aes_words::{join, rot_word, sub_word};
use field::double;

// The first n words of the expansion of a key of nk words, with the S-box lent, replace the first of a slice. The slice stays
// as it is if the key has fewer words, nk is 0 or there is no room for n.
#[tactic(auto, unfolding(crate::specs::Expansion::expanded_over))]
pub fn expand_into(sbox: &[u8; 256], key: &[u8], nk: usize, n: usize, words: &mut [u32])
    ensures { words.new ≡ expanded_over (entry sbox.now) key.now nk n words.old }
{
    if nk != 0 && nk <= key.len() / 4 && n <= words.len() {
        words_into(sbox, key, nk, n, words);
    }
}

// The same for a key that has the words, if there is room. The words of the key come first; then groups of nk words, each with its constant.
// The groups stand in a `while`: a `for` over their first words takes a fifth more instructions with a key of 32 bytes.
fn words_into(sbox: &[u8; 256], key: &[u8], nk: usize, n: usize, words: &mut [u32])
    requires { (0 < nk) × ((nk * 4 ≤ length key.now) × (n ≤ length words.old)) }
    ensures { words.new ≡ over (key_expansion (entry sbox.now) key.now nk n) words.old }
{
    for i in 0..nk.min(n) {
        words[i] = key_word(key, i);
    }
    let mut constant: u8 = 1;
    let mut i = nk;
    while i < n {
        let size = nk.min(n - i);
        let mut t = words[i - nk] ^ first_temp(sbox, constant, words[i - 1]);
        words[i] = t;
        for m in 1..size {
            t = words[i + m - nk] ^ later_temp(sbox, nk, m, t);
            words[i + m] = t;
        }
        constant = double(constant);
        i += size;
    }
}

fn key_word(key: &[u8], i: usize) -> u32
    requires { i * 4 + 4 ≤ length key.now }
    ensures { result ≡ word_at key.now (i * 4) }
{
    join(key[i * 4], key[i * 4 + 1], key[i * 4 + 2], key[i * 4 + 3])
}

// What the first word of a group adds to the word nk before it, of the last word; and what the word in place m of its group does.
#[tactic(auto, unfolding(crate::specs::Expansion::first_temp, octets::specs::Octets::xor))]
fn first_temp(sbox: &[u8; 256], constant: u8, last: u32) -> u32
    ensures { result ≡ first_temp (entry sbox.now) constant last }
{
    sub_word(sbox, rot_word(last)) ^ join(constant, 0, 0, 0)
}

#[tactic(auto, unfolding(crate::specs::Expansion::later_temp))]
fn later_temp(sbox: &[u8; 256], nk: usize, m: usize, last: u32) -> u32
    ensures { result ≡ later_temp (entry sbox.now) nk m last }
{
    if nk > 6 && m == 4 {
        sub_word(sbox, last)
    } else {
        last
    }
}
