// A state of FIPS 197 as four columns, each a word: a block loaded and stored.
#![tactic(auto)]

ghost use Rattle.std.specs.Prelude.{◌≡◌};
ghost use Rattle.octets.specs.Words.{bytes_of};
ghost use Rattle.aes_state.specs.Model.{block_of, columns_of};

use aes_words::{join, word_bytes};

// Each column is a word, its first byte the highest.
#[derive(Clone, Copy)]
pub struct Columns(pub u32, pub u32, pub u32, pub u32);

#[tactic(auto, unfolding(crate::specs::Model::columns_of))]
pub fn columns_of(block: [u8; 16]) -> Columns
    ensures { result ≡ columns_of block }
{
    Columns(
        join(block[0], block[1], block[2], block[3]),
        join(block[4], block[5], block[6], block[7]),
        join(block[8], block[9], block[10], block[11]),
        join(block[12], block[13], block[14], block[15]),
    )
}

#[tactic(auto, unfolding(octets::specs::Words::bytes_of))]
pub fn block_of(s: Columns) -> [u8; 16]
    ensures { result ≡ block_of s }
{
    let a = word_bytes(s.0);
    let b = word_bytes(s.1);
    let c = word_bytes(s.2);
    let d = word_bytes(s.3);
    [
        a[0], a[1], a[2], a[3], b[0], b[1], b[2], b[3], c[0], c[1], c[2], c[3], d[0], d[1], d[2],
        d[3],
    ]
}

// Four words as columns.
#[tactic(auto, using(crate::proofs::Keyed::words_four))]
pub fn as_columns(t: [u32; 4]) -> Columns
    ensures { block_of result ≡ bytes_of t }
{
    Columns(t[0], t[1], t[2], t[3])
}
