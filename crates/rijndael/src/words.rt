// Wide blocks as columns: out of a slice, into one, and their sum.
ghost use Rattle.std.specs.Prelude.{◌≡◌, cond, ◌+◌, ◌*◌, ◌≤◌, ◌<◌, ltb, length, take, drop, replicate};
ghost use Rattle.std.proofs.Math.Seq.{paste};
ghost use Rattle.octets.specs.Words.{bytes_of};
ghost use Rattle.octets.specs.Blocks.{◌⊕◌};
ghost use Rattle.rijndael_spec.specs.Rijndael.{block_size};
ghost use Rattle.rijndael_model.specs.Model.{block_of};

use aes_words::{join, word_bytes};
use rijndael_schedule::columns;
use rijndael_spec::Width;

// The chaining value that an IV begins with: zeros where it has no block.
pub fn start_of(width: Width, iv: &[u8]) -> [u32; 8]
    ensures { block_of width result ≡ cond (ltb (length iv.now) (block_size width)) (replicate (block_size width) 0) (take (block_size width) iv.now) }
{
    let n = columns(width);
    if iv.len() < 4 * n {
        return [0u32; 8];
    }
    load(iv, 0, n)
}

// The first n columns from a place of a slice on.
pub fn load(s: &[u8], at: usize, n: usize) -> [u32; 8]
    requires { (n < 9) × (at + 4 * n ≤ length s.now) }
    ensures { bytes_of (take n result) ≡ take (4 * n) (drop at s.now) }
{
    let mut t = [0u32; 8];
    for c in 0..n {
        let i = at + 4 * c;
        t[c] = join(s[i], s[i + 1], s[i + 2], s[i + 3]);
    }
    t
}

// Puts the first n columns into a slice from a place on.
pub fn store(s: &mut [u8], at: usize, n: usize, t: [u32; 8])
    requires { (n < 9) × (at + 4 * n ≤ length s.old) }
    ensures { s.new ≡ paste s.old at (bytes_of t) (4 * n) }
{
    for c in 0..n {
        let b = word_bytes(t[c]);
        let i = at + 4 * c;
        s[i] = b[0];
        s[i + 1] = b[1];
        s[i + 2] = b[2];
        s[i + 3] = b[3];
    }
}

pub fn sum(a: [u32; 8], b: [u32; 8]) -> [u32; 8]
    ensures { result ≡ a ⊕ b }
{
    let mut r = [0u32; 8];
    for i in 0..8 {
        r[i] = a[i] ^ b[i];
    }
    r
}
