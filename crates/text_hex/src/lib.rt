// Words of hex digits read as bytes, and bytes written as such a word.
#![tactic(auto)]

mod spelling;

ghost use Rattle.std.specs.Prelude.{◌≡◌, true, ◌+◌, ◌*◌, ◌≤◌, ◌<◌, ◌/◌, length, cond, ltb};
ghost use Rattle.std.proofs.Math.Seq.{paste};
ghost use Rattle.octets_slice.specs.Slices.{copied};
ghost use Rattle.text_put.specs.Places.{place_after};
ghost use Rattle.text_hex.specs.Hex.{digit_of, byte_of, unhex, all_hex, is_dash, is_bytes, bytes_of, decode_answer};
ghost use Rattle.text_hex.specs.Written.{hex_word};

use octets_slice::has_room;
use spelling::spell;
use text_put::put;

// Puts the bytes of a word of hex into `out` at `at` and answers the place after them; a word that is bad or does not fit puts none.
#[tactic(auto, using(crate::proofs::HexLaws::read), unfolding(crate::specs::Hex::decode_answer, text_put::specs::Places::fits, octets_slice::specs::Slices::copied))]
pub fn decode(word: &[u8], out: &mut [u8], at: usize) -> Option<usize>
    ensures { (result ≡ decode_answer word.now out.old at) × (out.new ≡ copied (bytes_of word.now) at out.old) }
{
    let n = word.len() / 2;
    if !is_bytes(word) || !has_room(out.len(), at, n) {
        return None;
    }
    fill(word, out, at);
    Some(at + n)
}

// Puts bytes as a word of hex into `out` at `at` and answers the place after it; a word that does not fit puts nothing and answers `at`.
#[tactic(auto, using(crate::proofs::WrittenLaws::written), unfolding(text_put::specs::Places::fits, text_put::specs::Places::place_after, octets_slice::specs::Slices::copied))]
pub fn put_hex(bytes: &[u8], out: &mut [u8], at: usize) -> usize
    ensures { (result ≡ place_after (hex_word bytes.now) out.old at) × (out.new ≡ copied (hex_word bytes.now) at out.old) }
{
    if bytes.is_empty() {
        return put(b"-", out, at);
    }
    let n = 2 * bytes.len();
    if !has_room(out.len(), at, n) {
        return at;
    }
    spell(bytes, out, at);
    at + n
}

// The value of a hex digit.
#[tactic(auto, unfolding(crate::specs::Hex::digit_of))]
fn digit(c: u8) -> Option<u8>
    ensures { result ≡ cond (ltb (digit_of c) 16) (Some (digit_of c)) None }
{
    match c {
        b'0'..=b'9' => Some(c - b'0'),
        b'A'..=b'F' => Some(c - b'A' + 10),
        b'a'..=b'f' => Some(c - b'a' + 10),
        _ => None,
    }
}

fn is_digit(c: u8) -> bool
    ensures { result ≡ ltb (digit_of c) 16 }
{
    digit(c).is_some()
}

#[tactic(auto, unfolding(crate::specs::Hex::byte_of))]
fn pair(a: u8, b: u8) -> u8
    requires { (digit_of a < 16) × (digit_of b < 16) }
    ensures { result ≡ byte_of a b }
{
    digit(a).unwrap() * 16 + digit(b).unwrap()
}

fn all_hex(s: &[u8]) -> bool
    ensures { result ≡ all_hex s.now }
{
    s.iter().all(|c| is_digit(*c))
}

#[tactic(auto, unfolding(crate::specs::Hex::is_dash))]
fn is_dash(word: &[u8]) -> bool
    ensures { result ≡ is_dash word.now }
{
    matches!(word, b"-")
}

#[tactic(auto, unfolding(crate::specs::Hex::is_bytes))]
fn is_bytes(word: &[u8]) -> bool
    ensures { result ≡ is_bytes word.now }
{
    is_dash(word) || !word.is_empty() && word.len() % 2 == 0 && all_hex(word)
}

// The bytes of a word, two digits each: `-` has none.
fn fill(s: &[u8], out: &mut [u8], at: usize)
    requires { (at + length s.now / 2 ≤ length out.old) × (is_bytes s.now ≡ true) }
    ensures { out.new ≡ paste out.old at (unhex s.now) (length s.now / 2) }
{
    for (i, digits) in s.chunks_exact(2).enumerate() {
        out[at + i] = pair(digits[0], digits[1]);
    }
}
