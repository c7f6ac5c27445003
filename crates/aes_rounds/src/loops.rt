// CIPHER of FIPS 197, 5.1, on a state of four words, one a column, each round by lookups.
ghost use Rattle.std.specs.Prelude.{◌≡◌, ◌-◌, ◌<◌};
ghost use Rattle.octets.specs.Words.{byte, bytes_of};
ghost use Rattle.aes_sbox.specs.Sbox.{s_box};
ghost use Rattle.aes_mix.specs.Mixing.{mix_column, mixed_entry};
ghost use Rattle.aes_spec.specs.State.{aes, add_round_key, shift_rows, sub_bytes};
ghost use Rattle.aes_spec.specs.Cipher as spec;
ghost use Rattle.aes_state.specs.Model.{block_of};
ghost use Rattle.aes_model.specs.Turned.{turned};
ghost use Rattle.aes_rounds.specs.Model.{sub_shifted};

use aes_lookup_forward::forward_at;
use aes_lookup_sbox::sub_at;
use aes_schedule::{KeySchedule, RoundKeyNumber};
use aes_state::{Columns, as_columns, columns_of};

pub fn cipher(schedule: &KeySchedule, s: Columns) -> Columns
    requires { (0 < schedule.now.rounds) × (schedule.now.rounds < 15) }
    ensures { block_of result ≡ spec.cipher aes s_box schedule.now.words schedule.now.rounds (block_of s) }
{
    let last = last_bytes(forth(schedule, s));
    as_columns(add_round_key(schedule, RoundKeyNumber(schedule.rounds), columns_of(last)))
}

// All rounds but the last.
fn forth(schedule: &KeySchedule, s: Columns) -> [u32; 4]
    requires { (0 < schedule.now.rounds) × (schedule.now.rounds < 15) }
    ensures { bytes_of result ≡ spec.rounds aes s_box schedule.now.words (schedule.now.rounds - 1) (add_round_key aes schedule.now.words 0 (block_of s)) }
{
    let mut t = add_round_key(schedule, RoundKeyNumber(0), s);
    for n in 1..schedule.rounds {
        let u = forth_columns(schedule, n, t);
        t = u;
    }
    t
}

// Round n, not the last: each column is mixed, and its word of the round key is added. Beginning at the third column takes the fewest instructions.
fn forth_columns(schedule: &KeySchedule, n: usize, t: [u32; 4]) -> [u32; 4]
    requires { n < 15 }
    ensures { bytes_of result ≡ spec.one_round aes s_box schedule.now.words n (bytes_of t) }
{
    let first = RoundKeyNumber(n).first_word();
    let i = first.0;
    let mut u = [0u32; 4];
    for m in 0..4 {
        let j = (m + 2) % 4;
        u[j] = forth_column(t, j) ^ schedule.words[i + j];
    }
    u
}

// Column j after the shift of rows, substituted and mixed.
fn forth_column(t: [u32; 4], j: usize) -> u32
    requires { j < 4 }
    ensures { result ≡ mix_column (sub_shifted t j) }
{
    let mut acc = 0u32;
    for k in 0..4 {
        let c = t[(j + k) % 4];
        acc = acc ^ forth_row(c, k);
    }
    acc
}

// What byte k of a word, through the S-box, adds as row k of a column to the mixed column.
fn forth_row(c: u32, k: usize) -> u32
    requires { k < 4 }
    ensures { result ≡ turned k (mixed_entry s_box (byte k c)) }
{
    let wide = forward_at((c >> (24 - 8 * k)) % 256 + 256);
    ((wide >> (8 * k)) % 4294967296) as u32
}

// ADDROUNDKEY: the columns as an array, with round key n added.
fn add_round_key(schedule: &KeySchedule, n: RoundKeyNumber, s: Columns) -> [u32; 4]
    requires { n.0 < 15 }
    ensures { bytes_of result ≡ add_round_key aes schedule.now.words n.0 (block_of s) }
{
    let first = n.first_word();
    let i = first.0;
    [
        s.0 ^ schedule.words[i],
        s.1 ^ schedule.words[i + 1],
        s.2 ^ schedule.words[i + 2],
        s.3 ^ schedule.words[i + 3],
    ]
}

// The last round without its key.
fn last_bytes(t: [u32; 4]) -> [u8; 16]
    ensures { result ≡ shift_rows aes (sub_bytes s_box (bytes_of t)) }
{
    let mut b = [0u8; 16];
    for m in 0..16 {
        let k = m % 4;
        let c = t[(m / 4 + k) % 4];
        b[m] = last_row(c, k);
    }
    b
}

// Byte k of a word through the S-box.
fn last_row(c: u32, k: usize) -> u8
    requires { k < 4 }
    ensures { result ≡ s_box (byte k c) }
{
    sub_at((c >> (24 - 8 * k)) % 256 + 256)
}
