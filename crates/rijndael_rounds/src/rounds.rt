// The rounds, for both widths and both ways. The columns of a state stand twice in a row, so that a shift needs no remainder.
ghost use Rattle.std.specs.Prelude.{◌≡◌, map, ◌*◌, ◌+◌, ◌≤◌, ◌<◌};
ghost use Rattle.octets.specs.Octets.{pad_to, entry};
ghost use Rattle.rijndael_model.specs.Model as model;
ghost use Rattle.rijndael_model.specs.Model.{key_for, key_added, gathered, looked};
ghost use Rattle.rijndael_rounds.specs.Model.{turn_of, turn_shape, Fine, Inside, Doubled, Twice};

use crate::Turn;
use crate::lookups::column;
use aes_mix::{inv_mix_column, mix_column};
use rijndael_model::Way;
use rijndael_spec::Width;

pub fn turn_of(way: Way, width: Width) -> Turn
    ensures { result ≡ turn_of way width }
{
    match width {
        Width::Six => match way {
            Way::Forth => Turn {
                columns: 6,
                second: 1,
                third: 2,
                fourth: 3,
            },
            Way::Back => Turn {
                columns: 6,
                second: 5,
                third: 4,
                fourth: 3,
            },
        },
        Width::Eight => match way {
            Way::Forth => Turn {
                columns: 8,
                second: 1,
                third: 3,
                fourth: 4,
            },
            Way::Back => Turn {
                columns: 8,
                second: 7,
                third: 5,
                fourth: 4,
            },
        },
    }
}

// All rounds: on the way back the round keys come from the last to the first.
pub fn cipher(
    way: Way,
    turn: Turn,
    table: &[u32; 256],
    words: &[u32; 120],
    rounds: usize,
    s: [u32; 8],
) -> [u32; 8]
    requires { Fine turn × ((0 < rounds) × Inside turn rounds) }
    ensures { result ≡ pad_to 8 (looked way (turn_shape turn) (entry table.now) words.now rounds s) }
{
    let mut t = begin(turn, words, key_number(way, rounds, 0), s);
    for n in 1..rounds {
        let u = round(turn, table, words, key_number(way, rounds, n), t);
        t = u;
    }
    last(way, turn, table, words, key_number(way, rounds, rounds), t)
}

// The round key that is added after round n.
fn key_number(way: Way, rounds: usize, n: usize) -> usize
    requires { n ≤ rounds }
    ensures { (result ≡ key_for way rounds n) × (result ≤ rounds) }
{
    match way {
        Way::Forth => n,
        Way::Back => rounds - n,
    }
}

// The state before the first round: the columns with a round key added.
fn begin(turn: Turn, words: &[u32; 120], key: usize, s: [u32; 8]) -> [u32; 16]
    requires { Fine turn × Inside turn key }
    ensures { Twice turn.columns (key_added (turn_shape turn) words.now key s) result }
{
    let mut u = [0u32; 16];
    let from = turn.columns * key;
    for c in 0..turn.columns {
        let x = s[c] ^ words[from + c];
        u[c] = x;
        u[c + turn.columns] = x;
    }
    u
}

// A round but the last: each column looked up, with its word of the round key added.
fn round(turn: Turn, table: &[u32; 256], words: &[u32; 120], key: usize, t: [u32; 16]) -> [u32; 16]
    requires { Fine turn × (Inside turn key × Doubled turn.columns t) }
    ensures { Twice turn.columns (key_added (turn_shape turn) words.now key (gathered (turn_shape turn) (entry table.now) t)) result }
{
    let mut u = [0u32; 16];
    let at = turn.columns * key;
    for c in 0..turn.columns {
        let x = column(
            table,
            t[c],
            t[c + turn.second],
            t[c + turn.third],
            t[c + turn.fourth],
        ) ^ words[at + c];
        u[c] = x;
        u[c + turn.columns] = x;
    }
    u
}

// The last round, which does not mix: what the lookup mixed is taken back.
fn last(
    way: Way,
    turn: Turn,
    table: &[u32; 256],
    words: &[u32; 120],
    key: usize,
    t: [u32; 16],
) -> [u32; 8]
    requires { Fine turn × (Inside turn key × Doubled turn.columns t) }
    ensures { result ≡ pad_to 8 (key_added (turn_shape turn) words.now key (map (model.unmixed way) (gathered (turn_shape turn) (entry table.now) t))) }
{
    let mut u = [0u32; 8];
    let at = turn.columns * key;
    for c in 0..turn.columns {
        let x = column(
            table,
            t[c],
            t[c + turn.second],
            t[c + turn.third],
            t[c + turn.fourth],
        );
        u[c] = unmixed(way, x) ^ words[at + c];
    }
    u
}

fn unmixed(way: Way, x: u32) -> u32
    ensures { result ≡ model.unmixed way x }
{
    match way {
        Way::Forth => inv_mix_column(x),
        Way::Back => mix_column(x),
    }
}
