// The steps on words and states, in the order in which they are met.
ghost use Rattle.std.specs.Prelude.{◌≡◌};
ghost use Rattle.octets.specs.Octets.{entry};
ghost use Rattle.saes_spec.specs.Saes.{word, state, ◌⊕◌, state_of, number_of, rot_nib, g, next_key, add_round_key, shift_rows, mix_column, mix_columns, states};
ghost use Rattle.saes.specs.Steps.{through, round_keys};

use crate::nibbles::{S, looked_up, product};
use saes_spec::{State, States, Word};

// The three round keys: the first is the key.
#[derive(Clone, Copy)]
pub struct RoundKeys {
    pub first: State,
    pub second: State,
    pub third: State,
}

fn word(high: u8, low: u8) -> Word
    ensures { result ≡ word high low }
{
    Word { high, low }
}

pub fn state_of(n: u16) -> State
    ensures { result ≡ state_of n }
{
    State {
        left: word((n / 4096 % 16) as u8, (n / 256 % 16) as u8),
        right: word((n / 16 % 16) as u8, (n % 16) as u8),
    }
}

fn number_of(s: State) -> u16
    ensures { result ≡ number_of s }
{
    u16::from(s.left.high % 16) * 4096
        + u16::from(s.left.low % 16) * 256
        + u16::from(s.right.high % 16) * 16
        + u16::from(s.right.low % 16)
}

pub fn states(first: State, second: State, third: State) -> States
    ensures { result ≡ states first second third }
{
    States {
        first: number_of(first),
        second: number_of(second),
        third: number_of(third),
    }
}

#[tactic(auto, unfolding(octets::specs::Octets::xor))]
fn sum(w: Word, v: Word) -> Word
    ensures { result ≡ w ⊕ v }
{
    word(w.high ^ v.high, w.low ^ v.low)
}

fn rot_nib(w: Word) -> Word
    ensures { result ≡ rot_nib w }
{
    word(w.low, w.high)
}

// Each nibble of a word through a table.
fn through(table: &[u8; 16], w: Word) -> Word
    ensures { result ≡ through (entry table.now) w }
{
    word(looked_up(table, w.high), looked_up(table, w.low))
}

fn g(rcon: Word, w: Word) -> Word
    ensures { result ≡ g rcon w }
{
    sum(rcon, through(&S, rot_nib(w)))
}

fn next_key(rcon: Word, k: State) -> State
    ensures { result ≡ next_key rcon k }
{
    let left = sum(k.left, g(rcon, k.right));
    State {
        left,
        right: sum(left, k.right),
    }
}

pub fn round_keys(key: u16) -> RoundKeys
    ensures { result ≡ round_keys key }
{
    let first = state_of(key);
    let second = next_key(word(0x8, 0x0), first);
    let third = next_key(word(0x3, 0x0), second);
    RoundKeys {
        first,
        second,
        third,
    }
}

pub fn add_round_key(k: State, s: State) -> State
    ensures { result ≡ add_round_key k s }
{
    State {
        left: sum(s.left, k.left),
        right: sum(s.right, k.right),
    }
}

// Each nibble of a state through a table.
pub fn substituted(table: &[u8; 16], s: State) -> State
    ensures { result ≡ state (through (entry table.now) s.left) (through (entry table.now) s.right) }
{
    State {
        left: through(table, s.left),
        right: through(table, s.right),
    }
}

pub fn shift_rows(s: State) -> State
    ensures { result ≡ shift_rows s }
{
    State {
        left: word(s.left.high, s.right.low),
        right: word(s.right.high, s.left.low),
    }
}

#[tactic(auto, unfolding(octets::specs::Octets::xor))]
fn mix_column(p: u8, q: u8, w: Word) -> Word
    ensures { result ≡ mix_column p q w }
{
    word(
        product(p, w.high) ^ product(q, w.low),
        product(q, w.high) ^ product(p, w.low),
    )
}

pub fn mix_columns(p: u8, q: u8, s: State) -> State
    ensures { result ≡ mix_columns p q s }
{
    State {
        left: mix_column(p, q, s.left),
        right: mix_column(p, q, s.right),
    }
}
