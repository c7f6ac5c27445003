// The answer to a call of the key wrap: the lengths in the rule, the room, and A at the end.
#![tactic(auto)]

ghost use Rattle.std.specs.Prelude.{◌≡◌, ◌+◌, ◌-◌};
ghost use Rattle.octets.specs.Octets.{same};
ghost use Rattle.aes_schedule.specs.Schedule.{key_number};
ghost use Rattle.wrap_spec.specs.Wrap.{initial, register};
ghost use Rattle.wrap_answer.specs.declared.WrapAnswer.TheVariants.{WrapDone};
ghost use Rattle.wrap_answer.specs.Answers.{wrap_number, wrapped_size_fits, size_fits_of, wrap_ruled};

use aes_schedule::KeyAnswer;
use octets_slice::{equal, part};

// What A begins with, and what is to come back (2.2.3.1).
pub const INITIAL_VALUE: [u8; 8] = [0xa6; 8];

// The case of the call, or why it was refused.
#[derive(Clone, Copy)]
pub enum WrapAnswer {
    WrapDone,
    WrapKey,
    WrapSize,
    WrapRoom,
    WrongInitial,
}

impl WrapAnswer {
    pub fn number(self) -> u32
        ensures { result ≡ wrap_number self }
    {
        match self {
            WrapAnswer::WrapDone => 0,
            WrapAnswer::WrapKey => 1,
            WrapAnswer::WrapRoom => 4,
            WrapAnswer::WrapSize => 18,
            WrapAnswer::WrongInitial => 19,
        }
    }
}

// Whether wrapped data, and so the registers together, may have this length.
pub fn wrapped_size_fits(len: usize) -> bool
    ensures { result ≡ wrapped_size_fits len }
{
    (24..=72).contains(&len) && len % 8 == 0
}

// Whether key data may have this length.
fn size_fits(len: usize) -> bool
    ensures { result ≡ size_fits_of len }
{
    (16..=64).contains(&len) && len % 8 == 0
}

// The answer of wrapping, from that for the key and the lengths of data and output.
pub fn judge_wrap(key: KeyAnswer, len: usize, room: usize) -> WrapAnswer
    ensures { result ≡ wrap_ruled (key_number key) (size_fits_of len) (len + 8) room WrapDone }
{
    judge(key, size_fits(len), len.saturating_add(8), room)
}

// The answer of unwrapping, except for what only the unwrapped registers can tell.
pub fn judge_unwrap(key: KeyAnswer, len: usize, room: usize) -> WrapAnswer
    ensures { result ≡ wrap_ruled (key_number key) (wrapped_size_fits len) (len - 8) room WrapDone }
{
    judge(key, wrapped_size_fits(len), len.saturating_sub(8), room)
}

// The tests of both calls in their order: the key, the length of the data, the room for what is made of it.
#[tactic(auto, unfolding(crate::specs::Answers::wrap_ruled))]
fn judge(key: KeyAnswer, size_fits: bool, needed: usize, room: usize) -> WrapAnswer
    ensures { result ≡ wrap_ruled (key_number key) size_fits needed room WrapDone }
{
    if !matches!(key, KeyAnswer::Taken) {
        WrapAnswer::WrapKey
    } else if !size_fits {
        WrapAnswer::WrapSize
    } else if room < needed {
        WrapAnswer::WrapRoom
    } else {
        WrapAnswer::WrapDone
    }
}

// Whether A is the initial value: all eight bytes are compared before the answer.
pub fn is_initial(w: &[u8]) -> bool
    ensures { result ≡ same (register w.now 0) initial }
{
    equal(part(w, 0, 8), &INITIAL_VALUE)
}
