// What a turn did, as C has it: numbers in place of enums.
#![tactic(auto)]

ghost use Rattle.std.specs.Prelude.{◌≡◌};
ghost use Rattle.dock_turn.specs.Answers.{turn_answer};

use image_reader::{Reader, Turn};
use image_reader_tally::Stop;

// What a turn did. `number` is that of a refusal of the whole turn; a block that stopped it has its place and reason, and the
// value that the reason holds. There are zeros where there is none.
#[repr(C)]
#[derive(Clone, Copy)]
pub struct TurnAnswer {
    pub number: u32,
    pub reason: u32,
    pub value: u32,
    pub place: usize,
    pub accepted: usize,
    pub bytes: usize,
    pub reader: Reader,
}

pub fn turn_answer(t: Turn) -> TurnAnswer
    ensures { result ≡ turn_answer t }
{
    let done = TurnAnswer {
        number: 0,
        reason: 0,
        value: 0,
        place: 0,
        accepted: t.accepted,
        bytes: t.bytes,
        reader: t.reader,
    };
    match t.stop {
        Stop::At(place, reason) => TurnAnswer {
            reason: reason.number(),
            value: reason.value().unwrap_or(0),
            place,
            ..done
        },
        Stop::End | Stop::Asked | Stop::Lent | Stop::Room => TurnAnswer {
            number: t.stop.number(),
            ..done
        },
    }
}
