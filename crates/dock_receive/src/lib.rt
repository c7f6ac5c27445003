// What a receiver answers, as C has it: numbers in place of enums.
#![tactic(auto)]

ghost use Rattle.std.specs.Prelude.{◌≡◌};
ghost use Rattle.dock_receive.specs.Answers.{start_told, done_told};

use image_receiver::{ReceiveDone, ReceiveStarted, Receiver};

// The answer to a start or to a block: its number, the value that a refusal holds, 0 where it holds none, and the receiver.
#[repr(C)]
#[derive(Clone, Copy)]
pub struct ReceiverAnswer {
    pub number: u32,
    pub value: u32,
    pub receiver: Receiver,
}

pub fn start_told(s: ReceiveStarted) -> ReceiverAnswer
    ensures { result ≡ start_told s }
{
    ReceiverAnswer {
        number: s.answer.number(),
        value: s.answer.value().unwrap_or(0),
        receiver: s.receiver,
    }
}

pub fn done_told(d: ReceiveDone) -> ReceiverAnswer
    ensures { result ≡ done_told d }
{
    ReceiverAnswer {
        number: d.answer.number(),
        value: d.answer.value().unwrap_or(0),
        receiver: d.receiver,
    }
}
