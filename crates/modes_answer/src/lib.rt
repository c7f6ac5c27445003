// What a call of a mode is answered with before anything is done, from the answer for the key and from the lengths that each operation takes.
#![tactic(auto)]

ghost use Rattle.std.specs.Prelude.{◌≡◌};
ghost use Rattle.aes_schedule.specs.Schedule.{key_number};
ghost use Rattle.modes_spec.specs.Modes.{iv_length, any_length};
ghost use Rattle.modes_answer.specs.Answers.{mode_number, left_over, judged};

use aes_schedule::KeyAnswer;
use modes_spec::Operation;

#[derive(Clone, Copy)]
pub enum ModeAnswer {
    Done,
    BadKey,
    BadIv,
    NotPieces,
    OutputShort,
}

impl ModeAnswer {
    pub fn number(self) -> u32
        ensures { result ≡ mode_number self }
    {
        match self {
            ModeAnswer::Done => 0,
            ModeAnswer::BadKey => 1,
            ModeAnswer::BadIv => 2,
            ModeAnswer::NotPieces => 3,
            ModeAnswer::OutputShort => 4,
        }
    }
}

// The answer, from that for the key and the lengths of the rest.
#[tactic(auto, unfolding(crate::specs::Answers::judged))]
pub fn judge(
    key: KeyAnswer,
    operation: Operation,
    iv: usize,
    input: usize,
    output: usize,
) -> ModeAnswer
    ensures { result ≡ judged (key_number key) (iv_length 16 operation) iv (left_over operation input) input output }
{
    let KeyAnswer::Taken = key else {
        return ModeAnswer::BadKey;
    };
    let wanted = wanted_iv(operation);
    let left = left_over(operation, input);
    if iv != wanted {
        return ModeAnswer::BadIv;
    }
    if left != 0 {
        return ModeAnswer::NotPieces;
    }
    if output < input {
        return ModeAnswer::OutputShort;
    }
    ModeAnswer::Done
}

// Whether an operation takes an input of any length, its last piece short: OFB does.
pub fn any_length(operation: Operation) -> bool
    ensures { result ≡ any_length operation }
{
    matches!(operation, Operation::Ofb)
}

// The bytes past whole pieces, which OFB alone takes.
#[tactic(auto, unfolding(crate::specs::Answers::left_over))]
fn left_over(operation: Operation, input: usize) -> usize
    ensures { result ≡ left_over operation input }
{
    if any_length(operation) {
        return 0;
    }
    input % 16
}

fn wanted_iv(operation: Operation) -> usize
    ensures { result ≡ iv_length 16 operation }
{
    match operation {
        Operation::EcbEncrypt | Operation::EcbDecrypt => 0,
        Operation::CbcEncrypt | Operation::CbcDecrypt => 16,
        Operation::CfbEncrypt | Operation::CfbDecrypt => 16,
        Operation::Ofb => 16,
    }
}
