// What a call over wide blocks is answered with before anything is done.
ghost use Rattle.std.specs.Prelude.{◌≡◌, cond, ◌%◌, eqb};
ghost use Rattle.modes_spec.specs.Modes.{iv_length};
ghost use Rattle.modes_answer.specs.Answers.{judged};
ghost use Rattle.rijndael_spec.specs.Rijndael.{block_size};
ghost use Rattle.rijndael_spec.specs.Operations.{mode_of};

use modes_answer::ModeAnswer;
use rijndael_schedule::columns;
use rijndael_spec::{WideOperation, Width};

// From the number of rounds, 0 where the key was refused, and the lengths of the rest.
pub fn judge(
    rounds: usize,
    width: Width,
    operation: WideOperation,
    iv: usize,
    input: usize,
    output: usize,
) -> ModeAnswer
    ensures { result ≡ judged (cond (eqb rounds 0) 1 0) (iv_length (block_size width) (mode_of operation)) iv (input % block_size width) input output }
{
    let size = 4 * columns(width);
    let wanted = wanted_iv(operation, size);
    if rounds == 0 {
        return ModeAnswer::BadKey;
    }
    if iv != wanted {
        return ModeAnswer::BadIv;
    }
    if input % size != 0 {
        return ModeAnswer::NotPieces;
    }
    if output < input {
        return ModeAnswer::OutputShort;
    }
    ModeAnswer::Done
}

fn wanted_iv(operation: WideOperation, size: usize) -> usize
    ensures { result ≡ iv_length size (mode_of operation) }
{
    match operation {
        WideOperation::EncryptEcb => 0,
        WideOperation::DecryptEcb => 0,
        WideOperation::EncryptCbc => size,
        WideOperation::DecryptCbc => size,
    }
}
