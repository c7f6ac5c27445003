// Pieces of 16 bytes through an operation of a mode, in OFB a short last one too, under a schedule that is lent:
// the inverse one if the operation inverts, otherwise the forward one.
#![tactic(auto)]

mod last;

ghost use Rattle.std.specs.Prelude.{◌≡◌};
ghost use Rattle.aes_spec.specs.Model.{one_way};
ghost use Rattle.modes_run.specs.Model.{run_over};

use crate::last::last_piece;
use aes_schedule::KeySchedule;
use modes_answer::any_length;
use modes_spec::Operation;
use modes_whole::whole_pieces;

// The pieces that input and output have in common: whole ones, and in OFB a short last one too.
// The answer is what a piece after them is chained to.
pub fn run(
    schedule: &KeySchedule,
    operation: Operation,
    iv: [u8; 16],
    input: &[u8],
    output: &mut [u8],
) -> [u8; 16]
    ensures { (result, output.new) ≡ run_over (one_way schedule.now.words schedule.now.rounds) operation iv input.now output.old }
{
    let end = input.len().min(output.len());
    let chain = whole_pieces(schedule, operation, iv, input, output);
    if any_length(operation) {
        let at = end / 16 * 16;
        return last_piece(schedule, chain, &input[at..end], &mut output[at..end]);
    }
    chain
}
