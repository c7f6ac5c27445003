// Whole pieces of 16 bytes through an operation of a mode, one after the other, under a schedule that is lent:
// that of the way back where the operation inverts, of the way forth elsewhere.
#![tactic(auto)]

ghost use Rattle.std.specs.Prelude.{◌≡◌, ◌*◌, ◌≤◌, min, length};
ghost use Rattle.modes_spec.specs.Pieces.{ran};
ghost use Rattle.modes_spec.specs.declared.Operation.TheVariants.{CbcDecrypt};
ghost use Rattle.aes_spec.specs.Model.{one_way};
ghost use Rattle.modes_spec.specs.Modes.{machine};
ghost use Rattle.modes_whole.specs.Model.{ran_whole};

use aes_rounds_inverse::decrypt_block;
use aes_schedule::KeySchedule;
use modes_spec::Operation;
use modes_step::step;
use octets_block::{load, store, xor};

// The whole pieces that input and output both have. The answer is what a piece after them is chained to.
pub fn whole_pieces(
    schedule: &KeySchedule,
    operation: Operation,
    iv: [u8; 16],
    input: &[u8],
    output: &mut [u8],
) -> [u8; 16]
    ensures { (result, output.new) ≡ ran_whole (machine (one_way schedule.now.words schedule.now.rounds) operation) iv input.now output.old }
{
    let n = input.len().min(output.len()) / 16;
    if let Operation::CbcDecrypt = operation {
        return opened(schedule, iv, n, input, output);
    }
    let mut chain = iv;
    for i in 0..n {
        let s = step(schedule, operation, chain, load(input, i * 16));
        store(output, i * 16, s.out);
        chain = s.next;
    }
    chain
}

// Pieces decrypted in CBC: what a piece is chained to is the piece before it, as it came.
fn opened(
    schedule: &KeySchedule,
    iv: [u8; 16],
    n: usize,
    input: &[u8],
    output: &mut [u8],
) -> [u8; 16]
    requires { (n * 16 ≤ length input.now) × (n * 16 ≤ length output.old) }
    ensures { (result, output.new) ≡ ran 16 (machine (one_way schedule.now.words schedule.now.rounds) CbcDecrypt) iv n input.now output.old }
{
    let mut chain = iv;
    for i in 0..n {
        let piece = load(input, i * 16);
        store(output, i * 16, xor(decrypt_block(schedule, piece), chain));
        chain = piece;
    }
    chain
}
