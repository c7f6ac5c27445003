// The modes of SP 800-38A under a key: ECB, CBC and CFB with 16-byte segments each way, on whole pieces of 16 bytes, and OFB on any length.
#![tactic(auto)]

ghost use Rattle.std.specs.Prelude.{◌≡◌};
ghost use Rattle.aes_spec.specs.Model.{equivalent_cipher, inverse_words};
ghost use Rattle.modes_spec.specs.Modes as standard;
ghost use Rattle.modes_run.specs.Model.{run_over};
ghost use Rattle.modes.specs.Calls.{mode_answer, mode_output, answer_with};

use aes_schedule::KeySchedule;
use aes_schedule_inverse::inverse_into;
use modes_answer::{ModeAnswer, judge};
use modes_spec::Operation;
use octets_block::load;

// An answer, and the chaining value handed on: the last ciphertext block, in OFB the last cipher output, for an empty input the IV.
// As the IV of another call it lets more bytes go on from here. It is zeros in ECB, which chains nothing, and in a refused call.
#[derive(Clone, Copy)]
pub struct Applied {
    pub answer: ModeAnswer,
    pub next: [u8; 16],
}

// Encrypts or decrypts the input under a key; the IV is empty in ECB and 16 bytes in the others.
// A refused call leaves the output as it was, and every call leaves bytes of it past the input's length.
pub fn apply(
    operation: Operation,
    key: &[u8],
    iv: &[u8],
    input: &[u8],
    output: &mut [u8],
) -> Applied
    ensures answer { result ≡ answer_with (mode_answer operation key.now iv.now input.now output.old) operation key.now iv.now input.now }
    ensures written { output.new ≡ mode_output result.answer operation key.now iv.now input.now output.old }
{
    let mut schedule = KeySchedule::none();
    let taken = schedule.expand(key);
    let answer = judge(taken, operation, iv.len(), input.len(), output.len());
    let ModeAnswer::Done = answer else {
        return Applied {
            answer,
            next: [0; 16],
        };
    };
    let start = load(iv, 0);
    let next = under_schedule(&schedule, operation, start, input, output);
    Applied { answer, next }
}

// Runs an operation under a schedule, mixed back first if it uses the inverse cipher; the answer is what the next piece is chained to.
fn under_schedule(
    schedule: &KeySchedule,
    operation: Operation,
    iv: [u8; 16],
    input: &[u8],
    output: &mut [u8],
) -> [u8; 16]
    ensures { (result, output.new) ≡ run_over (equivalent_cipher schedule.now.words (inverse_words schedule.now.words schedule.now.rounds) schedule.now.rounds) operation iv input.now output.old }
{
    if inverts(operation) {
        let mut inverse = KeySchedule::none();
        inverse_into(schedule, &mut inverse);
        return modes_run::run(&inverse, operation, iv, input, output);
    }
    modes_run::run(schedule, operation, iv, input, output)
}

// Whether an operation uses the inverse cipher: decryption in CFB does not, nor does OFB.
fn inverts(operation: Operation) -> bool
    ensures { result ≡ standard.inverts operation }
{
    matches!(operation, Operation::EcbDecrypt | Operation::CbcDecrypt)
}
