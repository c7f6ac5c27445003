// One piece of 16 bytes through an operation of a mode, under a schedule that is lent:
// that of the way back where the operation inverts, of the way forth elsewhere.
#![tactic(auto)]

ghost use Rattle.std.specs.Prelude.{◌≡◌};
ghost use Rattle.aes_spec.specs.Model.{one_way};
ghost use Rattle.modes_spec.specs.Modes.{machine};
ghost use Rattle.modes_step.specs.Model.{step_of};

use aes_rounds::encrypt_block;
use aes_rounds_inverse::decrypt_block;
use aes_schedule::KeySchedule;
use modes_spec::Operation;
use octets_block::xor;

// What comes out of a piece, and what the next piece is chained to.
#[derive(Clone, Copy)]
pub struct Stepped {
    pub out: [u8; 16],
    pub next: [u8; 16],
}

// SP 800-38A's equations, an operation each.
pub fn step(
    schedule: &KeySchedule,
    operation: Operation,
    chain: [u8; 16],
    piece: [u8; 16],
) -> Stepped
    ensures { result ≡ step_of (machine (one_way schedule.now.words schedule.now.rounds) operation) chain piece }
{
    match operation {
        Operation::EcbEncrypt => {
            let out = encrypt_block(schedule, piece);
            Stepped { out, next: chain }
        }
        Operation::EcbDecrypt => {
            let out = decrypt_block(schedule, piece);
            Stepped { out, next: chain }
        }
        Operation::CbcEncrypt => {
            let block = encrypt_block(schedule, xor(piece, chain));
            Stepped {
                out: block,
                next: block,
            }
        }
        Operation::CbcDecrypt => {
            let out = xor(decrypt_block(schedule, piece), chain);
            Stepped { out, next: piece }
        }
        Operation::CfbEncrypt => {
            let key_stream = encrypt_block(schedule, chain);
            let segment = xor(piece, key_stream);
            Stepped {
                out: segment,
                next: segment,
            }
        }
        Operation::CfbDecrypt => {
            let out = xor(piece, encrypt_block(schedule, chain));
            Stepped { out, next: piece }
        }
        Operation::Ofb => {
            let output_block = encrypt_block(schedule, chain);
            let out = xor(piece, output_block);
            Stepped {
                out,
                next: output_block,
            }
        }
    }
}
