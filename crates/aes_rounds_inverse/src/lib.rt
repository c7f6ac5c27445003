// One block decrypted, under an inverse schedule.
#![tactic(auto)]

mod loops;

ghost use Rattle.std.specs.Prelude.{◌≡◌};
ghost use Rattle.aes_sbox.specs.Sbox.{inv_s_box};
ghost use Rattle.aes_spec.specs.Model.{eq_decrypt_block};

use crate::loops::eq_inv_cipher;
use aes_schedule::KeySchedule;
use aes_state::{block_of, columns_of};

// The schedule is one that aes_schedule_inverse has made; zeros if no key gives so many rounds.
pub fn decrypt_block(schedule: &KeySchedule, block: [u8; 16]) -> [u8; 16]
    ensures { result ≡ eq_decrypt_block inv_s_box schedule.now.words schedule.now.rounds block }
{
    if schedule.is_usable() {
        block_of(eq_inv_cipher(schedule, columns_of(block)))
    } else {
        [0; 16]
    }
}
