// AES, FIPS 197: one block encrypted or decrypted under a key of 16, 24 or 32 bytes.
#![tactic(auto)]

ghost use Rattle.std.specs.Prelude.{◌≡◌};
ghost use Rattle.aes.specs.Calls.{encrypt_under, decrypt_under};

use aes_rounds::encrypt_block;
use aes_rounds_inverse::decrypt_block;
use aes_schedule::{KeyAnswer, KeySchedule};
use aes_schedule_inverse::invert;

// The answer for the key, and the block: zeros if the key was refused.
#[derive(Clone, Copy)]
pub struct Ciphered {
    pub answer: KeyAnswer,
    pub block: [u8; 16],
}

pub fn encrypt(key: &[u8], block: [u8; 16]) -> Ciphered
    ensures { result ≡ encrypt_under key.now block }
{
    let mut schedule = KeySchedule::none();
    let answer = schedule.expand(key);
    let ciphertext = encrypt_block(&schedule, block);
    Ciphered {
        answer,
        block: ciphertext,
    }
}

pub fn decrypt(key: &[u8], block: [u8; 16]) -> Ciphered
    ensures { result ≡ decrypt_under key.now block }
{
    let mut schedule = KeySchedule::none();
    let answer = schedule.expand(key);
    invert(&mut schedule);
    let plaintext = decrypt_block(&schedule, block);
    Ciphered {
        answer,
        block: plaintext,
    }
}
