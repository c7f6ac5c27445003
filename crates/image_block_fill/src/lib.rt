// Whether what follows a payload in its block is zero, found piece by piece: no more than 16 decrypted bytes are held.
#![tactic(auto)]

ghost use Rattle.std.specs.Prelude.{◌≡◌, ◌<◌, length, take, drop};
ghost use Rattle.aes_spec.specs.Cipher.{encrypt_block};
ghost use Rattle.aes_sbox.specs.Sbox.{s_box};
ghost use Rattle.modes_spec.specs.Equations.{previous};
ghost use Rattle.image_spec.specs.Sealed.{all_zero, zero_after};
ghost use Rattle.image_spec.specs.Model.{lent_cipher, filled_out};

use aes_rounds::encrypt_block;
use aes_rounds_inverse::decrypt_block;
use aes_schedule::KeySchedule;
use octets_block::{load, xor};

// For a payload of this length. What is not a block of 512 bytes has no zero fill.
pub fn fill_is_zero(enc: &KeySchedule, dec: &KeySchedule, block: &[u8], len: usize) -> bool
    ensures { result ≡ filled_out (lent_cipher enc.now dec.now) len block.now }
{
    block.len() == 512 && (len >= 480 || zero_after(enc, dec, block, len))
}

// The pieces before the payload's end are not decrypted: of a full block, none.
fn zero_after(enc: &KeySchedule, dec: &KeySchedule, block: &[u8], len: usize) -> bool
    requires { (length block.now ≡ 512) × (len < 480) }
    ensures { result ≡ zero_after (lent_cipher enc.now dec.now) len block.now }
{
    let mut from = len % 16;
    let mut chain = chain_before(enc, block, len / 16);
    for i in len / 16..30 {
        let ciphertext = load(block, 16 + 16 * i);
        let plain = xor(decrypt_block(dec, ciphertext), chain);
        if !zero_from(plain, from) {
            return false;
        }
        chain = ciphertext;
        from = 0;
    }
    true
}

// What piece i is chained to: the ciphertext before it, which for the first is the header, and that is encrypted.
fn chain_before(enc: &KeySchedule, block: &[u8], i: usize) -> [u8; 16]
    requires { (length block.now ≡ 512) × (i < 30) }
    ensures { result ≡ previous 16 (encrypt_block s_box enc.now.words enc.now.rounds (take 16 block.now)) (take 480 (drop 16 block.now)) i }
{
    let ciphertext = load(block, 16 * i);
    if i == 0 {
        encrypt_block(enc, ciphertext)
    } else {
        ciphertext
    }
}

// Whether the bytes of a piece from a place on are zero.
fn zero_from(plain: [u8; 16], from: usize) -> bool
    ensures { result ≡ all_zero (drop from plain) }
{
    plain.iter().skip(from).all(|byte| *byte == 0)
}
