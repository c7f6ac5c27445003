// One block of an image sealed, with the schedules and the subkeys lent that it is sealed under.
#![tactic(auto)]

ghost use Rattle.std.specs.Prelude.{◌≡◌, ◌≤◌, length};
ghost use Rattle.octets.specs.Octets.{over};
ghost use Rattle.aes_spec.specs.Cipher.{standard};
ghost use Rattle.image_spec.specs.Sealed.{sealed};
ghost use Rattle.image_spec.specs.Model.{lent_mac_of, sealed_over};

use aes_rounds::encrypt_block;
use cmac_subkeys::Subkeys;
use image_block_check::check_of;
use image_layout::{Head, head_bytes};
use image_spec::KeyPair;
use modes_spec::Operation;
use octets_block::store;
use octets_slice::copy;

// Writes the block with this header and payload, whose check also covers a tail, into the first 512 bytes of an output.
// If the payload has more than 480 bytes, or there is no room for a block, nothing is written.
pub fn seal(
    keys: &KeyPair,
    subkeys: &Subkeys,
    tail: &[u8],
    head: Head,
    payload: &[u8],
    output: &mut [u8],
)
    ensures { output.new ≡ sealed_over (standard keys.now.enc.words keys.now.enc.rounds) (lent_mac_of keys.now.chk subkeys.now) tail.now head payload.now output.old }
{
    if payload.len() <= 480 && output.len() >= 512 {
        seal_into(keys, subkeys, tail, head, payload, output);
    }
}

// Each part where it goes, and the check over what was written.
fn seal_into(
    keys: &KeyPair,
    subkeys: &Subkeys,
    tail: &[u8],
    head: Head,
    payload: &[u8],
    output: &mut [u8],
)
    requires { (length payload.now ≤ 480) × (512 ≤ length output.old) }
    ensures { output.new ≡ over (sealed (standard keys.now.enc.words keys.now.enc.rounds) (lent_mac_of keys.now.chk subkeys.now) tail.now head payload.now) output.old }
{
    let first = head_bytes(head);
    let iv = encrypt_block(&keys.enc, first);
    let mut plain = [0u8; 480];
    copy(payload, &mut plain, 0);
    store(output, 0, first);
    modes_run::run(
        &keys.enc,
        Operation::CbcEncrypt,
        iv,
        &plain,
        &mut output[16..496],
    );
    let made = check_of(&keys.chk, subkeys, &output[0..496], tail);
    store(output, 496, made);
}
