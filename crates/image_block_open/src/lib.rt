// One block of an image opened, under the schedules that are lent to it.
#![tactic(auto)]

ghost use Rattle.std.specs.Prelude.{◌≡◌};
ghost use Rattle.image_spec.specs.Model.{lent_cipher, opened_over};

use aes_rounds::encrypt_block;
use aes_schedule::KeySchedule;
use modes_spec::Operation;
use octets_block::load;

// Puts the 480 decrypted bytes of a block into the first of an output; the IV is the encrypted header.
// If there is no block, or no room for its bytes, nothing is written.
pub fn open_block(enc: &KeySchedule, dec: &KeySchedule, block: &[u8], output: &mut [u8])
    ensures { output.new ≡ opened_over (lent_cipher enc.now dec.now) block.now output.old }
{
    if block.len() != 512 || output.len() < 480 {
        return;
    }
    let header = load(block, 0);
    let iv = encrypt_block(enc, header);
    modes_run::run(
        dec,
        Operation::CbcDecrypt,
        iv,
        &block[16..496],
        &mut output[..480],
    );
}
