// The check of a block of an image, with the schedule and the subkeys lent that it is made under: made, and asked of a block.
// What is not a block of 512 bytes has no right check.
#![tactic(auto)]

ghost use Rattle.std.specs.Prelude.{◌≡◌, ◌&&◌, ◌++◌};
ghost use Rattle.image_spec.specs.Sealed.{checks};
ghost use Rattle.image_spec.specs.KeyPair.{usable, rounds_of};
ghost use Rattle.image_spec.specs.Model.{lent_mac_of};

use aes_schedule::KeySchedule;
use cmac_run::Run;
use cmac_subkeys::Subkeys;
use image_spec::KeyPair;
use octets_block::load;
use octets_slice::equal;

// The check of the first bytes of a block and of a tail after them, without copying the two together.
pub fn check_of(chk: &KeySchedule, subkeys: &Subkeys, front: &[u8], tail: &[u8]) -> [u8; 16]
    ensures { result ≡ lent_mac_of chk.now subkeys.now (front.now ++ tail.now) }
{
    Run::new()
        .fed(chk, front)
        .fed(chk, tail)
        .closed(chk, subkeys)
}

// Whether a block carries its check, all 16 bytes, which also covers a tail. Under schedules that no keys gave, no check is right.
pub fn check_holds(keys: &KeyPair, subkeys: &Subkeys, tail: &[u8], block: &[u8]) -> bool
    ensures { result ≡ usable (rounds_of keys.now) && checks (lent_mac_of keys.now.chk subkeys.now) tail.now block.now }
{
    keys.is_usable() && carries(&keys.chk, subkeys, tail, block)
}

// The same under a schedule, whatever gave it.
fn carries(chk: &KeySchedule, subkeys: &Subkeys, tail: &[u8], block: &[u8]) -> bool
    ensures { result ≡ checks (lent_mac_of chk.now subkeys.now) tail.now block.now }
{
    if block.len() != 512 {
        return false;
    }
    let made = check_of(chk, subkeys, &block[..496], tail);
    equal(&made, &block[496..])
}
