// Doubling, which makes the subkeys.
ghost use Rattle.std.specs.Prelude.{◌≡◌};
ghost use Rattle.cmac_spec.specs.Cmac as spec;

use octets_block::xor;

// R_128.
const R128: u128 = 0x87;

pub fn doubled(block: [u8; 16]) -> [u8; 16]
    ensures { result ≡ spec.doubled block }
{
    let left = (u128::from_be_bytes(block) << 1).to_be_bytes();
    if block[0] < 128 {
        left
    } else {
        xor(left, R128.to_be_bytes())
    }
}
