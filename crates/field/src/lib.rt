// The field of FIPS 197, section 4: doubling and the product of two bytes.
#![tactic(auto)]

ghost use Rattle.std.specs.Prelude.{◌≡◌};
ghost use Rattle.field.specs.Field.{x_times, ◌•◌};
ghost use Rattle.field.specs.Logarithms.{added};

use field_exp::power;
use field_log::logarithm;

#[tactic(auto, unfolding(crate::specs::Field::x_times, octets::specs::Octets::xor))]
pub fn double(a: u8) -> u8
    ensures { result ≡ x_times a }
{
    if a < 128 { a << 1 } else { (a << 1) ^ 0x1b }
}

// Looked up, not computed from the digits of b as in the definition: a loader has little stack.
#[tactic(auto, using(crate::proofs::Laws::zero_factor, crate::proofs::Logarithms::zero_product, crate::proofs::Logarithms::product_entries))]
pub fn product(a: u8, b: u8) -> u8
    ensures { result ≡ a • b }
{
    if a == 0 || b == 0 {
        0
    } else {
        power(added(logarithm(a), logarithm(b)))
    }
}

// Two logarithms as one. A sum of 255 stays: E has an entry for it.
#[tactic(auto, unfolding(crate::specs::Logarithms::added))]
fn added(x: u8, y: u8) -> u8
    ensures { result ≡ added x y }
{
    let sum = u16::from(x) + u16::from(y);
    let left = if sum > 255 { sum - 255 } else { sum };
    left as u8
}
