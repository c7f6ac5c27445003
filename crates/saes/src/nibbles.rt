// The field of nibbles, and the two tables.
ghost use Rattle.std.specs.Prelude.{◌≡◌};
ghost use Rattle.octets.specs.Octets.{entry};
ghost use Rattle.saes_spec.specs.Nibbles.{x_times, with_digit, ◌•₄◌};

// The S-box, and its inverse.
pub static S: [u8; 16] = [
    0x9, 0x4, 0xa, 0xb, 0xd, 0x1, 0x8, 0x5, 0x6, 0x2, 0x0, 0x3, 0xc, 0xe, 0xf, 0x7,
];

pub static INV_S: [u8; 16] = [
    0xa, 0x5, 0x9, 0xb, 0x1, 0x7, 0x8, 0xf, 0x6, 0x0, 0x2, 0x3, 0xc, 0x4, 0xd, 0xe,
];

// What a table has for a nibble; 0 past its end.
pub fn looked_up(table: &[u8; 16], x: u8) -> u8
    ensures { result ≡ entry table.now x }
{
    table.get(x as usize).copied().unwrap_or(0)
}

#[tactic(auto, unfolding(saes_spec::specs::Nibbles::x_times, octets::specs::Octets::xor))]
fn double(a: u8) -> u8
    ensures { result ≡ x_times a }
{
    if a < 8 { a * 2 } else { (a % 8 * 2) ^ 0x3 }
}

#[tactic(auto, unfolding(saes_spec::specs::Nibbles::with_digit, octets::specs::Octets::xor))]
fn with_digit(p: u8, a: u8, b: u8) -> u8
    ensures { result ≡ with_digit p a b }
{
    if b % 2 == 0 { double(p) } else { double(p) ^ a }
}

pub fn product(a: u8, b: u8) -> u8
    ensures { result ≡ a •₄ b }
{
    let eights = with_digit(0, a, b / 8);
    let fours = with_digit(eights, a, b / 4);
    let twos = with_digit(fours, a, b / 2);
    with_digit(twos, a, b)
}
