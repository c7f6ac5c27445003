// The map of the blocks that a receiver holds: bit n mod 8, 0 the lowest, of byte n / 8 for block n.
#![tactic(auto)]

ghost use Rattle.std.specs.Prelude.{◌≡◌, ◌%◌};
ghost use Rattle.image_receiver_map.specs.Map.{map_size, worth, bit_at, bit_put, cleared};

// How many bytes hold so many bits.
pub fn map_size(count: u32) -> usize
    ensures { result ≡ map_size count }
{
    (count as usize).div_ceil(8)
}

// Whether bit n is set; no if the map ends before.
#[tactic(auto, using(crate::proofs::Laws::is_set, crate::proofs::Laws::past_set))]
pub fn has_bit(map: &[u8], n: usize) -> bool
    ensures { result ≡ bit_at map.now n }
{
    n / 8 < map.len() && map[n / 8] & mask(n) != 0
}

// Sets bit n; nothing changes if the map ends before.
#[tactic(auto, using(crate::proofs::Laws::is_put, crate::proofs::Laws::past_put))]
pub fn set_bit(map: &mut [u8], n: usize)
    ensures { map.new ≡ bit_put map.old n }
{
    if n / 8 < map.len() {
        map[n / 8] |= mask(n);
    }
}

// Clears the first bytes, as many as there are.
#[tactic(auto, unfolding(crate::specs::Map::cleared))]
pub fn clear(map: &mut [u8], size: usize)
    ensures { map.new ≡ cleared size map.old }
{
    let end = size.min(map.len());
    map[..end].fill(0);
}

// The byte with bit n mod 8 alone set.
fn mask(n: usize) -> u8
    ensures { result ≡ worth (n % 8) }
{
    1 << (n % 8)
}
