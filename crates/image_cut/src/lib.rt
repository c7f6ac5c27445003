// How the payload of a release is split into the blocks of its image: how many there are, and which bytes are block i.
#![tactic(auto)]

ghost use Rattle.std.specs.Prelude.{◌≡◌};
ghost use Rattle.modes_spec.specs.Pieces.{piece};
ghost use Rattle.image_cut.specs.Cut.{count_of};

// The most bytes that an image can hold: 65,535 blocks of 480.
pub const MOST: usize = 31456800;

// How many blocks a payload of that size has, if they fit an image. An empty one has one block, because an image without blocks
// could not be complete.
#[tactic(auto, unfolding(crate::specs::Cut::count_of, crate::specs::Cut::blocks_of))]
pub fn block_count(size: usize) -> Option<u32>
    ensures { result ≡ count_of size }
{
    if size > MOST {
        return None;
    }
    Some(size.div_ceil(480).max(1) as u32)
}

// The bytes of block i, as far as there are any.
#[tactic(auto, using(crate::proofs::CutLaws::part_here))]
pub fn block_part(payload: &[u8], i: usize) -> &[u8]
    ensures { result.now ≡ piece 480 payload.now i }
{
    let rest = &payload[i.saturating_mul(480).min(payload.len())..];
    &rest[..rest.len().min(480)]
}
