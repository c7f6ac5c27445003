// Text put into lent memory at a place.
#![tactic(auto)]

ghost use Rattle.std.specs.Prelude.{◌≡◌};
ghost use Rattle.octets_slice.specs.Slices.{copied};
ghost use Rattle.text_put.specs.Places.{place_after};

use octets_slice::{copy, has_room};

// Puts a text into `out` at `at` and answers the place after it; one that does not fit puts nothing and answers `at`.
#[tactic(auto, unfolding(crate::specs::Places::fits, crate::specs::Places::place_after, octets_slice::specs::Slices::copied))]
pub fn put(text: &[u8], out: &mut [u8], at: usize) -> usize
    ensures { (result ≡ place_after text.now out.old at) × (out.new ≡ copied text.now at out.old) }
{
    if !has_room(out.len(), at, text.len()) {
        return at;
    }
    copy(text, out, at);
    at + text.len()
}
