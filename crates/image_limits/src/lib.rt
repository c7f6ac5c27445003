// The rules on the single numbers of a block's header, and the editions.
#![tactic(auto)]

ghost use Rattle.std.specs.Prelude.{◌≡◌, ◌+◌, ◌==◌, ◌≤◌, ◌&&◌, ◌||◌, nat_le, nat_lt};
ghost use Rattle.image_layout.specs.Layout.{body_size};
ghost use Rattle.image_limits.specs.Fits.{count_fits_of, length_fits};
ghost use Rattle.image_limits.specs.Marks.{is_edition, mark_of, tail_size};
ghost use Rattle.image_limits.specs.Marks as spec;

#[tactic(auto, unfolding(crate::specs::Fits::count_fits_of))]
pub fn count_fits(count: u32) -> bool
    ensures { result ≡ count_fits_of count }
{
    matches!(count, 1..=65535)
}

// Whether a block of this number, of so many, may hold so many bytes.
#[tactic(auto, unfolding(crate::specs::Fits::length_fits))]
pub fn length_fits(number: u32, count: u32, len: usize) -> bool
    ensures { result ≡ length_fits number count len }
{
    if is_last(number, count) {
        last_fits(count, len)
    } else {
        len == 480
    }
}

// An edition is a number and no enum: a progress that C lends may hold any number, and each is answered.
#[tactic(auto, unfolding(crate::specs::Marks::is_edition))]
pub fn is_edition(edition: u32) -> bool
    ensures { result ≡ is_edition edition }
{
    matches!(edition, 1 | 2)
}

// The edition that a value in bytes 14 and 15 selects.
#[tactic(auto, unfolding(crate::specs::Marks::selected))]
pub fn edition_selected(reserved: u16) -> u32
    ensures { result ≡ spec.selected reserved }
{
    if reserved == 2 { 2 } else { 1 }
}

// The mark of a block of an edition; if there is no such edition, a value that two bytes cannot hold.
#[tactic(auto, unfolding(crate::specs::Marks::mark_of))]
pub fn mark_of(edition: u32) -> u32
    ensures { result ≡ mark_of edition }
{
    match edition {
        1 => 0,
        2 => 2,
        _ => 65536,
    }
}

// How many bytes of the check of the block before are covered by the check of a block.
#[tactic(auto, unfolding(crate::specs::Marks::tail_size))]
pub fn tail_size(edition: u32) -> usize
    ensures { result ≡ tail_size edition }
{
    if edition == 2 { 16 } else { 0 }
}

// Asked so that no sum can wrap.
fn is_last(number: u32, count: u32) -> bool
    ensures { result ≡ (number + 1 == count) }
{
    number < count && count - number == 1
}

fn last_fits(count: u32, len: usize) -> bool
    ensures { result ≡ (nat_le len body_size && (nat_lt 0 len || count == 1)) }
{
    len <= 480 && (len > 0 || count == 1)
}
