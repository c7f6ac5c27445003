// A view of a stored image: it holds the lent image and shows any block of it by its place, or the check of that block. What is
// shown is a part of the image itself, and nothing is verified.
#![tactic(auto)]

ghost use Rattle.std.specs.Prelude.{◌≡◌, ◌+◌, ◌≤◌, length, IfOk};
ghost use Rattle.image_view.specs.Views.{refusal_number, number_of, answer_number, answer_value, made_number, held_of, held_length, blocks_in, shown_number, part_of, offset_of, block_shown, check_shown, place_in, Within, answer_of, block_answer, check_answer};

#[derive(Clone, Copy, Debug, PartialEq, Eq)]
pub struct View<'a> {
    pub image: &'a [u8],
}

// Why an image has no view, or a view shows nothing.
#[derive(Clone, Copy, Debug, PartialEq, Eq)]
pub enum ViewRefusal {
    NotWhole,
    NoBlock,
}

impl ViewRefusal {
    pub fn number(self) -> u32
        ensures { result ≡ refusal_number self }
    {
        match self {
            ViewRefusal::NotWhole => 6,
            ViewRefusal::NoBlock => 20,
        }
    }
}

// A refusal, and what is held or shown then: a view of an empty image, or an empty part.
#[derive(Clone, Copy, Debug, PartialEq, Eq)]
pub struct Refused<T> {
    pub refusal: ViewRefusal,
    pub empty: T,
}

impl<'a> View<'a> {
    // Refused with 6 if the image is not whole blocks of 512; the view then holds an empty image.
    #[tactic(auto, unfolding(crate::specs::Views::made_number, crate::specs::Views::held_of))]
    pub fn of(image: &'a [u8]) -> Result<View<'a>, Refused<View<'a>>>
        ensures number { answer_number result ≡ made_number (length image.now) }
        ensures whole { IfOk result (λ view. view.image.now ≡ image.now) }
        ensures held { ((answer_value result).image.now ≡ held_of image.now) × Within (answer_value result).image image.entry 0 }
    {
        let view = View { image: held(image) };
        answered(view, made_refusal(image.len()))
    }

    // Block `place` of the image, from 0. Refused with 20; the part is then empty.
    pub fn block(self, place: usize) -> Result<&'a [u8], Refused<&'a [u8]>>
        ensures number { answer_number result ≡ shown_number (length self.entry.image.now) place }
        ensures part { ((answer_value result).now ≡ block_shown self.entry.image.now place) × Within (answer_value result) self.entry.image (offset_of 0 (length self.entry.image.now) place) }
    {
        let part = block_part(self.image, place);
        answered(part, shown_refusal(self.image.len(), place))
    }

    // The last 16 bytes of that block. Refused with 20; the part is then empty.
    pub fn check(self, place: usize) -> Result<&'a [u8], Refused<&'a [u8]>>
        ensures number { answer_number result ≡ shown_number (length self.entry.image.now) place }
        ensures part { ((answer_value result).now ≡ check_shown self.entry.image.now place) × Within (answer_value result) self.entry.image (offset_of 496 (length self.entry.image.now) place) }
    {
        let part = check_part(self.image, place);
        answered(part, shown_refusal(self.image.len(), place))
    }
}

// ---- a refusal, and what is held or shown

// The number of an answer, and what is held or shown, refused or not.
pub fn with_number<T>(answer: Result<T, Refused<T>>) -> (u32, T)
    ensures { (result.0 ≡ answer_number answer) × (result.1 ≡ answer_value answer) }
{
    match answer {
        Ok(value) => (0, value),
        Err(Refused { refusal, empty }) => (refusal.number(), empty),
    }
}

fn answered<T>(value: T, refusal: Option<ViewRefusal>) -> Result<T, Refused<T>>
    ensures { (answer_number result ≡ number_of refusal) × (answer_value result ≡ value) }
{
    match refusal {
        None => Ok(value),
        Some(refusal) => Err(Refused {
            refusal,
            empty: value,
        }),
    }
}

fn number_of(refusal: Option<ViewRefusal>) -> u32
    ensures { result ≡ number_of refusal }
{
    match refusal {
        None => 0,
        Some(refusal) => refusal.number(),
    }
}

// ---- on slices: what the view's own functions rest on

pub fn made_number(image: &[u8]) -> u32
    ensures { result ≡ made_number (length image.now) }
{
    number_of(made_refusal(image.len()))
}

// What a view of the image holds.
#[tactic(auto, unfolding(crate::specs::Views::held_of, crate::specs::Views::held_length))]
pub fn held(image: &[u8]) -> &[u8]
    ensures { (result.now ≡ held_of image.now) × (Within result image.entry 0) }
{
    &image[..kept(image.len())]
}

// The number of blocks of what a view holds.
pub fn blocks(image: &[u8]) -> usize
    ensures { result ≡ blocks_in (length image.now) }
{
    image.len() / 512
}

pub fn shown_number(image: &[u8], place: usize) -> u32
    ensures { result ≡ shown_number (length image.now) place }
{
    number_of(shown_refusal(image.len(), place))
}

// A block, or nothing past the last one.
pub fn block_part(image: &[u8], place: usize) -> &[u8]
    ensures { (result.now ≡ block_shown image.now place) × (Within result image.entry (offset_of 0 (length image.now) place)) }
{
    part(image, place, 0, 512)
}

pub fn check_part(image: &[u8], place: usize) -> &[u8]
    ensures { (result.now ≡ check_shown image.now place) × (Within result image.entry (offset_of 496 (length image.now) place)) }
{
    part(image, place, 496, 16)
}

// `size` bytes of a block from its byte `from` on.
#[tactic(auto, unfolding(crate::specs::Views::part_of, crate::specs::Views::offset_of))]
fn part(image: &[u8], place: usize, from: usize, size: usize) -> &[u8]
    requires { from + size ≤ 512 }
    ensures { (result.now ≡ part_of from size image.now place) × (Within result image.entry (offset_of from (length image.now) place)) }
{
    match offset(image.len(), place, from) {
        Some(at) => &image[at..at + size],
        None => &image[..0],
    }
}

// ---- only numbers: an image of this length, wherever it is

// What a view of the image answers C: the number of its refusal, how many blocks it holds, and of a place the number of its refusal
// and where the part that is shown is in the image.
#[repr(C)]
#[derive(Clone, Copy, Debug, PartialEq, Eq)]
pub struct ViewAnswer {
    pub made: u32,
    pub number: u32,
    pub blocks: usize,
    pub offset: usize,
    pub length: usize,
}

pub fn block_answer(len: usize, place: usize) -> ViewAnswer
    ensures { result ≡ block_answer len place }
{
    answer(len, place, 0, 512)
}

pub fn check_answer(len: usize, place: usize) -> ViewAnswer
    ensures { result ≡ check_answer len place }
{
    answer(len, place, 496, 16)
}

#[tactic(auto, unfolding(crate::specs::Views::answer_of, crate::specs::Views::offset_of, crate::specs::Views::size_of))]
fn answer(len: usize, place: usize, from: usize, size: usize) -> ViewAnswer
    requires { from + size ≤ 512 }
    ensures { result ≡ answer_of from size len place }
{
    let kept = kept(len);
    let found = offset(kept, place, from);
    ViewAnswer {
        made: number_of(made_refusal(len)),
        number: number_of(shown_refusal(kept, place)),
        blocks: kept / 512,
        offset: found.unwrap_or(0),
        length: if found.is_some() { size } else { 0 },
    }
}

// Why an image of this length has no view.
#[tactic(auto, unfolding(crate::specs::Views::made_number))]
fn made_refusal(len: usize) -> Option<ViewRefusal>
    ensures { number_of result ≡ made_number len }
{
    (len % 512 != 0).then_some(ViewRefusal::NotWhole)
}

// How many bytes a view of the image holds.
#[tactic(auto, unfolding(crate::specs::Views::held_length))]
fn kept(len: usize) -> usize
    ensures { result ≡ held_length len }
{
    if len % 512 == 0 { len } else { 0 }
}

// Why an image of this length shows nothing at this place.
#[tactic(auto, unfolding(crate::specs::Views::shown_number))]
fn shown_refusal(len: usize, place: usize) -> Option<ViewRefusal>
    ensures { number_of result ≡ shown_number len place }
{
    (place >= len / 512).then_some(ViewRefusal::NoBlock)
}

// Where the part begins, if there is such a block. The place is compared before it is multiplied.
fn offset(len: usize, place: usize, from: usize) -> Option<usize>
    requires { from ≤ 512 }
    ensures { result ≡ place_in from len place }
{
    if place < len / 512 {
        Some(place * 512 + from)
    } else {
        None
    }
}
