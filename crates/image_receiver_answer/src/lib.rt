// What a receiver knows about its image, what it answers, and its tests of room and header.
#![tactic(auto)]

ghost use Rattle.std.specs.Prelude.{◌≡◌};
ghost use Rattle.image_reasons.specs.Reasons.{value_of};
ghost use Rattle.image_receiver_answer.specs.Answers as spec;

use image_layout::Head;
use image_limits::{count_fits, length_fits};
use image_reasons::Reason;
use image_receiver_map::map_size;

// The count and the release that a receiver was told, how many blocks it holds, and the sum of their payload lengths.
#[repr(C)]
#[derive(Clone, Copy, Debug, PartialEq, Eq)]
pub struct Receipt {
    pub count: u32,
    pub release: u32,
    pub held: u32,
    pub bytes: u32,
}

// The answer to a block.
#[derive(Clone, Copy, Debug, PartialEq, Eq)]
pub enum ReceiveAnswer {
    Received,
    NotABlock,
    NoRoom,
    Because(Reason),
    NotBelow,
    AlreadyHeld,
}

// The answer to a start, with the count if that is refused.
#[derive(Clone, Copy, Debug, PartialEq, Eq)]
pub enum BeginAnswer {
    Begun,
    BeginKey,
    BeginCount(u32),
    BeginRoom,
}

impl ReceiveAnswer {
    pub fn number(self) -> u32
        ensures { result ≡ spec.receive_number self }
    {
        match self {
            ReceiveAnswer::Received => 0,
            ReceiveAnswer::NoRoom => 4,
            ReceiveAnswer::NotABlock => 6,
            ReceiveAnswer::Because(reason) => reason.number(),
            ReceiveAnswer::NotBelow => 20,
            ReceiveAnswer::AlreadyHeld => 21,
        }
    }

    pub fn value(self) -> Option<u32>
        ensures { result ≡ value_of (spec.receive_value self) }
    {
        match self {
            ReceiveAnswer::Because(reason) => reason.value(),
            ReceiveAnswer::Received
            | ReceiveAnswer::NoRoom
            | ReceiveAnswer::NotABlock
            | ReceiveAnswer::NotBelow
            | ReceiveAnswer::AlreadyHeld => None,
        }
    }
}

impl BeginAnswer {
    pub fn number(self) -> u32
        ensures { result ≡ spec.begin_number self }
    {
        match self {
            BeginAnswer::Begun => 0,
            BeginAnswer::BeginKey => 1,
            BeginAnswer::BeginRoom => 4,
            BeginAnswer::BeginCount(_) => 7,
        }
    }

    pub fn value(self) -> Option<u32>
        ensures { result ≡ value_of (spec.begin_value self) }
    {
        match self {
            BeginAnswer::BeginCount(count) => Some(count),
            BeginAnswer::Begun | BeginAnswer::BeginKey | BeginAnswer::BeginRoom => None,
        }
    }
}

// Whether a store and a map of these lengths hold so many blocks.
#[tactic(auto, unfolding(crate::specs::Answers::room_for))]
pub fn has_room(count: u32, store: usize, map: usize) -> bool
    ensures { result ≡ spec.room_for count store map }
{
    count as usize * 480 <= store && map_size(count) <= map
}

// What the tests 7, 9, 10, 20, 12 and 13 say of a header, asked in that order.
#[tactic(auto, unfolding(crate::specs::Answers::header_tests, crate::specs::Answers::first_told))]
pub fn judge_header(receipt: Receipt, head: Head) -> ReceiveAnswer
    ensures { result ≡ spec.first_told (spec.header_tests receipt head) }
{
    if !count_fits(head.count) {
        return ReceiveAnswer::Because(Reason::Count(head.count));
    }
    if head.count != receipt.count {
        return ReceiveAnswer::Because(Reason::OtherCount(head.count));
    }
    if head.release != receipt.release {
        return ReceiveAnswer::Because(Reason::OtherRelease(head.release));
    }
    if head.number >= receipt.count {
        return ReceiveAnswer::NotBelow;
    }
    if !length_fits(head.number, head.count, usize::from(head.len)) {
        return ReceiveAnswer::Because(Reason::Length(head.len));
    }
    if head.reserved != 0 {
        return ReceiveAnswer::Because(Reason::Reserved(head.reserved));
    }
    ReceiveAnswer::Received
}
