// The answer to a call of the writer, from the numbers for the header of the block.
#![tactic(auto)]

ghost use Rattle.std.specs.Prelude.{◌≡◌};
ghost use Rattle.image_writer_answer.specs.Answers.{write_number, write_ruled, last_for};

use image_limits::{count_fits, is_edition, length_fits};

// The case of the call, or why it was refused.
#[derive(Clone, Copy, Debug, PartialEq, Eq)]
pub enum WriteAnswer {
    Written,
    WriteKey,
    WriteCount,
    WriteNumber,
    WriteLength,
    WriteEdition,
    WriteRoom,
}

impl WriteAnswer {
    pub fn number(self) -> u32
        ensures { result ≡ write_number self }
    {
        match self {
            WriteAnswer::Written => 0,
            WriteAnswer::WriteKey => 1,
            WriteAnswer::WriteRoom => 4,
            WriteAnswer::WriteCount => 7,
            WriteAnswer::WriteNumber => 8,
            WriteAnswer::WriteLength => 12,
            WriteAnswer::WriteEdition => 13,
        }
    }
}

// What a block says about itself: its number, how many blocks the image has, its release, and its edition, 1 or 2.
#[derive(Clone, Copy, Debug, PartialEq, Eq)]
pub struct Numbers {
    pub number: u32,
    pub count: u32,
    pub release: u32,
    pub edition: u32,
}

// The writer's answer, from that for the keys and the lengths of payload and output.
#[tactic(auto, unfolding(crate::specs::Answers::write_ruled))]
pub fn judge_write(keys: bool, numbers: Numbers, len: usize, room: usize) -> WriteAnswer
    ensures { result ≡ write_ruled keys numbers len room }
{
    if !keys {
        return WriteAnswer::WriteKey;
    }
    if !count_fits(numbers.count) {
        return WriteAnswer::WriteCount;
    }
    if numbers.number >= numbers.count {
        return WriteAnswer::WriteNumber;
    }
    if !length_fits(numbers.number, numbers.count, len) {
        return WriteAnswer::WriteLength;
    }
    if !is_edition(numbers.edition) {
        return WriteAnswer::WriteEdition;
    }
    if room < 512 {
        return WriteAnswer::WriteRoom;
    }
    WriteAnswer::Written
}

// The check that a block is sealed on: before number 0 there is none.
#[tactic(auto, unfolding(crate::specs::Answers::last_for))]
pub fn last_for(number: u32, previous: [u8; 16]) -> [u8; 16]
    ensures { result ≡ last_for number previous }
{
    if number == 0 { [0; 16] } else { previous }
}
