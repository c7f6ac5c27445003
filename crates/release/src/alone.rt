// What a reader says of a block alone, whatever blocks were before it.
use image_layout::Head;
use image_progress::Progress;
use image_reader::Reader;
use image_reader_tally::Stop;

/// The check of the block before a block, and the block's header and bytes.
#[derive(Clone, Copy)]
pub struct Block<'a> {
    pub last: [u8; 16],
    pub head: Head,
    pub bytes: &'a [u8],
}

impl Block<'_> {
    // The number that the block is expected to have: its own. Where that is not below its count no reader expects it, and it is taken for
    // block 0, so that it gets 8 and not 16.
    fn number(&self) -> u32 {
        if self.head.number < self.head.count {
            self.head.number
        } else {
            0
        }
    }

    // The progress of a reader that expects this very block behind that check, so that its answer is about the block alone.
    fn expected(&self) -> Progress {
        Progress {
            next: self.number(),
            count: self.head.count,
            release: self.head.release,
            edition: image_limits::edition_selected(self.head.reserved),
            last: self.last,
        }
    }

    /// How a reader stops at the block; where it accepts it, the payload is there.
    pub fn read(&self, mut reader: Reader, payload: &mut [u8; 480]) -> Stop {
        reader.progress = self.expected();
        image_reader::read_turn(reader, self.bytes, 1, payload).stop
    }
}
