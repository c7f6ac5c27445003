// The line so far, gathered from parts of the input.
ghost use Rattle.std.specs.Prelude.{◌<◌, ◌≤◌, IfSome, length};

use text_lines::{TooLong, gather, has_begun, no_line};

// The longest line, with a carriage return after it, and how much of one has come.
#[derive(Drop)]
pub struct LineSoFar {
    bytes: [u8; 4097],
    len: Result<usize, TooLong>,
}

impl LineSoFar {
    pub fn new() -> LineSoFar {
        LineSoFar {
            bytes: [0; 4097],
            len: no_line(),
        }
    }

    pub fn begin(&mut self) {
        self.len = no_line();
    }

    pub fn has_begun(&self) -> bool {
        has_begun(self.len)
    }

    // Reads `part` from `at` up to its next line feed, or its end: where the next line begins, if this one is whole.
    pub fn gather(&mut self, part: &[u8], at: usize) -> Option<usize>
        ensures { IfSome result (λ next. (at < next) × (next ≤ length part.now)) }
    {
        let gathered = gather(self.len, part, at, &mut self.bytes);
        self.len = gathered.line;
        gathered.next
    }

    // The bytes of the line, if it was not too long.
    pub fn bytes(&self) -> Option<&[u8]> {
        let len = self.len.ok()?;
        self.bytes.get(..len)
    }
}
