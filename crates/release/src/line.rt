// The line on standard output that says whether an image is complete, and what it holds.
use image_progress::Progress;
use std::fmt::{self, Display, Formatter};

/// What the line says of an image: its release, edition and blocks, and the bytes of their payload.
#[derive(Clone, Copy, Debug, PartialEq, Eq)]
pub struct Held {
    pub release: u32,
    pub edition: u32,
    pub blocks: u32,
    pub payload: u64,
}

impl Held {
    /// The reader began at 0, so the number that it expects is the count of blocks accepted.
    pub fn by(progress: Progress, payload: u64) -> Held {
        Held {
            release: progress.release,
            edition: progress.edition,
            blocks: progress.next,
            payload,
        }
    }
}

impl Display for Held {
    fn fmt<W: fmt::Write>(&self, f: &mut Formatter<W>) -> fmt::Result {
        let Held {
            release,
            edition,
            blocks,
            payload,
        } = *self;
        write!(
            f,
            "release {release} edition {edition} blocks {blocks} payload {payload}"
        )
    }
}

/// `dock` takes the line for what became of the work, so a line that cannot be written is none.
pub fn complete(rt: &impl Print, held: Held) {
    let _ = println!(rt; "complete {held}");
}

/// Where no block was accepted, neither release nor edition is known.
pub fn not_complete(rt: &impl Print, held: Held) {
    let _ = if held.blocks == 0 {
        println!(rt; "not complete blocks 0")
    } else {
        println!(rt; "not complete {held}")
    };
}
