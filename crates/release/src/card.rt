// What a refusal says, in the words of docs/REFUSALS.md: when it comes, and what to do next. A copy without docs has it all here.
use image_layout::Head;
use image_progress::{Completion, Progress};
use image_reader_tally::Stop;
use image_reasons::Reason;
use std::fmt::{self, Display, Formatter};

/// Why an image, or a part of it, is refused.
#[derive(Clone, Copy)]
pub enum Refusal {
    /// A reader stopped before the end of what it was lent.
    Stopped(Stop),
    NotComplete,
    NoPlace,
}

impl Refusal {
    pub fn number(self) -> u32 {
        match self {
            Refusal::Stopped(stop) => stop.number(),
            Refusal::NotComplete => Completion::NotComplete.number(),
            Refusal::NoPlace => 20,
        }
    }

    fn when(self) -> &'static str {
        match self {
            Refusal::Stopped(Stop::At(_, reason)) => when(reason),
            Refusal::Stopped(Stop::Lent) => "the bytes lent are not whole blocks of 512",
            Refusal::NoPlace => "a place or number is not below the count",
            Refusal::Stopped(_) | Refusal::NotComplete => NOT_ACCEPTED,
        }
    }

    fn next(self) -> &'static str {
        match self {
            Refusal::Stopped(Stop::At(_, reason)) => next(reason),
            Refusal::Stopped(Stop::Lent) => {
                "The file or transfer ends inside a block: fetch the rest from the block expected"
            }
            Refusal::NoPlace => {
                "Ask for one below that; where there are fewer than there should be, fetch the rest of the image"
            }
            Refusal::Stopped(_) | Refusal::NotComplete => GO_ON,
        }
    }
}

const NOT_ACCEPTED: &str = "the last block has not been accepted";

const GO_ON: &str = "Install nothing. Continue from the block expected";

fn when(reason: Reason) -> &'static str {
    match reason {
        Reason::Count(_) => "the count in the block is not 1 to 65,535",
        Reason::Number(_) => "the block is not the one expected",
        Reason::OtherCount(_) => "the count differs from that of the first block accepted",
        Reason::OtherRelease(_) => "the release differs from that of the first block accepted",
        Reason::Length(_) => {
            "the payload length is wrong for its place: 480 in every block except the last, \
             which has 1 to 480, or 0 to 480 if it is the only one"
        }
        Reason::Reserved(_) => {
            "bytes 14 and 15 are neither 0 nor 2, or not those of the edition \
             that the first accepted block has fixed"
        }
        Reason::CheckWrong => "the check is wrong",
        Reason::FillNotZero => "the decrypted bytes after the payload are not zero",
        Reason::AfterLast => NOT_ACCEPTED,
    }
}

fn next(reason: Reason) -> &'static str {
    match reason {
        Reason::Count(_) | Reason::Length(_) => {
            "Someone with the check key sealed it like this: the tool that made the release is wrong, \
             and fetching again does not help"
        }
        Reason::Number(_) => {
            "A block was lost, repeated or overtaken: fetch the one expected and offer it. \
             In edition 2 that gets 14, and an 8 is handled like a 7"
        }
        Reason::OtherCount(_) => {
            "Blocks of two images are mixed: start again with one release. In edition 2 this usually gets 14"
        }
        Reason::OtherRelease(_) => {
            "Blocks of two releases are mixed: start again with one release. In edition 2 this usually gets 14"
        }
        Reason::Reserved(_) => {
            "If they are 0 or 2, images of both editions are mixed: start again with one of them. \
             Handle any other value like a 7; it may also be an edition that this reader does not know"
        }
        Reason::CheckWrong => "Fetch the block expected again and offer it",
        Reason::FillNotZero => {
            "Most likely this is not the encryption key that sealed the image: check the key, \
             and install nothing of this image"
        }
        Reason::AfterLast => GO_ON,
    }
}

/// The line for a refusal of the input at a block.
pub fn tell(rt: &impl Eprint, block: u64, refusal: Refusal) {
    let number = refusal.number();
    let when = refusal.when();
    let next = refusal.next();
    let _ = eprintln!(rt; "dock: block {block}: refusal {number}: {when}. {next}.");
}

/// The line for a place that no block has.
pub fn tell_place(rt: &impl Eprint, blocks: u64) {
    let number = Refusal::NoPlace.number();
    let when = Refusal::NoPlace.when();
    let next = Refusal::NoPlace.next();
    let _ = eprintln!(rt;
        "dock: refusal {number}: {when}: the image has {blocks} blocks, and places count from 0. {next}."
    );
}

/// The line for a complete image that is not the whole file.
pub fn tell_more(rt: &impl Eprint, blocks: u32, size: u64) {
    let more = size.saturating_sub(u64::from(blocks) * 512);
    let _ = eprintln!(rt;
        "dock: a complete image of {blocks} blocks, then {more} bytes more. \
         This is not the file that was sealed: fetch it again, or find out what was joined to it."
    );
}

/// The line behind a 14: what the header of the block says, and what that 14 can be (docs/REFUSALS.md, 'What a 14 can be').
pub fn tell_check(rt: &impl Eprint, progress: Progress, head: Head) {
    let header = Unchecked(head);
    let _ = if progress.next == 0 {
        eprintln!(rt;
            "dock: no block was accepted: most likely another key file, \
             or no image from its first block on; {header}."
        )
    } else {
        let cause = cause(progress, head);
        eprintln!(rt; "dock: {header}. {cause}.")
    };
}

/// A header in words. Nothing vouches for its numbers, since the check is wrong.
#[derive(Clone, Copy)]
struct Unchecked(Head);

impl Display for Unchecked {
    fn fmt<W: fmt::Write>(&self, f: &mut Formatter<W>) -> fmt::Result {
        let Head {
            number,
            count,
            release,
            reserved,
            ..
        } = self.0;
        let edition = marked(reserved);
        write!(
            f,
            "the header there, unchecked, has number {number}, count {count}, release {release}, edition {edition}"
        )
    }
}

fn marked(reserved: u16) -> &'static str {
    match reserved {
        0 => "1",
        2 => "2",
        _ => "unknown",
    }
}

// A block has a count of at least 1, so if there is none the room was reserved and never filled. In edition 2 the check covers the one
// before it, so 14 does not only mean damage.
fn cause(progress: Progress, head: Head) -> &'static str {
    if head.count == 0 {
        "No block stands there: the transfer broke off, so go on from the block expected"
    } else if head.reserved != 2 {
        "Where every copy gets 14, the block was damaged before it was copied, \
         or sealed under another check key: fetch it from where it was built"
    } else if progress.edition == 1 {
        "Where every copy gets 14, an image of edition 2 is joined to one of edition 1: \
         start anew with one of them"
    } else if head.number != progress.next {
        "Where every copy gets 14, blocks are lost, doubled or out of order: \
         fetch and offer the one expected"
    } else {
        "Where every copy gets 14, it is of another build under the same release number, \
         or the one before it was: get all blocks from one build and start anew"
    }
}
