// What a turn of a reader has done, block by block: how far it has come, what it has counted, and how it stopped.
#![tactic(auto)]

ghost use Rattle.std.specs.Prelude.{◌≡◌, ◌&&◌, nat_le, nat_lt};
ghost use Rattle.image_reader_tally.specs.Tally as spec;
ghost use Rattle.image_reader_tally.specs.Model as model;

use image_layout::Head;
use image_limits::edition_selected;
use image_progress::Progress;
use image_reasons::{Reason, Verdict};
use image_spec::Judged;

// How a turn stopped: at the end of what it was to do, refused as a whole, or at a block, whose place in the turn it names.
#[derive(Clone, Copy)]
pub enum Stop {
    End,
    Asked,
    Lent,
    Room,
    At(usize, Reason),
}

// What a turn did: how far the reader has come, the blocks accepted, the sum of their payload lengths, and how it stopped.
#[derive(Clone, Copy)]
pub struct BlocksRead {
    pub progress: Progress,
    pub accepted: usize,
    pub bytes: usize,
    pub stop: Stop,
}

impl Stop {
    pub fn number(self) -> u32
        ensures { result ≡ spec.stop_number self }
    {
        match self {
            Stop::End => 0,
            Stop::Room => 4,
            Stop::Asked => 5,
            Stop::Lent => 6,
            Stop::At(_, reason) => reason.number(),
        }
    }
}

impl BlocksRead {
    // No block yet, or none at all.
    pub fn none(progress: Progress, stop: Stop) -> BlocksRead
        ensures { result ≡ spec.blocks_read_with progress 0 0 stop }
    {
        BlocksRead {
            progress,
            accepted: 0,
            bytes: 0,
            stop,
        }
    }
}

// Whether a turn may be asked for so many blocks.
pub fn may_ask(asked: usize) -> bool
    ensures { result ≡ nat_lt 0 asked && nat_le asked 128 }
{
    0 < asked && asked <= 128
}

// What a turn has done after a block with this verdict, header and check. No turn of 128 blocks comes near 2^64, where both sums
// start again at 0.
pub fn after_block(done: BlocksRead, judged: Judged, check: [u8; 16]) -> BlocksRead
    ensures { result ≡ model.stepped judged.verdict done judged.head check }
{
    match judged.verdict {
        Verdict::Accepted => BlocksRead {
            progress: advanced(done.progress, judged.head, check),
            accepted: done.accepted.wrapping_add(1),
            bytes: done.bytes.wrapping_add(judged.head.len as usize),
            stop: done.stop,
        },
        Verdict::Refused(reason) => BlocksRead {
            stop: Stop::At(done.accepted, reason),
            ..done
        },
    }
}

// The progress after a block with this header and this check, were it accepted.
fn advanced(progress: Progress, head: Head, check: [u8; 16]) -> Progress
    ensures { result ≡ model.following progress head check }
{
    Progress {
        next: progress.next.wrapping_add(1),
        count: head.count,
        release: head.release,
        edition: edition_selected(head.reserved),
        last: check,
    }
}
