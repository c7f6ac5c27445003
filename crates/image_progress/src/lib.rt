// How far a reader has come, and what follows from it.
#![tactic(auto)]

ghost use Rattle.std.specs.Prelude.{◌≡◌};
ghost use Rattle.image_progress.specs.Progress.{completion_number, done, closed, mark_for, start};

use image_limits::{edition_selected, mark_of};

// How far a reader has come: the number that it expects, and, if that is not 0, the count, release and edition that its first
// accepted block fixed; and the check of the block that it accepted last, zeros before the first.
#[repr(C)]
#[derive(Clone, Copy, Debug, PartialEq, Eq)]
pub struct Progress {
    pub next: u32,
    pub count: u32,
    pub release: u32,
    pub edition: u32,
    pub last: [u8; 16],
}

impl Progress {
    // Before the first block.
    pub fn start() -> Progress
        ensures { result ≡ start }
    {
        Progress {
            next: 0,
            count: 0,
            release: 0,
            edition: 0,
            last: [0; 16],
        }
    }
}

// Whether an image is complete.
#[derive(Clone, Copy, Debug, PartialEq, Eq)]
pub enum Completion {
    Complete,
    NotComplete,
}

impl Completion {
    pub fn number(self) -> u32
        ensures { result ≡ completion_number self }
    {
        match self {
            Completion::Complete => 0,
            Completion::NotComplete => 17,
        }
    }
}

// Whether the last block has been accepted.
#[tactic(auto, unfolding(crate::specs::Progress::done))]
pub fn complete(progress: Progress) -> bool
    ensures { result ≡ done progress }
{
    progress.next > 0 && progress.next == progress.count
}

// Whether no block may follow: a block is then refused with 16, whatever it holds.
#[tactic(auto, unfolding(crate::specs::Progress::closed))]
pub fn may_not_follow(progress: Progress) -> bool
    ensures { result ≡ closed progress }
{
    progress.next > 0 && progress.count <= progress.next
}

// The mark that a reader of both editions asks for: of the edition that it has fixed, and before that of the one selected.
#[tactic(auto, unfolding(crate::specs::Progress::mark_for))]
pub fn mark_asked_for(progress: Progress, reserved: u16) -> u32
    ensures { result ≡ mark_for progress reserved }
{
    if progress.next > 0 {
        mark_of(progress.edition)
    } else {
        mark_of(edition_selected(reserved))
    }
}
