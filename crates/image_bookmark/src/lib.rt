// The bytes of a bookmark that its check covers: how far a reader has come, and how many payload bytes it has accepted.
#![tactic(auto)]

ghost use Rattle.std.specs.Prelude.{◌≡◌};
ghost use Rattle.image_bookmark.specs.Bookmark.{front_of_lem, progress_in, bytes_in};

use image_progress::Progress;

// The first 40 bytes of a bookmark.
#[tactic(auto, unfolding(crate::specs::Bookmark::front_of_lem, octets::specs::Words::bytes_of))]
pub fn front_of(progress: Progress, bytes: u64) -> [u8; 40]
    ensures { result ≡ front_of_lem progress bytes }
{
    let mut front = [0; 40];
    front[..4].copy_from_slice(&progress.next.to_be_bytes());
    front[4..8].copy_from_slice(&progress.count.to_be_bytes());
    front[8..12].copy_from_slice(&progress.release.to_be_bytes());
    front[12..16].copy_from_slice(&progress.edition.to_be_bytes());
    front[16..32].copy_from_slice(&progress.last);
    front[32..].copy_from_slice(&bytes.to_be_bytes());
    front
}

// How far the reader had come that a bookmark was made of.
#[tactic(auto, unfolding(crate::specs::Bookmark::progress_in, octets::specs::Words::word))]
pub fn progress_in(bookmark: [u8; 56]) -> Progress
    ensures { result ≡ progress_in bookmark }
{
    let mut last = [0; 16];
    last.copy_from_slice(&bookmark[16..32]);
    Progress {
        next: u32::from_be_bytes([bookmark[0], bookmark[1], bookmark[2], bookmark[3]]),
        count: u32::from_be_bytes([bookmark[4], bookmark[5], bookmark[6], bookmark[7]]),
        release: u32::from_be_bytes([bookmark[8], bookmark[9], bookmark[10], bookmark[11]]),
        edition: u32::from_be_bytes([bookmark[12], bookmark[13], bookmark[14], bookmark[15]]),
        last,
    }
}

// The payload bytes that it had accepted.
#[tactic(auto, unfolding(octets::specs::Words::word))]
pub fn bytes_in(bookmark: [u8; 56]) -> u64
    ensures { result ≡ bytes_in bookmark }
{
    let mut number = [0; 8];
    number.copy_from_slice(&bookmark[32..40]);
    u64::from_be_bytes(number)
}
