// Bookmarks: how far a reader has come, kept where nothing is trusted, and the reader taken up again from there.
#![tactic(auto)]

ghost use Rattle.std.specs.Prelude.{◌≡◌, ◌++◌};
ghost use Rattle.aes_spec.specs.Cipher.{standard};
ghost use Rattle.cmac_spec.specs.Cmac.{cmac};
ghost use Rattle.image_reader_bookmark.specs.Calls as spec;

use aes_schedule::{KeyAnswer, KeySchedule};
use cmac::check_with;
use image_bookmark::{bytes_in, front_of, progress_in};
use image_progress::Progress;
use image_reader::Reader;
use image_spec::KeyPair;
use octets_block::store;
use octets_slice::{copy, equal};

// What resuming is answered with.
#[derive(Clone, Copy)]
pub enum ResumeAnswer {
    Resumed,
    KeyLength,
    NotABookmark,
}

// The answer, the reader, and the payload bytes that it had accepted: zeros where the call was refused.
#[derive(Clone, Copy)]
pub struct ReadResumed {
    pub answer: ResumeAnswer,
    pub reader: Reader,
    pub bytes: u64,
}

impl ResumeAnswer {
    pub fn number(self) -> u32
        ensures { result ≡ spec.resume_number self }
    {
        match self {
            ResumeAnswer::Resumed => 0,
            ResumeAnswer::KeyLength => 1,
            ResumeAnswer::NotABookmark => 25,
        }
    }
}

// The bookmark of a reader that has accepted so many payload bytes; zeros of a reader that no keys started.
pub fn read_save(reader: Reader, bytes: u64) -> [u8; 56]
    ensures { result ≡ spec.save_of reader bytes }
{
    if !reader.keys.is_usable() {
        return [0; 56];
    }
    let front = front_of(reader.progress, bytes);
    let check = check_with(&reader.keys.chk, &front);
    bookmark_of(front, check)
}

// The reader that a bookmark was made of, under the keys that started it, and its payload bytes. The schedules are made here and not by a
// start: a second reader on the stack would take half a KiB more.
pub fn read_resume(ekey: &[u8], ckey: &[u8], bookmark: [u8; 56]) -> ReadResumed
    ensures { result ≡ spec.resume_of ekey.now ckey.now bookmark }
{
    let mut keys = KeyPair::none();
    let KeyAnswer::Taken = keys.expand(ekey, ckey) else {
        return refused(ResumeAnswer::KeyLength);
    };
    if !is_bookmark(&keys.chk, &bookmark) {
        return refused(ResumeAnswer::NotABookmark);
    }
    ReadResumed {
        answer: ResumeAnswer::Resumed,
        reader: Reader {
            keys,
            progress: progress_in(bookmark),
        },
        bytes: bytes_in(bookmark),
    }
}

// Whether the last 16 bytes are the check of the first 40.
fn is_bookmark(chk: &KeySchedule, bookmark: &[u8; 56]) -> bool
    ensures { result ≡ spec.is_bookmark (cmac (standard chk.now.words chk.now.rounds)) bookmark.now }
{
    let made = check_with(chk, &bookmark[..40]);
    equal(&made[..16], &bookmark[40..56])
}

fn bookmark_of(front: [u8; 40], check: [u8; 16]) -> [u8; 56]
    ensures { result ≡ front ++ check }
{
    let mut bookmark = [0; 56];
    copy(&front, &mut bookmark, 0);
    store(&mut bookmark, 40, check);
    bookmark
}

fn refused(answer: ResumeAnswer) -> ReadResumed
    ensures { result ≡ spec.refused_with answer }
{
    ReadResumed {
        answer,
        reader: Reader {
            keys: KeyPair::none(),
            progress: Progress::start(),
        },
        bytes: 0,
    }
}
