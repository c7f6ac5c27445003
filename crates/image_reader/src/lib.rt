// The reader of release images: started, a turn over lent blocks, and whether it is complete.
#![tactic(auto)]

ghost use Rattle.std.specs.Prelude.{◌≡◌};
ghost use Rattle.image_reader.specs.Calls as spec;

use aes_schedule::KeyAnswer;
use image_progress::{Completion, Progress};
use image_reader_tally::Stop;
use image_reader_turn::turn;
use image_spec::KeyPair;

// The schedules of the encryption key and of the check key, and how far the reader has come.
#[repr(C)]
#[derive(Clone, Copy)]
pub struct Reader {
    pub keys: KeyPair,
    pub progress: Progress,
}

// The answer for the keys, and the reader: zeros if a key was refused.
#[derive(Clone, Copy)]
pub struct ReadStarted {
    pub answer: KeyAnswer,
    pub reader: Reader,
}

// The reader after a turn, the blocks accepted, the sum of their payload lengths, and how it stopped.
#[derive(Clone, Copy)]
pub struct Turn {
    pub reader: Reader,
    pub accepted: usize,
    pub bytes: usize,
    pub stop: Stop,
}

// A reader that expects block 0.
pub fn read_start(ekey: &[u8], ckey: &[u8]) -> ReadStarted
    ensures { result ≡ spec.start_of ekey.now ckey.now }
{
    let mut keys = KeyPair::none();
    let KeyAnswer::Taken = keys.expand(ekey, ckey) else {
        return started(KeyAnswer::KeyLength, KeyPair::none());
    };
    started(KeyAnswer::Taken, keys)
}

// Takes the lent blocks in, as many as asked for, up to the first that is refused; the decrypted bytes of block j of the turn
// go into the output at 480 j. Nothing of a refused block reaches the output or the reader, so it may be offered again.
pub fn read_turn(reader: Reader, blocks: &[u8], asked: usize, output: &mut [u8]) -> Turn
    ensures { (result, output.new) ≡ spec.turn_of reader blocks.now asked output.old }
{
    let done = turn(&reader.keys, reader.progress, blocks, asked, output);
    Turn {
        reader: Reader {
            progress: done.progress,
            ..reader
        },
        accepted: done.accepted,
        bytes: done.bytes,
        stop: done.stop,
    }
}

// Whether the last block has been accepted.
pub fn read_complete(reader: Reader) -> Completion
    ensures { result ≡ spec.completion_of reader }
{
    if image_progress::complete(reader.progress) {
        Completion::Complete
    } else {
        Completion::NotComplete
    }
}

fn started(answer: KeyAnswer, keys: KeyPair) -> ReadStarted
    ensures { result ≡ spec.start_with answer keys }
{
    ReadStarted {
        answer,
        reader: Reader {
            keys,
            progress: Progress::start(),
        },
    }
}
