// What one block of an image is, sealed, opened and judged, for an edition of the format, and its laws; of code only the two keys'
// schedules, and a verdict beside its header.
#![tactic(auto)]

ghost use Rattle.std.specs.Prelude.{◌≡◌};
ghost use Rattle.aes_sbox.specs.Sbox.{s_box};
ghost use Rattle.aes_schedule.specs.Schedule.{schedule_of};
ghost use Rattle.image_spec.specs.KeyPair.{no_keys, pair_of, pair_answer, rounds_of, usable};

use aes_schedule::{KeyAnswer, KeySchedule, both_taken};
use image_layout::Head;
use image_reasons::Verdict;

// The schedules of the encryption key and of the check key.
#[repr(C)]
#[derive(Clone, Copy)]
pub struct KeyPair {
    pub enc: KeySchedule,
    pub chk: KeySchedule,
}

// The verdict on a block, and the header that was read from it.
#[derive(Clone, Copy)]
pub struct Judged {
    pub verdict: Verdict,
    pub head: Head,
}

impl KeyPair {
    pub fn none() -> KeyPair
        ensures { result ≡ no_keys }
    {
        KeyPair {
            enc: KeySchedule::none(),
            chk: KeySchedule::none(),
        }
    }

    // The schedules of two keys, put where the caller has room: as a result they would be copied to the stack a second time.
    pub fn expand(&mut self, ekey: &[u8], ckey: &[u8]) -> KeyAnswer
        ensures answer { result ≡ pair_answer (schedule_of s_box ekey.now) (schedule_of s_box ckey.now) }
        ensures keys { self.new ≡ pair_of (schedule_of s_box ekey.now) (schedule_of s_box ckey.now) }
    {
        let enc = self.enc.expand(ekey);
        let chk = self.chk.expand(ckey);
        if both_taken(enc, chk) {
            KeyAnswer::Taken
        } else {
            KeyAnswer::KeyLength
        }
    }

    // Whether keys can have given both schedules.
    pub fn is_usable(&self) -> bool
        ensures { result ≡ usable (rounds_of self.now) }
    {
        self.enc.is_usable() && self.chk.is_usable()
    }
}
