// The key schedule of FIPS 197, 5.2: a key of 16, 24 or 32 bytes expanded into round keys.
#![tactic(auto)]

ghost use Rattle.std.specs.Prelude.{◌≡◌, ◌&&◌, eqb};
ghost use Rattle.aes_sbox.specs.Sbox.{s_box};
ghost use Rattle.aes_schedule.specs.Schedule.{schedule_of, key_number, round_count, first_word, key_size, answer_of, no_schedule};

use aes_expand::expand_into;
use aes_sbox::table;

// Whether the key was taken, or refused for its length.
#[derive(Clone, Copy)]
pub enum KeyAnswer {
    Taken,
    KeyLength,
}

// The words of the round keys, with zeros past the last, and the number of rounds: 10, 12 or 14, or 0 if no key made it.
#[repr(C)]
#[derive(Clone, Copy)]
pub struct KeySchedule {
    pub words: [u32; 60],
    pub rounds: usize,
}

#[derive(Clone, Copy)]
pub struct Expanded {
    pub answer: KeyAnswer,
    pub schedule: KeySchedule,
}

// The words of a key, and the rounds that it gives.
#[derive(Clone, Copy)]
struct KeySize {
    words: usize,
    rounds: usize,
}

// Round keys and words are counted separately.
#[derive(Clone, Copy)]
pub struct RoundKeyNumber(pub usize);

#[derive(Clone, Copy)]
pub struct WordNumber(pub usize);

impl KeyAnswer {
    pub fn number(self) -> u32
        ensures { result ≡ key_number self }
    {
        match self {
            KeyAnswer::Taken => 0,
            KeyAnswer::KeyLength => 1,
        }
    }
}

impl RoundKeyNumber {
    // Four words for each round key. The shift keeps 64 bits, so it needs no bound and costs less than a test.
    pub fn first_word(self) -> WordNumber
        ensures { result.0 ≡ first_word self.0 }
    {
        WordNumber(self.0 << 2)
    }
}

impl KeySchedule {
    pub const WORDS_16: usize = 4;

    pub const ROUNDS_16: usize = 10;

    pub const WORDS_24: usize = 6;

    pub const ROUNDS_24: usize = 12;

    pub const WORDS_32: usize = 8;

    pub const ROUNDS_32: usize = 14;

    // The schedule of no key.
    pub fn none() -> KeySchedule
        ensures { result ≡ no_schedule }
    {
        KeySchedule {
            words: [0; 60],
            rounds: 0,
        }
    }

    // The schedule of a key.
    pub fn new(key: &[u8]) -> Expanded
        ensures { result ≡ schedule_of s_box key.now }
    {
        let mut schedule = KeySchedule::none();
        let answer = schedule.expand(key);
        Expanded { answer, schedule }
    }

    // Becomes the schedule of a key, or that of none if the key is refused. A caller that has room for a schedule has it made there: as a
    // result it would be copied to the stack a second time.
    pub fn expand(&mut self, key: &[u8]) -> KeyAnswer
        ensures { (result ≡ (schedule_of s_box key.now).answer) × (self.new ≡ (schedule_of s_box key.now).schedule) }
    {
        let size = key_size(key.len());
        let end = RoundKeyNumber(size.rounds + 1).first_word();
        let sbox = table();
        self.words = [0; 60];
        expand_into(&sbox, key, size.words, end.0, &mut self.words);
        self.rounds = size.rounds;
        answer_of(size.rounds)
    }

    // Whether a key can have given this schedule, by its rounds.
    pub fn is_usable(&self) -> bool
        ensures { result ≡ round_count self.now.rounds }
    {
        is_round_count(self.rounds)
    }
}

// The answer for a key of this length, by the rounds that it gives.
pub fn answer_of(rounds: usize) -> KeyAnswer
    ensures { result ≡ answer_of rounds }
{
    if rounds == 0 {
        return KeyAnswer::KeyLength;
    }
    KeyAnswer::Taken
}

// By the length of a key in bytes; no words and no rounds where no key has it.
fn key_size(length: usize) -> KeySize
    ensures { result ≡ key_size length }
{
    match length {
        16 => KeySize {
            words: KeySchedule::WORDS_16,
            rounds: KeySchedule::ROUNDS_16,
        },
        24 => KeySize {
            words: KeySchedule::WORDS_24,
            rounds: KeySchedule::ROUNDS_24,
        },
        32 => KeySize {
            words: KeySchedule::WORDS_32,
            rounds: KeySchedule::ROUNDS_32,
        },
        _ => KeySize {
            words: 0,
            rounds: 0,
        },
    }
}

// Whether a key can give so many rounds.
pub fn is_round_count(n: usize) -> bool
    ensures { result ≡ round_count n }
{
    n == KeySchedule::ROUNDS_16 || n == KeySchedule::ROUNDS_24 || n == KeySchedule::ROUNDS_32
}

// Whether a call may go on with the encryption key and the check key that it was given.
pub fn both_taken(ekey: KeyAnswer, ckey: KeyAnswer) -> bool
    ensures { result ≡ eqb (key_number ekey) 0 && eqb (key_number ckey) 0 }
{
    matches!((ekey, ckey), (KeyAnswer::Taken, KeyAnswer::Taken))
}
