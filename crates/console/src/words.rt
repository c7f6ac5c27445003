// The words of a line, taken one by one as what they stand for.
ghost use Rattle.std.specs.Prelude.{◌≡◌, ◌↔◌, ◌+◌, IsSome, IfSome, MatchOption};
ghost use Rattle.text_words.specs.Words.{word_of, rest_of, word_count};

use octets_slice::part;
use std::mem;

// How many words of a line are left, and the line from the first of these on; and the memory that is left for their bytes: each word of
// hex gets a part of its own, so that a call can write into one while it reads the others. A word that is missing or does not fit what
// is asked for makes the line bad.
#[derive(Drop)]
pub struct Words<'a> {
    left: usize,
    rest: &'a [u8],
    memory: &'a mut [u8],
}

impl<'a> Words<'a> {
    pub fn new(line: &'a [u8], memory: &'a mut [u8]) -> Words<'a>
        ensures { (result.left ≡ word_count line.now) × (result.rest.now ≡ line.now) }
    {
        Words {
            left: text_words::count(line),
            rest: line,
            memory,
        }
    }

    // The next word as it stands in the line.
    #[tactic(auto, using(text_words::proofs::WordLaws::behind_word))]
    pub fn word(&mut self) -> Option<&'a [u8]>
        ensures left { MatchOption result ((self.old.left ≡ 0) × (self.new.left ≡ 0)) (λ _. self.old.left ≡ self.new.left + 1) }
        ensures word { IfSome result (λ word. (word.now ≡ word_of 0 self.old.rest.now) × (self.new.rest.now ≡ rest_of 1 self.old.rest.now)) }
    {
        self.left = self.left.checked_sub(1)?;
        let rest = self.rest;
        let word = text_words::word(rest, 0);
        self.rest = part(rest, word.len() + 1, rest.len());
        Some(word)
    }

    // The bytes that a memory lent to a call holds before it.
    pub fn output(&mut self) -> Option<&'a mut [u8]> {
        let word = self.word()?;
        let memory = mem::take(&mut self.memory);
        let size = text_hex::decode(word, memory, 0)?;
        let (bytes, rest) = memory.split_at_mut_checked(size)?;
        self.memory = rest;
        Some(bytes)
    }

    pub fn bytes(&mut self) -> Option<&'a [u8]> {
        let bytes = self.output()?;
        Some(bytes)
    }

    // Bytes of which there must be so many.
    pub fn array<const N: usize>(&mut self) -> Option<[u8; N]> {
        self.bytes()?.try_into().ok()
    }

    // A number that its type can hold.
    pub fn number<N>(&mut self) -> Option<N>
    where
        N: TryFrom<u64>,
        N::Error: Drop,
    {
        let number = text_decimal::decimal(self.word()?, u64::MAX)?;
        N::try_from(number).ok()
    }

    // The end of the line.
    pub fn end(&self) -> Option<()>
        ensures { IsSome result ↔ self.now.left ≡ 0 }
    {
        (self.left == 0).then_some(())
    }
}
