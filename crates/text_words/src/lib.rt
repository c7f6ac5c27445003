// Lines of text: words separated by one space.
#![tactic(auto)]

ghost use Rattle.std.specs.Prelude.{◌≡◌};
ghost use Rattle.text_words.specs.Words.{end_of, word_of, word_count};

use octets_slice::part;

// The place of the first byte `stop` from `at` on, or the end.
pub fn find(s: &[u8], at: usize, stop: u8) -> usize
    ensures { result ≡ end_of stop s.now at }
{
    let rest = part(s, at, s.len());
    at + rest.iter().position(|b| *b == stop).unwrap_or(rest.len())
}

// How many words a line has.
pub fn count(line: &[u8]) -> usize
    ensures { result ≡ word_count line.now }
{
    line.split(|b| *b == b' ').count()
}

// Word k of a line, from 0.
pub fn word(line: &[u8], k: usize) -> &[u8]
    ensures { result.now ≡ word_of k line.now }
{
    line.split(|b| *b == b' ').nth(k).unwrap_or(&[])
}
