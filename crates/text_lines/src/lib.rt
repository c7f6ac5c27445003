// Lines gathered from an input that comes in parts, each into the front of lent memory.
#![tactic(auto)]

ghost use Rattle.std.specs.Prelude.{◌≡◌};
ghost use Rattle.octets_slice.specs.Slices.{copied};
ghost use Rattle.text_lines.specs.Gathering.{no_line, has_begun, len_of, with_len, extended, gathered, line_in};

use octets_slice::{has_room, part};
use text_put::put;
use text_words::find;

// A line that was too long for the memory, with the number of its bytes that stand at the front of it.
#[derive(Clone, Copy, Debug, PartialEq, Eq)]
pub struct TooLong {
    pub len: usize,
}

// A line so far is the number of its bytes, which stand at the front of the memory, or the mark that it was too long.
pub fn no_line() -> Result<usize, TooLong>
    ensures { result ≡ no_line }
{
    Ok(0)
}

// Whether anything of a line has come: at the end of the input, such a line counts.
pub fn has_begun(line: Result<usize, TooLong>) -> bool
    ensures { result ≡ has_begun line }
{
    line != Ok(0)
}

// The line after a part, or as much of it as there was, and where the next one begins, if a line feed ended this one.
#[derive(Clone, Copy, Debug, PartialEq, Eq)]
pub struct Gathered {
    pub line: Result<usize, TooLong>,
    pub next: Option<usize>,
}

// What `input` has from `at` up to its next line feed, or its end, appended to the line so far; a line that is too long is marked.
#[tactic(auto, using(crate::proofs::Laws::part_is_line), unfolding(crate::specs::Gathering::gathered))]
pub fn gather(line: Result<usize, TooLong>, input: &[u8], at: usize, memory: &mut [u8]) -> Gathered
    ensures answer { result ≡ gathered line input.now at memory.old }
    ensures written { memory.new ≡ copied (line_in input.now at) (len_of line) memory.old }
{
    let end = find(input, at, b'\n');
    let line = extend(line, part(input, at, end), memory);
    let next = (end < input.len()).then(|| end + 1);
    Gathered { line, next }
}

// The line with `s` appended; if that is too long, the line is marked and nothing is put.
#[tactic(auto, unfolding(octets_slice::specs::Slices::copied, text_put::specs::Places::place_after, text_put::specs::Places::fits))]
fn extend(line: Result<usize, TooLong>, s: &[u8], memory: &mut [u8]) -> Result<usize, TooLong>
    ensures answer { result ≡ extended line s.now memory.old }
    ensures written { memory.new ≡ copied s.now (len_of line) memory.old }
{
    let len = len_of(line);
    if !has_room(memory.len(), len, s.len()) {
        return Err(TooLong { len });
    }
    with_len(line, put(s, memory, len))
}

// How many bytes of a line stand in the memory.
fn len_of(line: Result<usize, TooLong>) -> usize
    ensures { result ≡ len_of line }
{
    match line {
        Ok(len) => len,
        Err(too_long) => too_long.len,
    }
}

// As many bytes of a line, marked if it was.
fn with_len(line: Result<usize, TooLong>, len: usize) -> Result<usize, TooLong>
    ensures { result ≡ with_len line len }
{
    match line {
        Ok(_) => Ok(len),
        Err(_) => Err(TooLong { len }),
    }
}
