// Reads lines on standard input and answers each with one line on standard output. It stops where these cannot be read or written.
#![tactic(auto)]

mod answers;
mod apprentice_lines;
mod calls;
mod check_lines;
mod cipher_lines;
mod held;
mod image_lines;
mod message_lines;
mod mode_lines;
mod receiver_lines;
mod view_lines;
mod wide_lines;
mod words;
mod wrap_lines;

use answers::Answers;
use held::Held;
use std::io::{self, Read};
use streams::Told;
use text_lines::{TooLong, gather, has_begun, no_line};
use words::Words;

const READ_FAILED: &str = "dock: standard input cannot be read";

const WRITE_FAILED: &str = "dock: the answers cannot be written to standard output";

// In bytes, without its line feed.
const LONGEST_LINE: usize = 65536;

// The bytes that the words of a line can stand for, two digits each.
const MOST_BYTES: usize = LONGEST_LINE / 2;

// The line so far and its length, marked if it is too long; memory for the bytes of its words; what is held from line to line; and the
// answers that wait. Nothing of such a size is cleared or copied for a line.
#[derive(Drop)]
struct Console {
    line: [u8; LONGEST_LINE],
    len: Result<usize, TooLong>,
    bytes: [u8; MOST_BYTES],
    held: Held,
    answers: Answers,
}

impl Console {
    fn new() -> Console {
        Console {
            line: [0; LONGEST_LINE],
            len: no_line(),
            bytes: [0; MOST_BYTES],
            held: Held::new(),
            answers: Answers::new(),
        }
    }

    // Reads and answers to the end of the input. Nothing says that the input ends, so the reads are bounded by a number that no run
    // uses up.
    fn serve(
        &mut self,
        rt: &(impl Print + Eprint + Alloc),
        input: &mut impl Read,
    ) -> Result<(), Told> {
        let mut part = [0; 4096];
        for _ in 0..u64::MAX {
            match streams::read_part(rt, input, &mut part, READ_FAILED)? {
                0 => return self.close(rt),
                size => self.feed(rt, &part[..size])?,
            }
        }
        Err(Told)
    }

    // A line that has begun at the end of the input counts, as if a line feed stood behind it.
    fn close(&mut self, rt: &(impl Print + Eprint + Alloc)) -> Result<(), Told> {
        if !has_begun(self.len) {
            return Ok(());
        }
        self.feed(rt, b"\n")
    }

    // Answers the lines that end in `part`, and keeps the beginning of the next.
    fn feed(&mut self, rt: &(impl Print + Eprint + Alloc), part: &[u8]) -> Result<(), Told> {
        for piece in part.split_inclusive(|b| *b == b'\n') {
            let gathered = gather(self.len, piece, 0, &mut self.line);
            self.len = gathered.line;
            if gathered.next.is_some() {
                self.finish_line(rt)?;
            }
        }
        self.write(rt)
    }

    // Answers the line that is whole. Where there may be no room for one answer more, those that wait are written first.
    fn finish_line(&mut self, rt: &(impl Print + Eprint + Alloc)) -> Result<(), Told> {
        if self.answers.is_full() {
            self.write(rt)?;
        }
        match self.answer() {
            Some(()) => self.answers.end_line(),
            None => self.answers.put_bad_line(),
        }
        self.len = no_line();
        Ok(())
    }

    // The answer to the line, without its end. Nothing is put for a bad line, and nothing held changes.
    fn answer(&mut self) -> Option<()> {
        let line = octets_slice::part(&self.line, 0, self.len.ok()?);
        let mut words = Words::new(line, &mut self.bytes);
        calls::answer(&mut words, &mut self.answers, &mut self.held)
    }

    // Writes the answers that wait.
    fn write(&mut self, rt: &(impl Print + Eprint + Alloc)) -> Result<(), Told> {
        let waiting = self.answers.waiting();
        streams::write(rt, &mut io::writer(rt), waiting, WRITE_FAILED)?;
        self.answers.clear();
        Ok(())
    }
}

// Where `dock` starts the program, with a word, it waits for a word that all was read and answered.
fn main(rt: HostRuntime) {
    let mut console = Console::new();
    let served = console.serve(&rt, &mut rt.stdin());
    if served.is_ok() && streams::is_given(&rt, 1) {
        streams::report(&rt, b"done\n");
    }
}
