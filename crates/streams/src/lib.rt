// What a program reads and writes, and what it tells on standard error where that fails.
#![tactic(auto)]

mod hex;
mod lines;

ghost use Rattle.std.specs.Prelude.{◌≡◌, ◌≤◌, ◌<◌, IfOk, OnOk, length, take};
ghost use Rattle.std.specs.Io.{ReadsAtMost};
ghost use Rattle.std.specs.Io.KnownBytes.{Appends, Consumes, IsAtEnd, ReadConsumes};

pub use hex::Hex;
pub use lines::Lines;
use std::env::{Env, FillError};
use std::fmt::Display;
use std::fs::{File, OpenOptions};
use std::io::{Error, ErrorKind, Read, Write};
use std::rt::Files;

/// What failed has been told on standard error, so that whoever gets this has nothing to say of it.
#[derive(Clone, Copy, Debug, PartialEq, Eq)]
pub struct Told;

/// Reads once: how many bytes came to the front of `part`, 0 at the end of the input.
pub fn read_part<R: Read, E: Eprint + Alloc, D: Display + Copy + Drop>(
    rt: &E,
    input: &mut R,
    part: &mut [u8],
    failed: D,
) -> Result<usize, Told>
    ensures bound { ReadsAtMost result part.new }
    ensures bytes { ReadConsumes (R.remaining input.old) (R.remaining input.new) result part.new }
{
    input.read(part).map_err(|e| tell(rt, failed, &e))
}

/// Reads until `part` is full or the input ends: how many bytes came to its front.
pub fn read_full<R: Read, E: Eprint + Alloc, D: Display + Copy + Drop>(
    rt: &E,
    input: &mut R,
    part: &mut [u8],
    failed: D,
) -> Result<usize, Told>
    ensures bound { IfOk result (λ n. n ≤ length part.new) }
    ensures bytes { IfOk result (λ n. Consumes (R.remaining input.old) (R.remaining input.new) (take n part.new)) }
    ensures end { IfOk result (λ n. n < length part.new → IsAtEnd (R.remaining input.new)) }
{
    let mut n = 0;
    while n < part.len() {
        let got = read_part(rt, input, &mut part[n..], failed)?;
        if got == 0 {
            break;
        }
        n += got;
    }
    Ok(n)
}

/// Writes all of a text. Whoever closes the pipe that is written to, as `head` does, knows that it is cut, and is told nothing.
pub fn write<W: Write, E: Eprint + Alloc, D: Display + Copy + Drop>(
    rt: &E,
    output: &mut W,
    text: &[u8],
    failed: D,
) -> Result<(), Told>
    ensures { OnOk result (Appends (W.contents output.old) (W.contents output.new) text.now) }
{
    match output.write_all(text) {
        Err(e) if e.kind() == ErrorKind::BrokenPipe => Err(Told),
        written => written.map_err(|e| tell(rt, failed, &e)),
    }
}

/// Tells on standard error what failed, and why, in one line.
pub fn tell<E: Eprint + Alloc, D: Display + Copy + Drop>(rt: &E, failed: D, why: &Error) -> Told {
    let _ = match format!(in rt.alloc(); "{why}") {
        Ok(text) => {
            let words = without_number(text.as_str());
            eprintln!(rt; "{failed}: {words}")
        }
        Err(_) => eprintln!(rt; "{failed}: {why}"),
    };
    Told
}

// The system's words for an error, without the number that std puts behind them.
fn without_number(text: &str) -> &str {
    text.split_once(" (os error ")
        .map_or(text, |(words, _)| words)
}

/// The file that an argument names, opened to be read.
pub fn opened<R: Env + Files + Eprint + Alloc, D: Display + Copy + Drop>(
    rt: &R,
    i: usize,
    failed: D,
) -> Result<R::File, Told> {
    opened_with(rt, i, OpenOptions::new().read(true), failed)
}

/// The file that an argument names, opened with these options. A missing argument counts as an empty name, and a name that is no text
/// names no file.
pub fn opened_with<R: Env + Files + Eprint + Alloc, D: Display + Copy + Drop>(
    rt: &R,
    i: usize,
    options: &OpenOptions,
    failed: D,
) -> Result<R::File, Told> {
    let mut room = [0u8; 4096];
    let size = rt.arg(i, &mut room).unwrap_or(0);
    let file = match str::from_utf8(&room[..size]) {
        Ok(name) => options.open(rt, name),
        Err(_) => Err(Error::from(ErrorKind::InvalidFilename)),
    };
    file.map_err(|e| tell(rt, failed, &e))
}

/// Whether the program was started with an argument of this number; argument 0 is its own name.
pub fn is_given<R: Env>(rt: &R, i: usize) -> bool {
    let mut room = [0u8; 1];
    !matches!(rt.arg(i, &mut room), Err(FillError::NotPresent))
}

/// Puts a word into descriptor 3, which `dock` lends a program for its word that all went well. Nothing happens where it lends none.
pub fn report<R: Files>(rt: &R, word: &[u8]) {
    if !is_lent(rt) {
        return;
    }
    if let Ok(mut lent) = OpenOptions::new().append(true).open(rt, "/proc/self/fd/3") {
        let _ = lent.write_all(word);
    }
}

// Where nothing is lent, a file that the program has opened to read it may have the number, and no word belongs there.
fn is_lent<R: Files>(rt: &R) -> bool {
    let mut room = [0u8; 128];
    let Ok(mut file) = File::open(rt, "/proc/self/fdinfo/3") else {
        return false;
    };
    let size = file.read(&mut room).unwrap_or(0);
    str::from_utf8(&room[..size]).is_ok_and(is_writable)
}

// What the system says of a descriptor has its flags in octal, of which the last digit is how it was opened: 0 to read, 1 to write, 2 for both.
fn is_writable(info: &str) -> bool {
    info.split_once("flags:\t")
        .and_then(|(_, behind)| behind.split_once('\n'))
        .is_some_and(|(flags, _)| flags.ends_with('1') || flags.ends_with('2'))
}

#[cfg(test)]
mod tests {
    use super::*;

    // Gives one byte at a time, and fails where none is left.
    #[derive(Drop)]
    struct Slow {
        left: u8,
    }

    impl Read for Slow {
        fn read(&mut self, buf: &mut [u8]) -> std::io::Result<usize> {
            if self.left == 0 {
                return Err(Error::from_raw_os_error(5));
            }
            if buf.is_empty() {
                return Ok(0);
            }
            buf[0] = self.left;
            self.left -= 1;
            Ok(1)
        }
    }

    #[test]
    fn reads_in_parts_up_to_an_error(rt: HostRuntime) {
        let mut slow = Slow { left: 5 };
        let mut part = [0u8; 3];
        let first = read_full(&rt, &mut slow, &mut part, "a test");
        assert!(rt; matches!(&first, Ok(3)));
        assert_eq!(rt; part, [5, 4, 3]);
        let second = read_full(&rt, &mut slow, &mut part, "a test of a failed read");
        assert!(rt; second.is_err());
    }

    #[test]
    fn tells_how_a_descriptor_was_opened(rt: HostRuntime) {
        assert!(rt; is_writable("pos:\t0\nflags:\t0100002\nmnt_id:\t15\n"));
        assert!(rt; is_writable("pos:\t0\nflags:\t02001\nmnt_id:\t15\n"));
        assert!(rt; !is_writable("pos:\t0\nflags:\t0100000\nmnt_id:\t15\n"));
        assert!(rt; !is_writable(""));
    }

    #[test]
    fn puts_lines_that_have_room(rt: HostRuntime) {
        let mut lines = Lines::<8, 5>::new();
        assert!(rt; lines.put("one\n").is_ok());
        assert!(rt; lines.put("longer").is_err());
        assert!(rt; lines.put("four\n").is_err());
        assert_eq!(rt; lines.text.as_str(), "one\n");
        assert!(rt; lines.put("two\n").is_ok());
        assert_eq!(rt; lines.text.as_str(), "one\ntwo\n");
        lines.clear();
        assert_eq!(rt; lines.len(), 0);
    }

    #[test]
    fn shows_bytes_as_digits(rt: HostRuntime) {
        let mut lines = Lines::<80, 80>::new();
        assert!(rt; lines.put(Hex(&[])).is_ok());
        assert_eq!(rt; lines.len(), 0);
        assert!(rt; lines.put(Hex(&[0x0a, 0xf0])).is_ok());
        assert_eq!(rt; lines.text.as_str(), "0af0");
        assert!(rt; lines.put(Hex(&[7; 33])).is_ok());
        assert_eq!(rt; lines.len(), 70);
        assert!(rt; lines.text.as_str().ends_with("070707"));
    }

    #[test]
    fn writes_all(rt: HostRuntime) {
        let mut held = Vec::new(rt.alloc());
        assert!(rt; write(&rt, &mut held, b"a line", "a test").is_ok());
        assert_eq!(rt; held.as_slice(), b"a line".as_slice());
        assert_eq!(rt;
            without_number("No space left on device (os error 28)"),
            "No space left on device"
        );
    }
}
