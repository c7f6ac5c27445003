// What is shown of a block: in words, or as an object of JSON.
use crate::card::Refusal;
use crate::form::Show;
use image_layout::Head;
use image_reader_tally::Stop;
use image_reasons::Reason;
use std::fmt::{self, Formatter};
use streams::Hex;

/// A block at its place, its header, its bytes, and its payload where a reader accepts it. Where there are keys, `stop` says how a reader
/// stops at it.
#[derive(Clone, Copy)]
pub struct Seen<'a> {
    pub place: usize,
    pub head: Head,
    pub stop: Option<Stop>,
    pub alone: bool,
    pub bytes: &'a [u8],
    pub payload: &'a [u8],
}

impl Seen<'_> {
    fn is_open(&self) -> bool {
        matches!(self.stop, Some(Stop::End))
    }

    fn check(&self) -> Hex<'_> {
        Hex(image_view::check_part(self.bytes, 0))
    }

    // What is shown of one block alone: its check and its bytes, and its payload where it is open.
    fn words_alone<W: fmt::Write>(&self, f: &mut Formatter<W>) -> fmt::Result {
        let check = self.check();
        writeln!(f, "check {check}")?;
        dump(f, "bytes", self.bytes)?;
        if !self.is_open() {
            return Ok(());
        }
        if self.payload.is_empty() {
            return writeln!(f, "payload none");
        }
        dump(f, "payload", self.payload)
    }

    // The fields of it behind those of the header.
    fn json_alone<W: fmt::Write>(&self, f: &mut Formatter<W>) -> fmt::Result {
        let check = self.check();
        let bytes = Hex(self.bytes);
        write!(
            f,
            ",\"check\":\"{check}\",\"bytes\":\"{bytes}\",\"payload\":"
        )?;
        if !self.is_open() {
            return write!(f, "null");
        }
        let payload = Hex(self.payload);
        write!(f, "\"{payload}\"")
    }
}

impl Show for Seen<'_> {
    fn words<W: fmt::Write>(&self, f: &mut Formatter<W>) -> fmt::Result {
        let Head {
            number,
            count,
            release,
            len,
            reserved,
        } = self.head;
        let place = self.place;
        write!(
            f,
            "block {place} number {number} count {count} release {release} length {len} edition "
        )?;
        match reserved {
            0 => f.write_str("1")?,
            2 => f.write_str("2")?,
            mark => write!(f, "unknown mark {mark}")?,
        }
        match self.stop {
            None => {}
            Some(Stop::End) => f.write_str(" check right")?,
            Some(Stop::At(_, Reason::CheckWrong)) => f.write_str(" check wrong")?,
            Some(stop) => {
                let refusal = stop.number();
                write!(f, " check right refusal {refusal}")?;
            }
        }
        f.write_str("\n")?;
        if self.alone {
            self.words_alone(f)?;
        }
        Ok(())
    }

    fn json<W: fmt::Write>(&self, f: &mut Formatter<W>) -> fmt::Result {
        let Head {
            number,
            count,
            release,
            len,
            reserved,
        } = self.head;
        let place = self.place;
        write!(
            f,
            "{{\"block\":{place},\"number\":{number},\"count\":{count},\"release\":{release},\"length\":{len}"
        )?;
        f.write_str(match reserved {
            0 => ",\"edition\":1,\"mark\":",
            2 => ",\"edition\":2,\"mark\":",
            _ => ",\"edition\":null,\"mark\":",
        })?;
        match self.stop {
            None => write!(f, "{reserved},\"refusal\":null")?,
            Some(stop) => {
                let refusal = stop.number();
                write!(f, "{reserved},\"refusal\":{refusal}")?;
            }
        }
        if self.alone {
            self.json_alone(f)?;
        }
        f.write_str("}\n")
    }
}

// Bytes in rows of 32, each behind the word and the place of its first.
fn dump<W: fmt::Write>(f: &mut Formatter<W>, word: &str, bytes: &[u8]) -> fmt::Result {
    for (from, row) in (0..512).step_by(32).zip(bytes.chunks(32)) {
        let row = Hex(row);
        writeln!(f, "{word} {from} {row}")?;
    }
    Ok(())
}

// ---- what is not there

/// The place of a block that is not there, or not whole. In words nothing is shown of it.
#[derive(Clone, Copy)]
pub struct Missing {
    pub place: usize,
    pub refusal: Refusal,
}

impl Show for Missing {
    fn words<W: fmt::Write>(&self, _f: &mut Formatter<W>) -> fmt::Result {
        Ok(())
    }

    fn json<W: fmt::Write>(&self, f: &mut Formatter<W>) -> fmt::Result {
        let place = self.place;
        let refusal = self.refusal.number();
        write!(f, "{{\"block\":{place},\"number\":null,\"count\":null")?;
        write!(f, ",\"release\":null,\"length\":null,\"edition\":null")?;
        writeln!(f, ",\"mark\":null,\"refusal\":{refusal}}}")
    }
}
