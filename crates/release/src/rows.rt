// The rows of a listing, in the form of the program `listing`, or objects of JSON.
use crate::form::Show;
use std::fmt::{self, Formatter};

#[derive(Clone, Copy, Debug, PartialEq, Eq)]
pub enum Row {
    Head,
    /// The number expected, 0 or the refusal's number, the payload length or 0.
    Block {
        expected: u32,
        answer: u32,
        length: usize,
    },
    /// 0 or 17, and the blocks accepted.
    End {
        complete: u32,
        accepted: u32,
    },
}

impl Show for Row {
    fn words<W: fmt::Write>(&self, f: &mut Formatter<W>) -> fmt::Result {
        match self {
            Row::Head => writeln!(f, "block answer length"),
            Row::Block {
                expected,
                answer,
                length,
            } => writeln!(f, "{expected} {answer} {length}"),
            Row::End { complete, accepted } => writeln!(f, "end {complete} {accepted}"),
        }
    }

    fn json<W: fmt::Write>(&self, f: &mut Formatter<W>) -> fmt::Result {
        match self {
            Row::Head => Ok(()),
            Row::Block {
                expected,
                answer,
                length,
            } => writeln!(
                f,
                "{{\"block\":{expected},\"refusal\":{answer},\"length\":{length}}}"
            ),
            Row::End { complete, accepted } => writeln!(
                f,
                "{{\"end\":true,\"refusal\":{complete},\"blocks\":{accepted}}}"
            ),
        }
    }
}
