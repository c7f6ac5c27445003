// The lines of a listing.
use std::fmt::{self, Display, Formatter};

#[derive(Clone, Copy, Debug, PartialEq, Eq)]
pub enum Row {
    Head,
    /// The number expected, 0 or the refusal's number, the payload length or 0.
    Block {
        expected: u32,
        answer: u32,
        length: usize,
    },
    /// 0 or 17, and the blocks accepted.
    End {
        complete: u32,
        accepted: u32,
    },
}

impl Display for Row {
    fn fmt<W: fmt::Write>(&self, f: &mut Formatter<W>) -> fmt::Result {
        match self {
            Row::Head => writeln!(f, "block answer length"),
            Row::Block {
                expected,
                answer,
                length,
            } => writeln!(f, "{expected} {answer} {length}"),
            Row::End { complete, accepted } => writeln!(f, "end {complete} {accepted}"),
        }
    }
}
