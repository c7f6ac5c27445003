// The lines that are answered.
use aesavs_line::Field;
use std::fmt::{self, Display, Formatter};

#[derive(Clone, Copy, Debug, PartialEq, Eq)]
pub enum Row {
    /// A COUNT, and 0 or the field that differs first.
    Record { count: u64, verdict: Option<Field> },
    /// 22 and the number of the line that is refused.
    Refusal { line: u64 },
}

impl Display for Row {
    fn fmt<W: fmt::Write>(&self, f: &mut Formatter<W>) -> fmt::Result {
        match self {
            Row::Record { count, verdict } => {
                let word = verdict.map_or("0", name);
                writeln!(f, "{count} {word}")
            }
            Row::Refusal { line } => writeln!(f, "22 {line}"),
        }
    }
}

fn name(field: Field) -> &'static str {
    match field {
        Field::Key => "KEY",
        Field::Iv => "IV",
        Field::Plaintext => "PLAINTEXT",
        Field::Ciphertext => "CIPHERTEXT",
    }
}
