// How the lines of a response file make records.
#![tactic(auto)]

mod moves;
mod rules;

ghost use Rattle.std.specs.Prelude.{◌≡◌};
ghost use Rattle.aesavs_record.specs.Records as spec;

use aesavs_line::{Field, Line, Run, Way};

// The role of a field in its record: which text comes first depends on the section.
#[derive(Clone, Copy, Debug, PartialEq, Eq)]
pub enum Role {
    KeyOf,
    IvOf,
    FirstText,
    SecondText,
}

// What may come next: the line `kat` or `mct`; a mark; a mark or a COUNT; the KEY; the IV or the first text; the first text; the second text.
#[derive(Clone, Copy, Debug, PartialEq, Eq)]
pub enum Stage {
    AtStart,
    AtMark,
    AtRecord,
    AtKey,
    AtIv,
    AtFirst,
    AtSecond,
}

// Whether records have an IV.
#[derive(Clone, Copy, Debug, PartialEq, Eq)]
pub enum Kind {
    Ecb,
    Cbc,
}

// What the records of a section do, and of which kind its first record is, once that is complete.
#[derive(Clone, Copy, Debug, PartialEq, Eq)]
pub struct Section {
    pub way: Way,
    pub kind: Option<Kind>,
}

// A record as far as it has come: its COUNT, how many bytes its key and its first text have, and whether it has an IV.
#[derive(Clone, Copy, Debug, PartialEq, Eq)]
pub struct Record {
    pub count: u64,
    pub key: usize,
    pub text: usize,
    pub chained: bool,
}

// How far the reading has come, with the number of lines read.
#[derive(Clone, Copy, Debug, PartialEq, Eq)]
pub struct Standing {
    pub lines: u64,
    pub run: Run,
    pub stage: Stage,
    pub section: Section,
    pub held: Record,
}

// The answer to a line outside the form, or to one that is missing: 22 with its number.
#[derive(Clone, Copy, Debug, PartialEq, Eq)]
pub struct Refused {
    pub line: u64,
}

// The role of a field in a record of this direction.
pub fn role_of(way: Way, field: Field) -> Role
    ensures { result ≡ spec.role_of way field }
{
    match (way, field) {
        (_, Field::Key) => Role::KeyOf,
        (_, Field::Iv) => Role::IvOf,
        (Way::Encrypting, Field::Plaintext) | (Way::Decrypting, Field::Ciphertext) =>
            Role::FirstText,
        (Way::Encrypting, Field::Ciphertext) | (Way::Decrypting, Field::Plaintext) =>
            Role::SecondText,
    }
}

impl Standing {
    // Before the first line.
    pub fn start() -> Standing
        ensures { result ≡ spec.start_of }
    {
        Standing {
            lines: 0,
            run: Run::Known,
            stage: Stage::AtStart,
            section: Section {
                way: Way::Encrypting,
                kind: None,
            },
            held: Record {
                count: 0,
                key: 0,
                text: 0,
                chained: false,
            },
        }
    }

    // One more line, with the record that it completes; `size` is how many bytes the value of a field has, 0 if it is not hex.
    #[tactic(auto, unfolding(crate::specs::Records::step_of))]
    pub fn step(&mut self, line: Line, size: usize) -> Result<Option<Record>, Refused>
        ensures standing { self.new ≡ (spec.step_of self.old line size).standing }
        ensures answer { result ≡ (spec.step_of self.old line size).deed }
    {
        self.lines = self.lines.saturating_add(1);
        match self.stage {
            Stage::AtStart => self.first_line(line),
            _ => self.later_line(line, size),
        }
    }

    // The end of the input: inside a record, or before line 1, the missing line is refused.
    #[tactic(auto, unfolding(crate::specs::Records::end_of))]
    pub fn finish(self) -> Result<(), Refused>
        ensures { result ≡ spec.end_of self }
    {
        if !self.is_between() {
            return Err(Refused {
                line: self.lines.saturating_add(1),
            });
        }
        Ok(())
    }

    fn first_line(&mut self, line: Line) -> Result<Option<Record>, Refused>
        ensures standing { self.new ≡ (spec.open_step self.old line).standing }
        ensures answer { result ≡ (spec.open_step self.old line).deed }
    {
        let Line::Opens(run) = line else {
            return Err(self.refusal());
        };
        self.run = run;
        self.stage = Stage::AtMark;
        Ok(None)
    }

    #[tactic(auto, unfolding(crate::specs::Records::mark_step))]
    fn later_line(&mut self, line: Line, size: usize) -> Result<Option<Record>, Refused>
        ensures standing { self.new ≡ (spec.line_step self.old line size).standing }
        ensures answer { result ≡ (spec.line_step self.old line size).deed }
    {
        match line {
            Line::Skipped => {}
            Line::Marks(way) if self.is_between() => self.begin_section(way),
            Line::Counts(count) if self.stage == Stage::AtRecord => self.begin_record(count),
            Line::Value(field) => return self.take(field, size),
            _ => return Err(self.refusal()),
        }
        Ok(None)
    }
}
