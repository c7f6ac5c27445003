// Lines taken one after the other, and each record that one completes answered.
use crate::fields::Fields;
use crate::rows::Row;
use crate::{Stop, System};
use aesavs_line::{Field, Line, Run, read_line, strip, value};
use aesavs_monte::Link;
use aesavs_record::{Record, Refused, Section, Standing, role_of};
use std::{fmt, io};
use streams::{Lines, Told};

// Room for the answers of a part of the input, and for one: a number of up to 20 digits, a space, a word of up to ten letters, a line feed.
const ROOM: usize = 8192;

const LINE: usize = 32;

/// The memory of the answers that wait.
pub type Waiting = Lines<ROOM, LINE>;

#[derive(Drop)]
pub struct Records<'a> {
    standing: Standing,
    // What the next record of the chain starts from.
    own: Link,
    // Whether all records so far agreed, if there was one.
    agree: Option<bool>,
    fields: Fields,
    output: [u8; 2048],
    // The answers that wait.
    lines: &'a mut Waiting,
}

impl<'a> Records<'a> {
    pub fn new(lines: &'a mut Waiting) -> Records<'a> {
        Records {
            standing: Standing::start(),
            own: Link {
                key: [0; 32],
                size: 0,
                iv: [0; 16],
                text: [0; 16],
            },
            agree: None,
            fields: Fields::new(),
            output: [0; 2048],
            lines,
        }
    }

    // There was a record, and every one agreed.
    pub fn agree(&self) -> bool {
        self.agree == Some(true)
    }

    // The next line, with the carriage return that may end it; `None` is one that is too long for any form.
    pub fn take(&mut self, line: Option<&[u8]>) -> Result<(), Stop> {
        let Some(line) = line else {
            self.standing.step(Line::Outside, 0)?;
            return Ok(());
        };
        let line = strip(line);
        let told = read_line(line);
        let section = self.standing.section;
        let size = match told {
            Line::Value(field) => self
                .fields
                .put(role_of(section.way, field), value(line, field)),
            _ => 0,
        };
        if let Some(record) = self.standing.step(told, size)? {
            self.answer(section, &record)?;
        }
        Ok(())
    }

    // The end of the input.
    pub fn finish(&self) -> Result<(), Stop> {
        self.standing.finish()?;
        Ok(())
    }

    // The section is as it was before this record, which is its first one if the section has no kind yet.
    fn answer(&mut self, section: Section, record: &Record) -> fmt::Result {
        let verdict = match self.standing.run {
            Run::Known => self.known_answer(section, record),
            Run::Monte => self.monte_carlo(section, record),
        };
        self.agree = Some(self.agree.unwrap_or(true) && verdict.is_none());
        self.lines.put(Row::Record {
            count: record.count,
            verdict,
        })
    }

    fn known_answer(&mut self, section: Section, record: &Record) -> Option<Field> {
        let fields = &self.fields;
        aesavs::known_answer(
            section.way,
            record.chained,
            fields.key(record),
            fields.iv(record),
            fields.first(record),
            fields.second(record),
            &mut self.output,
        )
    }

    fn monte_carlo(&mut self, section: Section, record: &Record) -> Option<Field> {
        let second = octets_block::load(self.fields.second(record), 0);
        let replayed = aesavs::monte_carlo(
            section.way,
            record.chained,
            section.kind.is_none(),
            self.own,
            self.fields.link(record),
            second,
        );
        self.own = replayed.next;
        replayed.verdict
    }

    // The last answer.
    pub fn refuse(&mut self, refused: Refused) -> fmt::Result {
        self.lines.put(Row::Refusal { line: refused.line })
    }

    // Writes the answers that wait.
    pub fn write(&mut self, rt: &impl System) -> Result<(), Told> {
        self.lines.write(
            rt,
            &mut io::writer(rt),
            "dock: the answers cannot be written to standard output",
        )
    }
}
