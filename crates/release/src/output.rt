// Standard output, in lines: they wait in memory and are written where little room is left, or at the end.
use crate::failure::Failure;
use crate::form::{Form, Show, Shown};
use crate::system::System;
use std::io;
use streams::{Lines, Told};

// The bytes that wait at most, and from how many on they are written before the next block: what stands on one takes less than 2,560 bytes.
const ROOM: usize = 8192;

const FULL: usize = 5632;

const LINE: usize = 2560;

/// The memory of the lines that wait. Whoever writes rows lends it to an output.
pub type Waiting = Lines<ROOM, LINE>;

#[derive(Drop)]
pub struct Output<'a> {
    form: Form,
    lines: &'a mut Waiting,
}

impl<'a> Output<'a> {
    pub fn new(form: Form, lines: &'a mut Waiting) -> Output<'a> {
        Output { form, lines }
    }

    pub fn put<T: Show>(&mut self, rt: &impl System, what: T) -> Result<(), Told> {
        let form = self.form;
        self.lines
            .put(Shown { form, what })
            .map_err(|_| Failure::Room.tell(rt))
    }

    /// Whether little room is left.
    pub fn is_full(&self) -> bool {
        self.lines.len() >= FULL
    }

    /// Writes what waits where little room is left. Where that fails nothing waits any more, so that what is cut has no last line.
    pub fn make_room(&mut self, rt: &impl System) -> Result<(), Told> {
        if !self.is_full() {
            return Ok(());
        }
        let written = self.write(rt);
        self.lines.clear();
        written
    }

    /// Writes all that waits. Where that fails it still waits.
    pub fn write(&mut self, rt: &impl System) -> Result<(), Told> {
        self.lines.write(rt, &mut io::writer(rt), Failure::Output)
    }
}
