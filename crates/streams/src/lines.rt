// Lines that wait in memory and are written together.
ghost use Rattle.std.specs.Prelude.{◌≡◌, [], OnOk, OnErr, length};
ghost use Rattle.std.specs.Fmt.{AppendsText};
ghost use Rattle.std.specs.Io.KnownBytes.{Appends};

use crate::{Told, write};
use arrayvec::ArrayString;
use std::fmt::{self, Display};
use std::io::Write;

/// Lines that wait, `ROOM` bytes at most, of up to `LINE` bytes each. They lie in the value itself: no memory is asked for.
#[derive(Drop)]
pub struct Lines<const ROOM: usize, const LINE: usize> {
    pub text: ArrayString<ROOM>,
    // The line that is put, until it is whole.
    line: ArrayString<LINE>,
}

impl<const ROOM: usize, const LINE: usize> Lines<ROOM, LINE> {
    /// None waits.
    pub fn new() -> Self
        ensures { result.text.bytes ≡ [] }
    {
        Lines {
            text: ArrayString::new(),
            line: ArrayString::new(),
        }
    }

    /// How many bytes wait.
    pub fn len(&self) -> usize
        ensures { result ≡ length self.now.text.bytes }
    {
        self.text.len()
    }

    /// Puts a line behind those that wait. One that has no room, or that cannot be shown, is not put.
    pub fn put<D: Display + Drop>(&mut self, line: D) -> fmt::Result
        ensures put { OnOk result (AppendsText self.old.text.bytes self.new.text.bytes (D.output line)) }
        ensures kept { OnErr result (self.new.text ≡ self.old.text) }
    {
        self.line.clear();
        fmt::Write::write(&mut self.line, line)?;
        fmt::Write::write_str(&mut self.text, self.line.as_str())
    }

    /// Writes all that waits. Where that fails it still waits.
    pub fn write<W: Write, E: Eprint + Alloc, D: Display + Copy + Drop>(
        &mut self,
        rt: &E,
        output: &mut W,
        failed: D,
    ) -> Result<(), Told>
        ensures written { OnOk result (Appends (W.contents output.old) (W.contents output.new) self.old.text.bytes) }
        ensures emptied { OnOk result (self.new.text.bytes ≡ []) }
        ensures kept { OnErr result (self.new ≡ self.old) }
    {
        write(rt, output, self.text.as_bytes(), failed)?;
        self.clear();
        Ok(())
    }

    /// Drops all that waits.
    pub fn clear(&mut self)
        ensures { self.new.text.bytes ≡ [] }
    {
        self.text.clear();
    }
}
