// A line of progress on the terminal, where `dock` lends it one and the work takes longer than a second.
use arrayvec::ArrayString;
use std::fmt::{self, Display, Formatter};
use std::fs::File;
use std::io::Write;
use std::time;

/// What there is to do and when that began, the terminal if there is one, and, once a line stands there, when it was written.
#[derive(Drop)]
pub struct Clock {
    total: u64,
    begun: u64,
    terminal: Option<File>,
    shown: Option<u64>,
}

/// What a line says.
#[derive(Clone, Copy)]
struct Line {
    blocks: u64,
    total: u64,
    seconds_left: u64,
}

impl Line {
    // No file has 2^56 blocks, so nothing is cut off.
    fn percent(self) -> u64 {
        if self.total <= self.blocks {
            return 100;
        }
        self.blocks % (1 << 56) * 100 / self.total
    }
}

// Spaces cover what is left of a longer line before it.
impl Display for Line {
    fn fmt<W: fmt::Write>(&self, f: &mut Formatter<W>) -> fmt::Result {
        let blocks = self.blocks;
        let total = self.total;
        let percent = self.percent();
        write!(f, "\r{blocks} of {total} blocks, {percent} %")?;
        match self.seconds_left {
            0 => {}
            seconds @ 1..100 => write!(f, ", {seconds} s left")?,
            seconds => {
                let minutes = seconds / 60 + 1;
                write!(f, ", {minutes} min left")?;
            }
        }
        write!(f, "        ")
    }
}

// Whole seconds since 1970, or 0 where that is not known.
fn now(rt: &impl time::Clock) -> u64 {
    rt.since_1970().map_or(0, |time| time.as_secs())
}

impl Clock {
    /// `total` is the number of blocks that there are to do.
    pub fn start(rt: &impl time::Clock, terminal: Option<File>, total: u64) -> Clock {
        Clock {
            total,
            begun: now(rt),
            terminal,
            shown: None,
        }
    }

    // Whole seconds are counted, so a difference of one may be a moment; from the first line on it is a second.
    fn is_due(&self, time: u64) -> bool {
        match self.shown {
            Some(last) => last < time,
            None => self.begun < time && 1 < time - self.begun,
        }
    }

    // The seconds that the rest takes at the speed so far, or 0 where that is not known.
    fn seconds_left(&self, blocks: u64, time: u64) -> u64 {
        if time <= self.begun || self.total <= blocks {
            return 0;
        }
        match blocks / (time - self.begun) {
            0 => 0,
            speed => ((self.total - blocks - 1) / speed).saturating_add(1),
        }
    }

    /// Shows that so many blocks are done. A line has less than 160 bytes: three numbers of up to 20 digits, and words.
    pub fn tick(&mut self, rt: &impl time::Clock, blocks: u64) {
        let Some(terminal) = &self.terminal else {
            return;
        };
        let time = now(rt);
        if !self.is_due(time) {
            return;
        }
        let line = Line {
            blocks,
            total: self.total,
            seconds_left: self.seconds_left(blocks, time),
        };
        let mut text = ArrayString::<160>::new();
        if fmt::Write::write(&mut text, line).is_ok() {
            write_to(terminal, text.as_bytes());
        }
        self.shown = Some(time);
    }

    /// The line is wiped out, so that what is said next stands alone.
    pub fn stop(&self) {
        if let (Some(terminal), Some(_)) = (&self.terminal, self.shown) {
            write_to(
                terminal,
                b"\r                                                            \r",
            );
        }
    }
}

fn write_to(mut terminal: &File, bytes: &[u8]) {
    let _ = terminal.write_all(bytes);
}
