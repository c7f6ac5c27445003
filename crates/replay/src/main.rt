// Replays a response file of AESAVS: reads on standard input a line `kat` or `mct` and then the file, and answers each record with its
// COUNT and 0 or the field that differs first, and a line outside the form with 22 and its number; then it stops. `dock` starts it with
// the run and the name of a file instead, and then it reports on a descriptor whether every record agreed.
#![tactic(auto)]

mod fields;
mod line;
mod records;
mod rows;

use aesavs_record::Refused;
use line::LineSoFar;
use records::{Records, Waiting};
use std::env::Env;
use std::fmt;
use std::fs::File;
use std::io::Read;
use std::rt::Files;
use streams::Told;

// What a replay asks of the system.
trait System: Files<File = File> + Env + Print + Eprint + AllocGlobal {}

impl System for HostRuntime {}

// Why a replay ends before its input does: a line is refused, or a read or a write failed, which was told, or an answer has no room.
#[derive(Clone, Copy, Debug, PartialEq, Eq)]
enum Stop {
    Refused(Refused),
    Told,
    NoRoom,
}

impl From<Refused> for Stop {
    fn from(refused: Refused) -> Stop {
        Stop::Refused(refused)
    }
}

impl From<Told> for Stop {
    fn from(_told: Told) -> Stop {
        Stop::Told
    }
}

impl From<fmt::Error> for Stop {
    fn from(_e: fmt::Error) -> Stop {
        Stop::NoRoom
    }
}

#[derive(Drop)]
struct Replay<'a> {
    line: LineSoFar,
    records: Records<'a>,
}

impl<'a> Replay<'a> {
    fn new(lines: &'a mut Waiting) -> Replay<'a> {
        Replay {
            line: LineSoFar::new(),
            records: Records::new(lines),
        }
    }

    // Takes the lines that come whole with a part of the input.
    fn feed(&mut self, part: &[u8]) -> Result<(), Stop> {
        let mut at = 0;
        while let Some(next) = self.line.gather(part, at) {
            self.records.take(self.line.bytes())?;
            self.line.begin();
            at = next;
        }
        Ok(())
    }

    // At the end of the input a line that has begun counts, as if a line feed followed it.
    fn finish(&mut self) -> Result<(), Stop> {
        if self.line.has_begun() {
            self.feed(b"\n")?;
        }
        self.records.finish()
    }

    // The run as a line before those of the file.
    fn open(&mut self, rt: &impl System) -> Result<(), Stop> {
        let mut word = [0u8; 8];
        let n = rt.arg(1, &mut word).unwrap_or(0);
        self.feed(&word[..n])?;
        self.feed(b"\n")
    }

    // Takes a part of the input, or its end if the part is empty, and writes the answers. What came of the parts before it is `so_far`.
    fn turn(
        &mut self,
        rt: &impl System,
        so_far: Result<(), Stop>,
        part: &[u8],
    ) -> Result<(), Stop> {
        let taken = match so_far {
            Ok(()) if part.is_empty() => self.finish(),
            Ok(()) => self.feed(part),
            Err(stop) => Err(stop),
        };
        if let Err(Stop::Refused(refused)) = taken {
            self.records.refuse(refused)?;
        }
        self.records.write(rt)?;
        taken
    }

    // Nothing says that the input ends, so the turns are counted, up to a number that no run reaches.
    fn run<R: Read>(
        &mut self,
        rt: &impl System,
        input: &mut R,
        opened: Result<(), Stop>,
    ) -> Result<(), Stop> {
        let mut part = [0u8; 4096];
        for _ in 0..u64::MAX {
            let n = streams::read_part(
                rt,
                input,
                &mut part,
                "dock: the file could not be read to its end, check the disk and start again",
            )?;
            self.turn(rt, opened, &part[..n])?;
            if n == 0 {
                break;
            }
        }
        Ok(())
    }
}

// Standard input has the run and then the file.
fn replay_input<R: Read>(rt: &impl System, input: &mut R) -> Result<(), Stop> {
    let mut lines = Waiting::new();
    Replay::new(&mut lines).run(rt, input, Ok(()))
}

// `dock` gives the run as the first word and the file's name as the second, and waits for the word that every record agreed.
fn replay_file(rt: &impl System) -> Result<(), Stop> {
    let mut input = streams::opened(
        rt,
        2,
        "dock: the file cannot be opened, check its permissions",
    )?;
    let mut lines = Waiting::new();
    let mut replay = Replay::new(&mut lines);
    let opened = replay.open(rt);
    let ended = replay.run(rt, &mut input, opened);
    match ended {
        Ok(()) if replay.records.agree() => streams::report(rt, b"agrees\n"),
        Err(Stop::Refused(refused)) => say_line(rt, refused),
        _ => {}
    }
    ended
}

// The line `kat` or `mct` is line 1 and is in no file.
fn say_line(rt: &impl System, refused: Refused) {
    let line = refused.line.saturating_sub(1);
    let _ = eprintln!(rt;
        "dock: refusal 22 at line {line} of the file: it is outside the form, too long, or has a key or text of wrong size (docs/REPLAY.md)"
    );
}

fn main(rt: HostRuntime) {
    let ended = if streams::is_given(&rt, 2) {
        replay_file(&rt)
    } else {
        replay_input(&rt, &mut rt.stdin())
    };
    if ended == Err(Stop::NoRoom) {
        let _ = eprintln!(&rt; "dock: an answer of the replay has no room: report this");
    }
}
