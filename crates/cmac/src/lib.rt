// CMAC of SP 800-38B under AES: the check of a whole message, or running over its parts.
#![tactic(auto)]

ghost use Rattle.std.specs.Prelude.{◌≡◌};
ghost use Rattle.aes_spec.specs.Cipher.{standard};
ghost use Rattle.cmac_spec.specs.Cmac as spec;
ghost use Rattle.cmac_run.specs.Running as running;
ghost use Rattle.cmac.specs.Calls as calls;

use aes_schedule::{KeyAnswer, KeySchedule};
use cmac_run::Run;
use cmac_subkeys::Subkeys;

// The answer for the key, and the check: zeros if the key was refused.
#[derive(Clone, Copy)]
pub struct Checked {
    pub answer: KeyAnswer,
    pub check: [u8; 16],
}

// A running check: the schedule of its key, and what was fed under it.
#[repr(C)]
#[derive(Clone, Copy)]
pub struct Record {
    pub schedule: KeySchedule,
    pub run: Run,
}

// The answer for the key, and the record: zeros if the key was refused.
#[derive(Clone, Copy)]
pub struct Started {
    pub answer: KeyAnswer,
    pub record: Record,
}

pub fn check(key: &[u8], message: &[u8]) -> Checked
    ensures { result ≡ calls.check_of key.now message.now }
{
    let made = KeySchedule::new(key);
    let check = check_with(&made.schedule, message);
    Checked {
        answer: made.answer,
        check,
    }
}

pub fn start(key: &[u8]) -> Started
    ensures { result ≡ calls.start_of key.now }
{
    let mut schedule = KeySchedule::none();
    let answer = schedule.expand(key);
    let record = Record {
        schedule,
        run: Run::new(),
    };
    Started { answer, record }
}

// The record after one more part.
pub fn fed_with(mut record: Record, part: &[u8]) -> Record
    ensures { result ≡ calls.fed_with «record» part.now }
{
    let run = record.run.fed(&record.schedule, part);
    record.run = run;
    record
}

// The check of everything fed so far. The record does not change and can be fed more.
pub fn close(record: Record) -> [u8; 16]
    ensures { result ≡ calls.close_of «record» }
{
    close_run(&record.schedule, record.run)
}

// The check under a lent schedule, for callers that make many checks.
pub fn check_with(schedule: &KeySchedule, message: &[u8]) -> [u8; 16]
    ensures { result ≡ spec.cmac (standard schedule.now.words schedule.now.rounds) message.now }
{
    let run = Run::new().fed(schedule, message);
    close_run(schedule, run)
}

// The check of a run, with the subkeys made for it.
fn close_run(schedule: &KeySchedule, run: Run) -> [u8; 16]
    ensures { result ≡ running.closed (standard schedule.now.words schedule.now.rounds) run }
{
    run.closed(schedule, &Subkeys::new(schedule))
}
