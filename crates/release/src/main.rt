// Seals a file into a release image, or opens, checks, lists or shows an image. `dock` starts it with the words VERB KEYS INPUT and then
// those of the verb: the temporary file that an output is written to, RELEASE and EDITION, PLACE, the form. The last line that it writes
// is its answer; where it prints rows, its answer is a word on descriptor 3.
#![tactic(auto)]

mod alone;
mod card;
mod clock;
mod failure;
mod form;
mod heads;
mod input;
mod keep;
mod lent;
mod line;
mod listing;
mod output;
mod reading;
mod rows;
mod sealing;
mod showing;
mod system;

use failure::Failure;
use std::env::Env;
use streams::Told;
use system::System;

const VERB: usize = 1;

#[derive(Clone, Copy, Debug, PartialEq, Eq)]
enum Verb {
    Seal,
    Open,
    Check,
    List,
    Show,
}

impl Verb {
    fn given(rt: &impl Env) -> Option<Verb> {
        let mut room = [0u8; 8];
        let n = rt.arg(VERB, &mut room).ok()?;
        match &room[..n] {
            b"seal" => Some(Verb::Seal),
            b"open" => Some(Verb::Open),
            b"check" => Some(Verb::Check),
            b"list" => Some(Verb::List),
            b"show" => Some(Verb::Show),
            _ => None,
        }
    }
}

fn run(rt: &impl System) -> Result<(), Told> {
    match Verb::given(rt) {
        Some(Verb::Seal) => sealing::seal_file(rt),
        Some(Verb::Open) => reading::open_image(rt),
        Some(Verb::Check) => reading::check_image(rt),
        Some(Verb::List) => listing::list_image(rt),
        Some(Verb::Show) => showing::show_image(rt),
        None => Err(Failure::Verb.tell(rt)),
    }
}

// What went wrong has been told, so there is nothing left to do.
fn main(rt: HostRuntime) {
    let _ = run(&rt);
}
