// The running check: what is fed goes into the chain piece by piece, except the last piece, which is held until more comes.
#![tactic(auto)]

ghost use Rattle.std.specs.Prelude.{◌≡◌, ◌-◌, ◌/◌};
ghost use Rattle.aes_spec.specs.Cipher.{standard};
ghost use Rattle.cmac_run.specs.Running as running;

use aes_rounds::encrypt_block;
use aes_schedule::KeySchedule;
use cmac_chain::chained;
use cmac_subkeys::{Subkeys, piece_filled};
use octets_block::xor;

// The value of the chain, and the bytes that are not in it yet, of which there are up to 16.
#[repr(C)]
#[derive(Clone, Copy)]
pub struct Run {
    pub chain: [u8; 16],
    pub held: [u8; 16],
    pub count: usize,
}

impl Run {
    pub fn new() -> Run
        ensures { result ≡ running.begun }
    {
        Run {
            chain: [0; 16],
            held: [0; 16],
            count: 0,
        }
    }

    // A full piece goes into the chain only when another byte comes.
    pub fn fed(self, schedule: &KeySchedule, part: &[u8]) -> Run
        ensures { result ≡ running.fed (standard schedule.now.words schedule.now.rounds) self part.now }
    {
        // There is none if the count is past 16.
        let room = 16usize.saturating_sub(self.count);
        let piece = piece_filled(self.held, self.count, part);
        if part.len() <= room {
            Run {
                held: piece,
                count: 16 - room + part.len(),
                ..self
            }
        } else {
            let next = encrypt_block(schedule, xor(self.chain, piece));
            run_from(schedule, next, &part[room..])
        }
    }

    // The check of everything fed, with the subkeys lent: a caller that makes many checks makes the subkeys once.
    pub fn closed(self, schedule: &KeySchedule, subkeys: &Subkeys) -> [u8; 16]
        ensures { result ≡ running.closed_by (standard schedule.now.words schedule.now.rounds) subkeys.now.key1 subkeys.now.key2 self }
    {
        let end = subkeys.last(self.held, self.count);
        encrypt_block(schedule, xor(self.chain, end))
    }
}

// From a value of the chain, with nothing held.
fn run_from(schedule: &KeySchedule, chain: [u8; 16], part: &[u8]) -> Run
    ensures { result ≡ running.run_from (standard schedule.now.words schedule.now.rounds) chain part.now }
{
    // A full piece at the end is the last, so it stays out of the chain.
    let at = part.len().saturating_sub(1) / 16 * 16;
    let rest = &part[at..];
    Run {
        chain: chained(schedule, chain, &part[..at]),
        held: piece_filled([0; 16], 0, rest),
        count: rest.len(),
    }
}
