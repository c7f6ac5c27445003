// The Monte Carlo chain of AESAVS, 6.4.1 and 6.4.2: a thousand steps a record, and what the next record starts from.
#![tactic(auto)]

mod keys;
mod steps;

ghost use Rattle.std.specs.Prelude.{◌≡◌};
ghost use Rattle.aesavs_monte.specs.Chain as spec;

use aes_schedule::KeySchedule;
use aesavs_line::Way;
use keys::{next_key, schedule_for};
use modes_spec::Operation;
use octets_block::load;
use octets_slice::{copy, part};
use steps::thousand;

// How far the thousand steps have come: the chaining value, the last two outputs, the IV before there are any, and the input of the next step.
#[derive(Clone, Copy)]
pub struct Turn {
    pub chain: [u8; 16],
    pub before: [u8; 16],
    pub last: [u8; 16],
    pub text: [u8; 16],
}

// What a record starts from: a key of `size` bytes, the IV, zeros in ECB, and the first text.
#[derive(Clone, Copy)]
pub struct Link {
    pub key: [u8; 32],
    pub size: usize,
    pub iv: [u8; 16],
    pub text: [u8; 16],
}

// The output of a record, and what the next one starts from.
#[derive(Clone, Copy)]
pub struct Ran {
    pub output: [u8; 16],
    pub next: Link,
}

// The operation of a record: with an IV it is CBC, without ECB.
pub fn operation_of(way: Way, chained: bool) -> Operation
    ensures { result ≡ spec.operation_of way chained }
{
    match (way, chained) {
        (Way::Encrypting, true) => Operation::CbcEncrypt,
        (Way::Encrypting, false) => Operation::EcbEncrypt,
        (Way::Decrypting, true) => Operation::CbcDecrypt,
        (Way::Decrypting, false) => Operation::EcbDecrypt,
    }
}

// What a record with these fields starts from; a key that is too long gives no key.
pub fn link_of(key: &[u8], iv: &[u8], text: &[u8]) -> Link
    ensures { result ≡ spec.link_of key.now iv.now text.now }
{
    let mut bytes = [0u8; 32];
    copy(key, &mut bytes, 0);
    let start = load(iv, 0);
    let first = load(text, 0);
    Link {
        key: bytes,
        size: key.len(),
        iv: start,
        text: first,
    }
}

// One record of the chain.
pub fn run(way: Way, chained: bool, link: Link) -> Ran
    ensures { result ≡ spec.ran_of way chained link }
{
    let t = record_steps(
        way,
        chained,
        part(&link.key, 0, link.size),
        link.iv,
        link.text,
    );
    let output = t.last;
    Ran {
        output,
        next: next_link(chained, link, t),
    }
}

// The thousand steps of a record.
fn record_steps(way: Way, chained: bool, key: &[u8], iv: [u8; 16], text: [u8; 16]) -> Turn
    ensures { result ≡ spec.turns way chained key.now iv text 1000 }
{
    let mut schedule = KeySchedule::none();
    schedule_for(way, key, &mut schedule);
    let operation = operation_of(way, chained);
    thousand(&schedule, operation, chained, iv, text)
}

// What the record after one starts from.
fn next_link(chained: bool, link: Link, t: Turn) -> Link
    ensures { result ≡ spec.next_link chained link t }
{
    let before = t.before;
    let last = t.last;
    let iv = link.iv;
    let size = link.size;
    let key = next_key(link.key, size, before, last);
    if chained {
        Link {
            key,
            size,
            iv: last,
            text: before,
        }
    } else {
        Link {
            key,
            size,
            iv,
            text: last,
        }
    }
}
