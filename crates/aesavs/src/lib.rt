// A record of a response file replayed: which of its fields differs from what is computed.
#![tactic(auto)]

ghost use Rattle.std.specs.Prelude.{◌≡◌, not, ◌||◌};
ghost use Rattle.octets.specs.Octets.{same};
ghost use Rattle.aesavs.specs.Replay as spec;

use aesavs_line::{Field, Way};
use aesavs_monte::{Link, operation_of, run};
use modes::apply;
use modes_answer::ModeAnswer;
use octets_slice::{equal, part};

// The answer to a Monte Carlo record, its first field that differs, and what the next one must start from.
#[derive(Clone, Copy)]
pub struct Replayed {
    pub verdict: Option<Field>,
    pub next: Link,
}

// A known answer: only the second text is computed and compared. The output has room for it.
#[tactic(auto, unfolding(crate::specs::Replay::known_answer, crate::specs::Replay::computed))]
pub fn known_answer(
    way: Way,
    chained: bool,
    key: &[u8],
    iv: &[u8],
    first: &[u8],
    second: &[u8],
    output: &mut [u8],
) -> Option<Field>
    ensures answer { result ≡ spec.known_answer way chained key.now iv.now first.now second.now output.old }
    ensures written { output.new ≡ spec.computed way chained key.now iv.now first.now output.old }
{
    let made = apply(operation_of(way, chained), key, iv, first, output);
    match made.answer {
        ModeAnswer::Done => second_verdict(way, part(output, 0, first.len()), second),
        _ => Some(second_field(way)),
    }
}

// A Monte Carlo record: the first of a section starts the chain, every other must start where the one before ended.
#[tactic(auto, unfolding(crate::specs::Replay::monte_carlo))]
pub fn monte_carlo(
    way: Way,
    chained: bool,
    fresh: bool,
    own: Link,
    given: Link,
    second: [u8; 16],
) -> Replayed
    ensures { result ≡ spec.monte_carlo way chained fresh own given second }
{
    if fresh {
        return from_link(way, chained, None, given, second);
    }
    let found = start_verdict(way, chained, own, given);
    from_link(way, chained, found, own, second)
}

// Whether a record starts from what is computed: its key, its IV and its first text, in this order. ECB has no IV to compare.
#[tactic(auto, unfolding(crate::specs::Replay::start_verdict))]
fn start_verdict(way: Way, chained: bool, own: Link, given: Link) -> Option<Field>
    ensures { result ≡ spec.start_verdict way chained own given }
{
    if !same_key(own, given) {
        Some(Field::Key)
    } else if chained && !equal(&own.iv, &given.iv) {
        Some(Field::Iv)
    } else if !equal(&own.text, &given.text) {
        Some(first_field(way))
    } else {
        None
    }
}

fn same_key(own: Link, given: Link) -> bool
    ensures { result ≡ same (spec.key_of own) (spec.key_of given) }
{
    equal(part(&own.key, 0, own.size), part(&given.key, 0, given.size))
}

// The record from this link on; what was found of its start goes before its second text.
#[tactic(auto, unfolding(crate::specs::Replay::from_link))]
fn from_link(
    way: Way,
    chained: bool,
    found: Option<Field>,
    link: Link,
    second: [u8; 16],
) -> Replayed
    ensures { result ≡ spec.from_link way chained found link second }
{
    let ran = run(way, chained, link);
    Replayed {
        verdict: found.or(second_verdict(way, &ran.output, &second)),
        next: ran.next,
    }
}

#[tactic(auto, unfolding(crate::specs::Replay::second_verdict))]
fn second_verdict(way: Way, output: &[u8], second: &[u8]) -> Option<Field>
    ensures { result ≡ spec.second_verdict way output.now second.now }
{
    if equal(output, second) {
        return None;
    }
    Some(second_field(way))
}

fn first_field(way: Way) -> Field
    ensures { result ≡ spec.first_field way }
{
    match way {
        Way::Encrypting => Field::Plaintext,
        Way::Decrypting => Field::Ciphertext,
    }
}

fn second_field(way: Way) -> Field
    ensures { result ≡ spec.second_field way }
{
    match way {
        Way::Encrypting => Field::Ciphertext,
        Way::Decrypting => Field::Plaintext,
    }
}
