// The thousand steps of a record, under a schedule that is lent.
ghost use Rattle.std.specs.Prelude.{◌≡◌};
ghost use Rattle.aes_spec.specs.Model.{one_way};
ghost use Rattle.modes_spec.specs.Modes.{machine};
ghost use Rattle.aesavs_monte.specs.Chain.{turn_of, begun, iterate};

use crate::Turn;
use aes_schedule::KeySchedule;
use modes_spec::Operation;
use modes_step::step;

pub fn thousand(
    schedule: &KeySchedule,
    operation: Operation,
    chained: bool,
    iv: [u8; 16],
    text: [u8; 16],
) -> Turn
    ensures { result ≡ iterate 1000 (turn_of (machine (one_way schedule.now.words schedule.now.rounds) operation) chained) (begun iv text) }
{
    let mut t = Turn {
        chain: iv,
        before: iv,
        last: iv,
        text,
    };
    for j in 0..1000usize {
        let u = one(schedule, operation, chained, t);
        t = u;
    }
    t
}

// The input of the next step is the output of this one in ECB, of the one before in CBC.
fn one(schedule: &KeySchedule, operation: Operation, chained: bool, t: Turn) -> Turn
    ensures { result ≡ turn_of (machine (one_way schedule.now.words schedule.now.rounds) operation) chained t }
{
    let s = step(schedule, operation, t.chain, t.text);
    let chain = s.next;
    let before = t.last;
    let last = s.out;
    let text = if chained { before } else { last };
    Turn {
        chain,
        before,
        last,
        text,
    }
}
