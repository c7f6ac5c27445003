// The registers A, R[1] to R[n] of the key wrap, through the steps of RFC 3394, 2.2.1 and 2.2.2 in their index form, in place.
#![tactic(auto)]

mod halves;

ghost use Rattle.std.specs.Prelude.{◌≡◌, ◌+◌, ◌*◌, ◌≤◌, ◌<◌, length};
ghost use Rattle.aes_spec.specs.Cipher.{standard};
ghost use Rattle.aes_spec.specs.Model.{one_way};
ghost use Rattle.wrap_spec.specs.Wrap as spec;
ghost use Rattle.wrap_registers.specs.Model.{passed_over, unpassed_over};

use crate::halves::{counter_added, pair, put_back};
use aes_rounds::encrypt_block;
use aes_rounds_inverse::decrypt_block;
use aes_schedule::KeySchedule;
use wrap_answer::wrapped_size_fits;

// For j = 0 to 5. Registers of a size outside the rule stay as they are.
pub fn passes(schedule: &KeySchedule, w: &mut [u8])
    ensures { w.new ≡ passed_over (standard schedule.now.words schedule.now.rounds) w.old }
{
    if wrapped_size_fits(w.len()) {
        let n = w.len() / 8 - 1;
        for j in 0..6 {
            pass(schedule, n, j, w);
        }
    }
}

// For i = 1 to n, with t = n j + i.
fn pass(schedule: &KeySchedule, n: usize, j: usize, w: &mut [u8])
    requires { (length w.old ≡ 8 * n + 8) × (n ≤ 8) × (j < 6) }
    ensures { w.new ≡ spec.pass (standard schedule.now.words schedule.now.rounds) n j n w.old }
{
    for i in 1..=n {
        step(schedule, n * j + i, i, w);
    }
}

// B = AES(K, A | R[i]), then A = MSB(64, B) ^ t and R[i] = LSB(64, B).
fn step(schedule: &KeySchedule, t: usize, i: usize, w: &mut [u8])
    requires { (1 ≤ i) × (8 * i + 8 ≤ length w.old) × (t < 256) }
    ensures { w.new ≡ spec.step (standard schedule.now.words schedule.now.rounds) t i w.old }
{
    let made = encrypt_block(schedule, pair(w, i));
    put_back(w, i, counter_added(made, t));
}

// For j = 5 to 0. Registers of a size outside the rule stay as they are.
pub fn unpasses(schedule: &KeySchedule, w: &mut [u8])
    ensures { w.new ≡ unpassed_over (one_way schedule.now.words schedule.now.rounds) w.old }
{
    if wrapped_size_fits(w.len()) {
        let n = w.len() / 8 - 1;
        for j in (0..6).rev() {
            unpass(schedule, n, j, w);
        }
    }
}

// For i = n to 1, with t = n j + i.
fn unpass(schedule: &KeySchedule, n: usize, j: usize, w: &mut [u8])
    requires { (length w.old ≡ 8 * n + 8) × (n ≤ 8) × (j < 6) }
    ensures { w.new ≡ spec.unpass (one_way schedule.now.words schedule.now.rounds) n j n w.old }
{
    for i in (1..=n).rev() {
        unstep(schedule, n * j + i, i, w);
    }
}

// B = AES-1(K, (A ^ t) | R[i]), then A = MSB(64, B) and R[i] = LSB(64, B).
fn unstep(schedule: &KeySchedule, t: usize, i: usize, w: &mut [u8])
    requires { (1 ≤ i) × (8 * i + 8 ≤ length w.old) × (t < 256) }
    ensures { w.new ≡ spec.unstep (one_way schedule.now.words schedule.now.rounds) t i w.old }
{
    let given = counter_added(pair(w, i), t);
    let made = decrypt_block(schedule, given);
    put_back(w, i, made);
}
