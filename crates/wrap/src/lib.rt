// The key wrap of RFC 3394 under AES: replacement keys, wrapped under a key that the receiver has.
#![tactic(auto)]

ghost use Rattle.std.specs.Prelude.{◌≡◌, ◌+◌, ◌%◌, ◌≤◌, length};
ghost use Rattle.std.proofs.Math.Seq.{paste};
ghost use Rattle.octets.specs.Octets.{pad_to, over};
ghost use Rattle.aes_spec.specs.Cipher.{standard};
ghost use Rattle.aes_spec.specs.Model.{one_way};
ghost use Rattle.wrap_spec.specs.Wrap.{wrapped, unwrapped};
ghost use Rattle.wrap.specs.Model.{opened_over};
ghost use Rattle.wrap.specs.Calls as spec;

use aes_schedule::KeySchedule;
use aes_schedule_inverse::invert;
use octets_slice::copy;
use wrap_answer::{INITIAL_VALUE, WrapAnswer, is_initial, judge_unwrap, judge_wrap};
use wrap_registers::{passes, unpasses};

// Wraps 16 to 64 bytes of key data, a multiple of 8; the result, 8 bytes more, goes into the first bytes of the output.
// A refused call leaves the output unchanged, and every call leaves the bytes past its result.
pub fn wrap(key: &[u8], data: &[u8], output: &mut [u8]) -> WrapAnswer
    ensures answer { result ≡ spec.wrap_answer key.now «data».now output.old }
    ensures written { output.new ≡ spec.wrap_output result key.now «data».now output.old }
{
    let mut schedule = KeySchedule::none();
    let answer = judge_wrap(schedule.expand(key), data.len(), output.len());
    if let WrapAnswer::WrapDone = answer {
        wrap_into(&schedule, data, output);
    }
    answer
}

// Unwraps 24 to 72 bytes, a multiple of 8, and hands out the key data, 8 bytes less, only if its check is right.
// A refused call leaves the output unchanged, and every call leaves the bytes past its result.
pub fn unwrap(key: &[u8], data: &[u8], output: &mut [u8]) -> WrapAnswer
    ensures answer { result ≡ spec.unwrap_answer key.now «data».now output.old }
    ensures written { output.new ≡ spec.unwrap_output result key.now «data».now output.old }
{
    let mut schedule = KeySchedule::none();
    match judge_unwrap(schedule.expand(key), data.len(), output.len()) {
        WrapAnswer::WrapDone => {
            invert(&mut schedule);
            unwrap_into(&schedule, data, output)
        }
        refused => refused,
    }
}

// Nothing is refused from here on, so the registers are in the output itself.
fn wrap_into(schedule: &KeySchedule, given: &[u8], output: &mut [u8])
    requires { (16 ≤ length given.now) × (length given.now ≤ 64) × (length given.now % 8 ≡ 0) × (length given.now + 8 ≤ length output.old) }
    ensures { output.new ≡ over (wrapped (standard schedule.now.words schedule.now.rounds) given.now) output.old }
{
    copy(&INITIAL_VALUE, output, 0);
    put_data(given, output);
    passes(schedule, &mut output[..given.len() + 8]);
}

// Puts key data behind the initial value. Byte by byte: between two slices that a caller lends, `copy_from_slice` is a call of `memmove`,
// and whoever links the archive for C gives it `memcpy` and `memset` alone.
fn put_data(given: &[u8], output: &mut [u8])
    requires { 8 + length given.now ≤ length output.old }
    ensures { output.new ≡ paste output.old 8 given.now (length given.now) }
{
    for k in 0..given.len() {
        output[8 + k] = given[k];
    }
}

// Works in memory of its own: nothing of a wrapped key whose check is wrong reaches the output.
fn unwrap_into(schedule: &KeySchedule, given: &[u8], output: &mut [u8]) -> WrapAnswer
    requires { (24 ≤ length given.now) × (length given.now ≤ 72) × (length given.now % 8 ≡ 0) × (length given.now ≤ length output.old + 8) }
    ensures answer { result ≡ spec.opening (one_way schedule.now.words schedule.now.rounds) given.now }
    ensures written { output.new ≡ opened_over (one_way schedule.now.words schedule.now.rounds) given.now output.old }
{
    let w = opened(schedule, given);
    if is_initial(&w) {
        copy(&w[8..given.len()], output, 0);
        WrapAnswer::WrapDone
    } else {
        WrapAnswer::WrongInitial
    }
}

// The registers at the end, then zeros.
fn opened(schedule: &KeySchedule, given: &[u8]) -> [u8; 72]
    requires { (24 ≤ length given.now) × (length given.now ≤ 72) × (length given.now % 8 ≡ 0) }
    ensures registers { result ≡ pad_to 72 (unwrapped (one_way schedule.now.words schedule.now.rounds) given.now) }
    ensures size { length (unwrapped (one_way schedule.now.words schedule.now.rounds) given.now) ≡ length given.now }
{
    let mut w = [0; 72];
    copy(given, &mut w, 0);
    unpasses(schedule, &mut w[..given.len()]);
    w
}
