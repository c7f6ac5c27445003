// CCM of SP 800-38C under AES, for berth messages: a nonce of 13 bytes, a tag of 8, up to 1,024 bytes of message and 64 of associated data.
#![tactic(auto)]

ghost use Rattle.std.specs.Prelude.{◌≡◌, ◌+◌, ◌≤◌, length};
ghost use Rattle.aes_spec.specs.Cipher.{standard};
ghost use Rattle.ccm.specs.Model as model;
ghost use Rattle.ccm.specs.Calls as spec;

use aes_rounds::encrypt_block;
use aes_schedule::KeySchedule;
use ccm_answer::{CcmAnswer, judge_open, judge_seal, same_tag};
use ccm_chain::{mac, opened_mac};
use ccm_stream::{flagged, leading_sum, stream};
use octets_block::xor;
use octets_slice::copy;

// Seals a message: the ciphertext and then the tag, 8 bytes more, go into the first bytes of the output.
// A refused call leaves the output unchanged, and every call leaves the bytes past its result.
pub fn seal(key: &[u8], nonce: &[u8], ad: &[u8], message: &[u8], output: &mut [u8]) -> CcmAnswer
    ensures answer { result ≡ spec.seal_answer key.now nonce.now ad.now message.now output.old }
    ensures written { output.new ≡ spec.seal_output result key.now nonce.now ad.now message.now output.old }
{
    let mut schedule = KeySchedule::none();
    let taken = schedule.expand(key);
    let answer = judge_seal(taken, nonce.len(), ad.len(), message.len(), output.len());
    if let CcmAnswer::CcmDone = answer {
        seal_into(&schedule, nonce, ad, message, output);
    }
    answer
}

// Opens a sealed message, 8 bytes less, only if its tag is right.
// A refused call leaves the output unchanged, and every call leaves the bytes past its result.
pub fn open(key: &[u8], nonce: &[u8], ad: &[u8], sealed: &[u8], output: &mut [u8]) -> CcmAnswer
    ensures answer { result ≡ spec.open_answer key.now nonce.now ad.now sealed.now output.old }
    ensures written { output.new ≡ spec.open_output result key.now nonce.now ad.now sealed.now output.old }
{
    let mut schedule = KeySchedule::none();
    let taken = schedule.expand(key);
    match judge_open(taken, nonce.len(), ad.len(), sealed.len(), output.len()) {
        CcmAnswer::CcmDone => open_into(&schedule, nonce, ad, sealed, output),
        refused => refused,
    }
}

// Nothing is refused from here on.
fn seal_into(schedule: &KeySchedule, nonce: &[u8], ad: &[u8], message: &[u8], output: &mut [u8])
    requires { (length nonce.now ≡ 13) × (length ad.now ≤ 64) × (length message.now + 8 ≤ length output.old) }
    ensures { output.new ≡ model.sealed_over (standard schedule.now.words schedule.now.rounds) nonce.now ad.now message.now output.old }
{
    let n = thirteen(nonce);
    let ctr = flagged(1, n, 0);
    let tag = xor(mac(schedule, n, ad, message), encrypt_block(schedule, ctr));
    stream(schedule, ctr, message, output);
    copy(&tag[..8], output, message.len());
}

// Nothing is written before the tag is known to be right: the code passes over the ciphertext twice and keeps the message nowhere else.
fn open_into(
    schedule: &KeySchedule,
    nonce: &[u8],
    ad: &[u8],
    sealed: &[u8],
    output: &mut [u8],
) -> CcmAnswer
    requires { (length nonce.now ≡ 13) × (length ad.now ≤ 64) × (8 ≤ length sealed.now) × (length sealed.now ≤ length output.old + 8) }
    ensures answer { result ≡ model.verdict (standard schedule.now.words schedule.now.rounds) nonce.now ad.now sealed.now }
    ensures written { output.new ≡ model.opened_over (standard schedule.now.words schedule.now.rounds) nonce.now ad.now sealed.now output.old }
{
    let n = thirteen(nonce);
    let len = sealed.len() - 8;
    let made = opened_mac(schedule, n, ad, &sealed[..len]);
    let ctr = flagged(1, n, 0);
    let found = leading_sum(sealed, len, encrypt_block(schedule, ctr));
    if same_tag(made, found) {
        stream(schedule, ctr, &sealed[..len], output);
        CcmAnswer::CcmDone
    } else {
        CcmAnswer::WrongTag
    }
}

// The nonce by value.
fn thirteen(nonce: &[u8]) -> [u8; 13]
    requires { length nonce.now ≡ 13 }
    ensures { result ≡ nonce.now }
{
    let mut n = [0; 13];
    n.copy_from_slice(nonce);
    n
}
