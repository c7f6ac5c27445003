// The answer to a call of CCM: the lengths of the profile, the room, and the tag at the end.
#![tactic(auto)]

ghost use Rattle.std.specs.Prelude.{◌≡◌, ◌+◌, ◌-◌, ◌≤◌, take};
ghost use Rattle.octets.specs.Octets.{same};
ghost use Rattle.aes_schedule.specs.Schedule.{key_number};
ghost use Rattle.ccm_answer.specs.declared.CcmAnswer.TheVariants.{CcmDone};
ghost use Rattle.ccm_answer.specs.Answers.{ccm_number, in_profile, sealed_in_profile, ccm_ruled};

use aes_schedule::KeyAnswer;
use octets_slice::equal;

// The case of the call, or why it was refused.
#[derive(Clone, Copy)]
pub enum CcmAnswer {
    CcmDone,
    CcmKey,
    CcmSize,
    CcmRoom,
    WrongTag,
}

impl CcmAnswer {
    pub fn number(self) -> u32
        ensures { result ≡ ccm_number self }
    {
        match self {
            CcmAnswer::CcmDone => 0,
            CcmAnswer::CcmKey => 1,
            CcmAnswer::CcmRoom => 4,
            CcmAnswer::CcmSize => 23,
            CcmAnswer::WrongTag => 24,
        }
    }
}

// The answer of sealing, from that for the key and the lengths of nonce, associated data, message and output.
pub fn judge_seal(key: KeyAnswer, nonce: usize, ad: usize, len: usize, room: usize) -> CcmAnswer
    ensures { result ≡ ccm_ruled (key_number key) (in_profile nonce ad len) (len + 8) room CcmDone }
{
    judge(key, in_profile(nonce, ad, len), len.saturating_add(8), room)
}

// The answer of opening, except for what only the tag can tell.
pub fn judge_open(key: KeyAnswer, nonce: usize, ad: usize, len: usize, room: usize) -> CcmAnswer
    ensures { result ≡ ccm_ruled (key_number key) (sealed_in_profile nonce ad len) (len - 8) room CcmDone }
{
    judge(
        key,
        sealed_in_profile(nonce, ad, len),
        len.saturating_sub(8),
        room,
    )
}

// The tests of both calls in their order: the key, the lengths, the room for what is made of the message.
#[tactic(auto, unfolding(crate::specs::Answers::ccm_ruled))]
fn judge(key: KeyAnswer, sizes_fit: bool, needed: usize, room: usize) -> CcmAnswer
    ensures { result ≡ ccm_ruled (key_number key) sizes_fit needed room CcmDone }
{
    if !matches!(key, KeyAnswer::Taken) {
        CcmAnswer::CcmKey
    } else if !sizes_fit {
        CcmAnswer::CcmSize
    } else if room < needed {
        CcmAnswer::CcmRoom
    } else {
        CcmAnswer::CcmDone
    }
}

// Whether two blocks agree in their first eight bytes. All eight are compared, wherever they differ.
pub fn same_tag(a: [u8; 16], b: [u8; 16]) -> bool
    ensures { result ≡ same (take 8 a) (take 8 b) }
{
    equal(&a[..8], &b[..8])
}

// Whether nonce, associated data and message may have these lengths.
fn in_profile(nonce: usize, ad: usize, len: usize) -> bool
    ensures { result ≡ in_profile nonce ad len }
{
    nonce == 13 && ad <= 64 && len <= 1024
}

// The same for a sealed message, which ends in a tag.
fn sealed_in_profile(nonce: usize, ad: usize, len: usize) -> bool
    ensures { result ≡ sealed_in_profile nonce ad len }
{
    len >= 8 && in_profile(nonce, ad, len - 8)
}
