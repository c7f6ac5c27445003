// What comes before the message: B0, and the associated data with its length before it.
ghost use Rattle.std.specs.Prelude.{◌≡◌, ◌++◌, ◌+◌, ◌≤◌, length, eqb};
ghost use Rattle.octets.specs.Octets.{pad_to};
ghost use Rattle.aes_spec.specs.Cipher.{standard};
ghost use Rattle.ccm_spec.specs.Ccm.{half, first_flags};
ghost use Rattle.ccm_chain.specs.Model as model;

use aes_schedule::KeySchedule;
use ccm_stream::flagged;
use cmac_chain::chained;

// The chain after B0 and the associated data, of a message of this length.
pub fn begun(schedule: &KeySchedule, nonce: [u8; 13], ad: &[u8], len: usize) -> [u8; 16]
    requires { length ad.now ≤ 64 }
    ensures { result ≡ model.begun (standard schedule.now.words schedule.now.rounds) nonce ad.now len }
{
    let first = flagged(first_flags(ad.len()), nonce, len);
    let start = chained(schedule, [0; 16], &first);
    if ad.is_empty() {
        start
    } else {
        let data = encoded(ad);
        let end = (ad.len() + 2).next_multiple_of(16);
        chained(schedule, start, &data[..end])
    }
}

// The flags of B0: 64 where there is associated data, 8 (t - 2) / 2 and q - 1.
fn first_flags(ad: usize) -> u8
    ensures { result ≡ first_flags (eqb ad 0) }
{
    if ad == 0 { 0x19 } else { 0x59 }
}

// The length of the associated data in two bytes, the data, then zeros.
fn encoded(ad: &[u8]) -> [u8; 80]
    requires { length ad.now ≤ 64 }
    ensures { result ≡ pad_to 80 (half (length ad.now) ++ ad.now) }
{
    let mut data = [0; 80];
    data[..2].copy_from_slice(&(ad.len() as u16).to_be_bytes());
    data[2..ad.len() + 2].copy_from_slice(ad);
    data
}
