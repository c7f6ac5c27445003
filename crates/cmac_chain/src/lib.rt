// The chain of SP 800-38B, 6.2, over the whole pieces of a part: the check and the tag of CCM go through it.
#![tactic(auto)]

ghost use Rattle.std.specs.Prelude.{◌≡◌, ◌/◌, length};
ghost use Rattle.aes_spec.specs.Cipher.{standard};
ghost use Rattle.cmac_spec.specs.Cmac as spec;

use aes_rounds::absorb;
use aes_schedule::KeySchedule;

// The value of the chain after every whole piece of the part; bytes after them are not used.
pub fn chained(schedule: &KeySchedule, chain: [u8; 16], part: &[u8]) -> [u8; 16]
    ensures { result ≡ spec.chained (standard schedule.now.words schedule.now.rounds) chain (length part.now / 16) part.now }
{
    let mut value = chain;
    for i in 0..part.len() / 16 {
        absorb(schedule, &mut value, part, i * 16);
    }
    value
}
