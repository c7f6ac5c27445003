// The inverse schedule, FIPS 197, 5.3.5: the round keys are mixed back, so that lookups can mix the state before a key is added.
#![tactic(auto)]

ghost use Rattle.std.specs.Prelude.{◌≡◌};
ghost use Rattle.aes_spec.specs.Model.{mixed_back, inverse_schedule};

use aes_mix::inv_mix_column;
use aes_schedule::{KeySchedule, RoundKeyNumber};

// Replaces the forward schedule; that stays if no key gives so many rounds.
pub fn invert(schedule: &mut KeySchedule)
    ensures { schedule.new ≡ inverse_schedule schedule.old }
{
    if schedule.is_usable() {
        let first = RoundKeyNumber(1).first_word();
        let end = RoundKeyNumber(schedule.rounds).first_word();
        mix_back(&mut schedule.words, first.0, end.0);
    }
}

// The same into memory of the caller: as a result it would be copied to the stack a second time.
pub fn inverse_into(schedule: &KeySchedule, back: &mut KeySchedule)
    ensures { back.new ≡ inverse_schedule schedule.now }
{
    *back = *schedule;
    invert(back);
}

// The words of a slice from a place up to another mixed back, as far as there are any.
pub fn mix_back(words: &mut [u32], from: usize, end: usize)
    ensures { words.new ≡ mixed_back from end words.old }
{
    for i in from..end.min(words.len()) {
        words[i] = inv_mix_column(words[i]);
    }
}
