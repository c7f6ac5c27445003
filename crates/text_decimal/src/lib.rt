// Words of decimal digits read as numbers.
#![tactic(auto)]

ghost use Rattle.std.specs.Prelude.{◌≡◌};
ghost use Rattle.text_decimal.specs.Numbers.{more_of, number_of};

// The decimal number of a word, if it is at most `most`.
#[tactic(auto, using(crate::proofs::NumberLaws::numbers), unfolding(crate::specs::Numbers::number_of))]
pub fn decimal(word: &[u8], most: u64) -> Option<u64>
    ensures { result ≡ number_of word.now most }
{
    if word.is_empty() {
        return None;
    }
    let mut value = 0;
    for d in word {
        value = more(value, *d, most)?;
    }
    Some(value)
}

// A number with one more decimal digit, if it is a digit and the number is at most `most`.
#[tactic(auto, unfolding(crate::specs::Numbers::more_of, crate::specs::Numbers::is_decimal))]
fn more(value: u64, d: u8, most: u64) -> Option<u64>
    ensures { result ≡ more_of value d most }
{
    let b'0'..=b'9' = d else {
        return None;
    };
    value
        .checked_mul(10)?
        .checked_add(u64::from(d - b'0'))
        .filter(|n| *n <= most)
}
