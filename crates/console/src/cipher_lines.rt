// The lines of the field, the key schedule and one block: `product A B`, `schedule KEY`, `encrypt KEY BLOCK` and
// `decrypt KEY BLOCK`.
use crate::answers::Answers;
use crate::words::Words;
use aes::Ciphered;
use aes_schedule::KeySchedule;

// `0 PRODUCT`
pub fn product(words: &mut Words, answers: &mut Answers) -> Option<()> {
    let [a]: [u8; 1] = words.array()?;
    let [b]: [u8; 1] = words.array()?;
    words.end()?;
    answers.begin(0);
    answers.bytes(&[field::product(a, b)]);
    Some(())
}

// `N WORDS`
pub fn schedule(words: &mut Words, answers: &mut Answers) -> Option<()> {
    let key = words.bytes()?;
    words.end()?;
    let expanded = KeySchedule::new(key);
    answers.begin(expanded.answer.number());
    answers.words(&expanded.schedule.words);
    Some(())
}

// `N BLOCK`
pub fn block<C>(words: &mut Words, answers: &mut Answers, cipher: C) -> Option<()>
where
    C: FnOnce(&[u8], [u8; 16]) -> Ciphered,
    requires { C.IsAlwaysCallable cipher }
{
    let key = words.bytes()?;
    let block = words.array()?;
    words.end()?;
    let ciphered = cipher(key, block);
    answers.begin(ciphered.answer.number());
    answers.bytes(&ciphered.block);
    Some(())
}
