// The lines of the bench model for apprentices, `saes-encrypt KEY BLOCK` and `saes-decrypt KEY BLOCK`.
use crate::answers::Answers;
use crate::words::Words;
use saes_spec::States;

// `0 STATE STATE STATE`
pub fn answer<C>(words: &mut Words, answers: &mut Answers, cipher: C) -> Option<()>
where
    C: FnOnce(u16, u16) -> States,
    requires { C.IsAlwaysCallable cipher }
{
    let key = u16::from_be_bytes(words.array()?);
    let block = u16::from_be_bytes(words.array()?);
    words.end()?;
    let states = cipher(key, block);
    answers.begin(0);
    answers.bytes(&states.first.to_be_bytes());
    answers.bytes(&states.second.to_be_bytes());
    answers.bytes(&states.third.to_be_bytes());
    Some(())
}
