// The lines of the key wrap, `wrap KEY DATA OUT` and `unwrap KEY DATA OUT`.
use crate::answers::Answers;
use crate::words::Words;
use wrap_answer::WrapAnswer;

// `N OUT`
pub fn answer<C>(words: &mut Words, answers: &mut Answers, call: C) -> Option<()>
where
    C: FnOnce(&[u8], &[u8], &mut [u8]) -> WrapAnswer,
    requires { C.IsAlwaysCallable call }
{
    let key = words.bytes()?;
    let input = words.bytes()?;
    let output = words.output()?;
    words.end()?;
    answers.begin(call(key, input, output).number());
    answers.bytes(output);
    Some(())
}
