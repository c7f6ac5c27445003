// The lines of CCM, `ccm-seal KEY NONCE AD MESSAGE OUT` and `ccm-open KEY NONCE AD SEALED OUT`.
use crate::answers::Answers;
use crate::words::Words;
use ccm_answer::CcmAnswer;

// `N OUT`
pub fn answer<C>(words: &mut Words, answers: &mut Answers, call: C) -> Option<()>
where
    C: FnOnce(&[u8], &[u8], &[u8], &[u8], &mut [u8]) -> CcmAnswer,
    requires { C.IsAlwaysCallable call }
{
    let key = words.bytes()?;
    let nonce = words.bytes()?;
    let ad = words.bytes()?;
    let input = words.bytes()?;
    let output = words.output()?;
    words.end()?;
    answers.begin(call(key, nonce, ad, input, output).number());
    answers.bytes(output);
    Some(())
}
