// The lines of the modes over blocks of 24 and of 32 bytes, `wide24-MODE-WAY KEY IV IN OUT` and so with 32.
use crate::answers::Answers;
use crate::words::Words;
use modes_answer::ModeAnswer;
use rijndael_spec::WideOperation;

pub fn answer_24(words: &mut Words, answers: &mut Answers, operation: WideOperation) -> Option<()> {
    let key = words.bytes()?;
    let iv = words.bytes()?;
    let input = words.bytes()?;
    let output = words.output()?;
    words.end()?;
    let applied = rijndael::apply_24(operation, key, iv, input, output);
    put(operation, applied.answer, &applied.next, output, answers);
    Some(())
}

pub fn answer_32(words: &mut Words, answers: &mut Answers, operation: WideOperation) -> Option<()> {
    let key = words.bytes()?;
    let iv = words.bytes()?;
    let input = words.bytes()?;
    let output = words.output()?;
    words.end()?;
    let applied = rijndael::apply_32(operation, key, iv, input, output);
    put(operation, applied.answer, &applied.next, output, answers);
    Some(())
}

// ECB answers `N OUT`, CBC hands on a chaining value and answers `N NEXT OUT`.
fn put(
    operation: WideOperation,
    answer: ModeAnswer,
    next: &[u8],
    output: &[u8],
    answers: &mut Answers,
) {
    answers.begin(answer.number());
    if matches!(
        operation,
        WideOperation::EncryptCbc | WideOperation::DecryptCbc
    ) {
        answers.bytes(next);
    }
    answers.bytes(output);
}
