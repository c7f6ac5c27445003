// The lines of the modes, `MODE-WAY KEY IV IN OUT` and `ofb KEY IV IN OUT`.
use crate::answers::Answers;
use crate::words::Words;
use modes_spec::Operation;

// ECB answers `N OUT`, the others hand on a chaining value and answer `N NEXT OUT`.
pub fn answer(words: &mut Words, answers: &mut Answers, operation: Operation) -> Option<()> {
    let key = words.bytes()?;
    let iv = words.bytes()?;
    let input = words.bytes()?;
    let output = words.output()?;
    words.end()?;
    let applied = modes::apply(operation, key, iv, input, output);
    answers.begin(applied.answer.number());
    if !matches!(operation, Operation::EcbEncrypt | Operation::EcbDecrypt) {
        answers.bytes(&applied.next);
    }
    answers.bytes(output);
    Some(())
}
