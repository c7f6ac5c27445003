// The lines of the check: `check KEY MESSAGE`, `check-start KEY`, `check-feed PART` and `check-close`.
use crate::answers::Answers;
use crate::words::Words;
use cmac::Record;

// `N CHECK`
pub fn whole(words: &mut Words, answers: &mut Answers) -> Option<()> {
    let key = words.bytes()?;
    let message = words.bytes()?;
    words.end()?;
    let checked = cmac::check(key, message);
    answers.begin(checked.answer.number());
    answers.bytes(&checked.check);
    Some(())
}

// `N`
pub fn start(words: &mut Words, answers: &mut Answers, record: &mut Record) -> Option<()> {
    let key = words.bytes()?;
    words.end()?;
    let started = cmac::start(key);
    *record = started.record;
    answers.begin(started.answer.number());
    Some(())
}

// `0`
pub fn feed(words: &mut Words, answers: &mut Answers, record: &mut Record) -> Option<()> {
    let part = words.bytes()?;
    words.end()?;
    *record = cmac::fed_with(*record, part);
    answers.begin(0);
    Some(())
}

// `0 CHECK`
pub fn close(words: &mut Words, answers: &mut Answers, record: Record) -> Option<()> {
    words.end()?;
    answers.begin(0);
    answers.bytes(&cmac::close(record));
    Some(())
}
