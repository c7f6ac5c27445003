// The lines of a receiver: `receive-start EKEY CKEY COUNT RELEASE STORE MAP`, `receive BLOCK STORE MAP` and `receive-complete`.
use crate::answers::Answers;
use crate::words::Words;
use image_receiver::Receiver;

// `N STORE MAP`. A start only reads the store.
pub fn start(words: &mut Words, answers: &mut Answers, receiver: &mut Receiver) -> Option<()> {
    let ekey = words.bytes()?;
    let ckey = words.bytes()?;
    let count = words.number()?;
    let release = words.number()?;
    let store = words.bytes()?;
    let map = words.output()?;
    words.end()?;
    let started = image_receiver::receive_start(ekey, ckey, count, release, store, map);
    *receiver = started.receiver;
    answers.begin(started.answer.number());
    answers.bytes(store);
    answers.bytes(map);
    Some(())
}

// `N VALUE HELD STORE MAP`
pub fn receive(words: &mut Words, answers: &mut Answers, receiver: &mut Receiver) -> Option<()> {
    let block = words.bytes()?;
    let store = words.output()?;
    let map = words.output()?;
    words.end()?;
    let done = image_receiver::receive(*receiver, block, store, map);
    *receiver = done.receiver;
    answers.begin(done.answer.number());
    answers.number_or_dash(done.answer.value().map(u64::from));
    answers.number(done.receiver.receipt.held.into());
    answers.bytes(store);
    answers.bytes(map);
    Some(())
}

// `N`
pub fn complete(words: &mut Words, answers: &mut Answers, receiver: Receiver) -> Option<()> {
    words.end()?;
    answers.begin(image_receiver::receive_complete(receiver).number());
    Some(())
}
