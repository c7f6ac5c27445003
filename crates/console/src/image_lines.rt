// The lines of images: `write EKEY CKEY NUMBER COUNT RELEASE EDITION PREVIOUS PAYLOAD OUT`, `read-start EKEY CKEY`,
// `read-turn ASKED BLOCKS OUT`, `read-complete`, `read-save BYTES` and `read-resume EKEY CKEY BOOKMARK`.
use crate::answers::Answers;
use crate::words::Words;
use image_reader::{Reader, Turn};
use image_reader_tally::Stop;
use image_writer_answer::Numbers;

// `N OUT`
pub fn write(words: &mut Words, answers: &mut Answers) -> Option<()> {
    let ekey = words.bytes()?;
    let ckey = words.bytes()?;
    let numbers = Numbers {
        number: words.number()?,
        count: words.number()?,
        release: words.number()?,
        edition: words.number()?,
    };
    let previous = words.array()?;
    let payload = words.bytes()?;
    let output = words.output()?;
    words.end()?;
    let written = image_writer::write(ekey, ckey, numbers, previous, payload, output);
    answers.begin(written.number());
    answers.bytes(output);
    Some(())
}

// `N`
pub fn start(words: &mut Words, answers: &mut Answers, reader: &mut Reader) -> Option<()> {
    let ekey = words.bytes()?;
    let ckey = words.bytes()?;
    words.end()?;
    let started = image_reader::read_start(ekey, ckey);
    *reader = started.reader;
    answers.begin(started.answer.number());
    Some(())
}

// `N ACCEPTED SUM PLACE REASON VALUE OUT`
pub fn turn(words: &mut Words, answers: &mut Answers, reader: &mut Reader) -> Option<()> {
    let asked = words.number()?;
    let blocks = words.bytes()?;
    let output = words.output()?;
    words.end()?;
    let turn = image_reader::read_turn(*reader, blocks, asked, output);
    *reader = turn.reader;
    put_turn(turn, answers);
    answers.bytes(output);
    Some(())
}

// N is a refusal of the whole turn. A block that stopped it has PLACE, REASON and, where the reason holds one, VALUE.
fn put_turn(turn: Turn, answers: &mut Answers) {
    let (number, place, reason, value) = match turn.stop {
        Stop::At(place, reason) => (0, Some(place), Some(reason.number()), reason.value()),
        stop => (stop.number(), None, None, None),
    };
    answers.begin(number);
    answers.number(turn.accepted as u64);
    answers.number(turn.bytes as u64);
    answers.number_or_dash(place.map(|n| n as u64));
    answers.number_or_dash(reason.map(u64::from));
    answers.number_or_dash(value.map(u64::from));
}

// `N`
pub fn complete(words: &mut Words, answers: &mut Answers, reader: Reader) -> Option<()> {
    words.end()?;
    answers.begin(image_reader::read_complete(reader).number());
    Some(())
}

// `0 BOOKMARK`
pub fn save(words: &mut Words, answers: &mut Answers, reader: Reader) -> Option<()> {
    let bytes = words.number()?;
    words.end()?;
    answers.begin(0);
    answers.bytes(&image_reader_bookmark::read_save(reader, bytes));
    Some(())
}

// `N BYTES`
pub fn resume(words: &mut Words, answers: &mut Answers, reader: &mut Reader) -> Option<()> {
    let ekey = words.bytes()?;
    let ckey = words.bytes()?;
    let bookmark = words.array()?;
    words.end()?;
    let resumed = image_reader_bookmark::read_resume(ekey, ckey, bookmark);
    *reader = resumed.reader;
    answers.begin(resumed.answer.number());
    answers.number(resumed.bytes);
    Some(())
}
