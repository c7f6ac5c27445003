// The blocks of an image, a row each, as the program `listing` lists them, under keys of every size.
use crate::clock::Clock;
use crate::form::Form;
use crate::input::Keys;
use crate::output::{Output, Waiting};
use crate::rows::Row;
use crate::system::System;
use crate::{input, lent};
use image_progress::Completion;
use image_reader::Reader;
use image_reader_tally::Stop;
use std::fs::File;
use streams::Told;

const FORM: usize = 4;

// How a listing came to its last row.
#[derive(Clone, Copy, Debug, PartialEq, Eq)]
enum End {
    Input,
    Refused,
}

// What is read, how far the listing has come, and where the rows go.
#[derive(Drop)]
struct Listing<'a> {
    from: &'a File,
    reader: Reader,
    output: Output<'a>,
}

impl Listing<'_> {
    // Offers one block, or the bytes that are left of the input, and puts the row with the number that was expected. A listing shows no
    // payload, so it is dropped here.
    fn offer(&mut self, rt: &impl System, lent: &[u8]) -> Result<Option<End>, Told> {
        let mut payload = [0u8; 480];
        let expected = self.reader.progress.next;
        let turn = image_reader::read_turn(self.reader, lent, 1, &mut payload);
        self.reader = turn.reader;
        let row = Row::Block {
            expected,
            answer: turn.stop.number(),
            length: turn.bytes,
        };
        self.output.put(rt, row)?;
        if self.output.is_full() {
            self.output.write(rt)?;
        }
        match turn.stop {
            Stop::End => Ok(None),
            _ => Ok(Some(End::Refused)),
        }
    }

    // Bytes that are no whole block are offered as they are.
    fn step(&mut self, rt: &impl System) -> Result<Option<End>, Told> {
        let mut block = [0u8; 512];
        let n = input::fill(rt, self.from, &mut block)?;
        if n == 0 {
            return Ok(Some(End::Input));
        }
        self.offer(rt, &block[..n])
    }

    // An image has at most 65,535 blocks and the reader refuses one more, so the bound cuts nothing off.
    fn list_blocks(&mut self, rt: &impl System, clock: &mut Clock) -> Result<End, Told> {
        self.output.put(rt, Row::Head)?;
        for _ in 0..65536 {
            if let Some(end) = self.step(rt)? {
                return Ok(end);
            }
            clock.tick(rt, self.reader.progress.next.into());
        }
        Ok(End::Refused)
    }

    // Puts the last row, and answers whether it says that the image is complete. The reader began at 0, so the number that it expects is
    // the count of blocks accepted.
    fn close(&mut self, rt: &impl System) -> Result<bool, Told> {
        let completion = image_reader::read_complete(self.reader);
        let row = Row::End {
            complete: completion.number(),
            accepted: self.reader.progress.next,
        };
        self.output.put(rt, row)?;
        self.output.write(rt)?;
        Ok(matches!(completion, Completion::Complete))
    }

    // Whether every block was accepted, the last one too, and all of it was said. Only then is the whole file an image. Where a read or a
    // write failed, what waits is written without a last row; rows that could not be written before are tried once more.
    fn is_whole(&mut self, rt: &impl System, terminal: Option<File>) -> Result<bool, Told> {
        let blocks = input::size_of(self.from) / 512;
        let mut clock = Clock::start(rt, terminal, blocks as u64);
        let end = self.list_blocks(rt, &mut clock);
        clock.stop();
        match end {
            Ok(end) => Ok(self.close(rt)? && end == End::Input),
            Err(told) => {
                self.output.write(rt)?;
                Err(told)
            }
        }
    }
}

pub fn list_image(rt: &impl System) -> Result<(), Told> {
    let terminal = lent::terminal(rt);
    let reader = Keys::read(rt)?.reader();
    let file = input::open(rt)?;
    let mut lines = Waiting::new();
    let output = Output::new(Form::given(rt, FORM), &mut lines);
    let mut listing = Listing {
        from: &file,
        reader,
        output,
    };
    if listing.is_whole(rt, terminal)? {
        streams::report(rt, b"whole\n");
    }
    Ok(())
}
