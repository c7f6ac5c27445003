// An image read in turns of 128 blocks: checked, or its payload put into the output once it is whole.
use crate::card::Refusal;
use crate::clock::Clock;
use crate::input::Keys;
use crate::line::Held;
use crate::system::System;
use crate::{card, input, keep, lent, line};
use image_layout::Head;
use image_progress::Completion;
use image_reader::Reader;
use image_reader_tally::Stop;
use image_reasons::Reason;
use std::fs::File;
use streams::Told;

type Blocks = [u8; 65536];

type Payload = [u8; 61440];

// How the reading of an image ended: with its last byte, or refused; where a check was wrong, with the header of that block.
#[derive(Clone, Copy)]
enum End {
    Input,
    Refused(Stop, Option<Head>),
}

// An image that is read, how far, with the bytes of payload so far, and where they go: without an output the payload is dropped, and that
// is a check.
#[derive(Clone, Copy)]
struct Reading<'a> {
    from: &'a File,
    to: Option<&'a File>,
    reader: Reader,
    bytes: u64,
}

impl Reading<'_> {
    fn held(&self) -> Held {
        Held::by(self.reader.progress, self.bytes)
    }

    fn is_complete(&self) -> bool {
        matches!(
            image_reader::read_complete(self.reader),
            Completion::Complete
        )
    }

    // Whole blocks are offered. Only the last block of an image may be short, so the payload of a turn has no gap.
    fn offer(
        &mut self,
        rt: &impl System,
        blocks: &[u8],
        payload: &mut Payload,
    ) -> Result<Option<End>, Told> {
        let turn = image_reader::read_turn(self.reader, blocks, 128, payload);
        self.reader = turn.reader;
        self.bytes = self.bytes.saturating_add(turn.bytes as u64);
        if let Some(file) = self.to {
            keep::write(rt, file, octets_slice::part(payload, 0, turn.bytes))?;
        }
        Ok(match turn.stop {
            Stop::End => None,
            Stop::At(place, Reason::CheckWrong) => {
                Some(End::Refused(turn.stop, Some(head_at(blocks, place))))
            }
            stop => Some(End::Refused(stop, None)),
        })
    }

    // Bytes after the last whole block are refused with 6, but only after the blocks before them have been read.
    fn turn(
        &mut self,
        rt: &impl System,
        blocks: &mut Blocks,
        payload: &mut Payload,
    ) -> Result<Option<End>, Told> {
        let n = input::fill(rt, self.from, blocks)?;
        if n == 0 {
            return Ok(Some(End::Input));
        }
        let rest = n % 512;
        let end = self.offer(rt, &blocks[..n - rest], payload)?;
        if end.is_none() && rest > 0 {
            return Ok(Some(End::Refused(Stop::Lent, None)));
        }
        Ok(end)
    }

    // An image has at most 65,535 blocks and the reader refuses one more, so the bound cuts nothing off.
    fn read_blocks(&mut self, rt: &impl System, clock: &mut Clock) -> Result<End, Told> {
        let mut blocks = [0u8; 65536];
        let mut payload = [0u8; 61440];
        for _ in 0..65536 {
            if let Some(end) = self.turn(rt, &mut blocks, &mut payload)? {
                return Ok(end);
            }
            clock.tick(rt, self.reader.progress.next.into());
        }
        Ok(End::Refused(Stop::Asked, None))
    }

    fn read(&mut self, rt: &impl System, terminal: Option<File>) -> Result<(), Told> {
        let blocks = input::size_of(self.from) / 512;
        let mut clock = Clock::start(rt, terminal, blocks as u64);
        let end = self.read_blocks(rt, &mut clock);
        clock.stop();
        match end? {
            End::Input => self.ended(rt)?,
            End::Refused(stop, head) => self.refused(rt, stop, head),
        }
        Ok(())
    }

    // The whole input was accepted: 17 where it ends before the last block.
    fn ended(&self, rt: &impl System) -> Result<(), Told> {
        if self.is_complete() {
            if let Some(file) = self.to {
                keep::sync(rt, file)?;
            }
            line::complete(rt, self.held());
        } else {
            card::tell(rt, self.reader.progress.next.into(), Refusal::NotComplete);
            line::not_complete(rt, self.held());
        }
        Ok(())
    }

    // Behind a complete image the refusal, 16 or 6, says less than how much there is.
    fn refused(&self, rt: &impl System, stop: Stop, head: Option<Head>) {
        let progress = self.reader.progress;
        if self.is_complete() {
            card::tell_more(rt, progress.next, input::size_of(self.from) as u64);
        } else {
            card::tell(rt, progress.next.into(), Refusal::Stopped(stop));
            if let Some(head) = head {
                card::tell_check(rt, progress, head);
            }
        }
        line::not_complete(rt, self.held());
    }
}

// The header of a block of a turn.
fn head_at(blocks: &[u8], place: usize) -> Head {
    image_layout::head_of(octets_block::load(blocks, place.saturating_mul(512)))
}

fn read_to(rt: &impl System, to: Option<&File>, terminal: Option<File>) -> Result<(), Told> {
    let reader = Keys::read(rt)?.reader();
    let from = input::open(rt)?;
    let mut reading = Reading {
        from: &from,
        to,
        reader,
        bytes: 0,
    };
    reading.read(rt, terminal)
}

pub fn check_image(rt: &impl System) -> Result<(), Told> {
    let terminal = lent::terminal(rt);
    read_to(rt, None, terminal)
}

pub fn open_image(rt: &impl System) -> Result<(), Told> {
    let terminal = lent::terminal(rt);
    let to = keep::open(rt)?;
    read_to(rt, Some(&to), terminal)
}
