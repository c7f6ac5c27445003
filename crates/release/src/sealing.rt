// A file sealed into an image, in turns of 128 blocks.
use crate::clock::Clock;
use crate::failure::Failure;
use crate::input::Keys;
use crate::line::Held;
use crate::system::System;
use crate::{input, keep, lent, line};
use image_writer_answer::{Numbers, WriteAnswer};
use std::fs::File;
use streams::Told;

type Blocks = [u8; 65536];

type Payload = [u8; 61440];

const RELEASE: usize = 5;

const EDITION: usize = 6;

// A file that is sealed, and the image: where it goes, the numbers of its next block, and the check of the last.
#[derive(Drop)]
struct Sealing<'a> {
    keys: &'a Keys,
    from: &'a File,
    size: usize,
    to: &'a File,
    numbers: Numbers,
    last: [u8; 16],
}

impl Sealing<'_> {
    // Seals the next block. No image has more than 65,535, so no number is cut off.
    fn block(&mut self, rt: &impl System, payload: &[u8], block: &mut [u8]) -> Result<(), Told> {
        let answer = image_writer::write(
            self.keys.encryption(),
            self.keys.check(),
            self.numbers,
            self.last,
            payload,
            block,
        );
        let WriteAnswer::Written = answer else {
            return Err(Failure::Refused.tell(rt));
        };
        self.numbers.number = self.numbers.number.saturating_add(1);
        self.last = octets_block::load(block, 496);
        Ok(())
    }

    // The next 128 blocks, or what is left of them.
    fn turn(
        &mut self,
        rt: &impl System,
        payload: &mut Payload,
        blocks: &mut Blocks,
    ) -> Result<(), Told> {
        let done = self.numbers.number as usize;
        let n = self.size.saturating_sub(done * 480).min(61440);
        if input::fill(rt, self.from, &mut payload[..n])? < n {
            return Err(Failure::Shorter.tell(rt));
        }
        let count = self.numbers.count as usize;
        let bytes = count.saturating_sub(done).min(128) * 512;
        for (j, block) in blocks[..bytes].chunks_exact_mut(512).enumerate() {
            self.block(rt, image_cut::block_part(&payload[..n], j), block)?;
        }
        keep::write(rt, self.to, &blocks[..bytes])
    }

    fn turns(&mut self, rt: &impl System, clock: &mut Clock) -> Result<(), Told> {
        let mut payload = [0u8; 61440];
        let mut blocks = [0u8; 65536];
        for _ in 0..self.numbers.count.div_ceil(128) {
            self.turn(rt, &mut payload, &mut blocks)?;
            clock.tick(rt, self.numbers.number.into());
        }
        Ok(())
    }

    // A byte behind the size that the file had at the start is one too many.
    fn expect_end(&self, rt: &impl System) -> Result<(), Told> {
        let mut one = [0u8; 1];
        match input::fill(rt, self.from, &mut one)? {
            0 => Ok(()),
            _ => Err(Failure::Longer.tell(rt)),
        }
    }

    fn seal(&mut self, rt: &impl System, terminal: Option<File>) -> Result<(), Told> {
        let mut clock = Clock::start(rt, terminal, self.numbers.count.into());
        let sealed = self.turns(rt, &mut clock);
        clock.stop();
        sealed?;
        self.expect_end(rt)?;
        keep::sync(rt, self.to)?;
        line::complete(
            rt,
            Held {
                release: self.numbers.release,
                edition: self.numbers.edition,
                blocks: self.numbers.count,
                payload: self.size as u64,
            },
        );
        Ok(())
    }
}

// The edition that is asked for, of those that the writer knows.
fn edition(rt: &impl System) -> Result<u32, Told> {
    match input::number(rt, EDITION) {
        Some(edition @ (1 | 2)) => Ok(edition),
        Some(0..=65535) => Err(Failure::NoEdition.tell(rt)),
        _ => Err(Failure::Edition.tell(rt)),
    }
}

pub fn seal_file(rt: &impl System) -> Result<(), Told> {
    let Some(release) = input::number(rt, RELEASE) else {
        return Err(Failure::Release.tell(rt));
    };
    let edition = edition(rt)?;
    let terminal = lent::terminal(rt);
    let keys = Keys::read(rt)?;
    let from = input::open(rt)?;
    let size = input::size_of(&from);
    let Some(count) = image_cut::block_count(size) else {
        return Err(Failure::TooLong.tell(rt));
    };
    let to = keep::open(rt)?;
    let mut sealing = Sealing {
        keys: &keys,
        from: &from,
        size,
        to: &to,
        numbers: Numbers {
            number: 0,
            count,
            release,
            edition,
        },
        last: [0u8; 16],
    };
    sealing.seal(rt, terminal)
}
