// Lists the blocks of an image, a line each. Standard input has two keys of 16 bytes and then the blocks. `dock` starts it with the
// names of a key file and an image instead, and then it reports on a descriptor whether the whole file was accepted.
#![tactic(auto)]

mod rows;
mod source;

use aes_schedule::KeyAnswer;
use image_progress::Completion;
use image_reader::Reader;
use image_reader_tally::Stop;
use rows::Row;
use std::env::Env;
use std::fs::File;
use std::io::{self, Read};
use std::rt::Files;
use streams::{Lines, Told};

// What a listing asks of the system.
trait System: Files<File = File> + Env + Print + Eprint + AllocGlobal {}

impl System for HostRuntime {}

// The bytes that the lines may take which wait to be written, and from how many on they are written. A line has at most 63 bytes: three
// numbers of up to 20 digits, two spaces, a line feed. So each line has room.
const ROOM: usize = 8192;

const FULL: usize = 8128;

const LINE: usize = 63;

// How a listing came to its last line.
#[derive(Clone, Copy, Debug, PartialEq, Eq)]
enum End {
    Input,
    Refused,
}

// How far the listing has come, and the lines that wait.
#[derive(Drop)]
struct Listing<'a> {
    reader: Reader,
    lines: &'a mut Lines<ROOM, LINE>,
}

impl Listing<'_> {
    fn put(&mut self, rt: &impl System, row: Row) -> Result<(), Told> {
        self.lines.put(row).map_err(|_| no_room(rt))
    }

    // A program has no exit status, so after a failed write nothing more is written: a listing without its last line is cut.
    fn write(&mut self, rt: &impl System) -> Result<(), Told> {
        let written = self.lines.write(
            rt,
            &mut io::writer(rt),
            "dock: the listing cannot be written to standard output",
        );
        self.lines.clear();
        written
    }

    // Offers one block, or the bytes that are left of the input, and puts the line with the number that was expected. A listing shows no
    // payload, so it is dropped here.
    fn offer(&mut self, rt: &impl System, lent: &[u8]) -> Result<Option<End>, Told> {
        let mut payload = [0u8; 480];
        let expected = self.reader.progress.next;
        let turn = image_reader::read_turn(self.reader, lent, 1, &mut payload);
        self.reader = turn.reader;
        let row = Row::Block {
            expected,
            answer: turn.stop.number(),
            length: turn.bytes,
        };
        self.put(rt, row)?;
        if self.lines.len() >= FULL {
            self.write(rt)?;
        }
        match turn.stop {
            Stop::End => Ok(None),
            _ => Ok(Some(End::Refused)),
        }
    }

    // A pipe may give fewer bytes than asked for, so a block is read until it is full or the input ends.
    fn step<R: Read>(&mut self, rt: &impl System, image: &mut R) -> Result<Option<End>, Told> {
        let mut block = [0u8; 512];
        let n = streams::read_full(
            rt,
            image,
            &mut block,
            "dock: the image could not be read to its end, check the disk and start again",
        )?;
        if n == 0 {
            return Ok(Some(End::Input));
        }
        self.offer(rt, &block[..n])
    }

    // An image has at most 65,535 blocks and the reader refuses one more, so the bound cuts nothing off.
    fn list_blocks<R: Read>(&mut self, rt: &impl System, image: &mut R) -> Result<End, Told> {
        self.put(rt, Row::Head)?;
        for _ in 0..65536u32 {
            if let Some(end) = self.step(rt, image)? {
                return Ok(end);
            }
        }
        Ok(End::Refused)
    }

    // Puts the last line, and answers whether it says that the image is complete. The reader began at 0, so the number that it expects is
    // the count of blocks accepted.
    fn close(&mut self, rt: &impl System) -> Result<bool, Told> {
        let completion = image_reader::read_complete(self.reader);
        let row = Row::End {
            complete: completion.number(),
            accepted: self.reader.progress.next,
        };
        self.put(rt, row)?;
        self.write(rt)?;
        Ok(matches!(completion, Completion::Complete))
    }

    // Whether every block was accepted, the last one too, and every line was written. Only then is the whole file an image. Where a read
    // failed, what waits is written without a last line.
    fn is_whole<R: Read>(&mut self, rt: &impl System, image: &mut R) -> Result<bool, Told> {
        match self.list_blocks(rt, image) {
            Ok(end) => Ok(self.close(rt)? && end == End::Input),
            Err(told) => {
                self.write(rt)?;
                Err(told)
            }
        }
    }
}

fn no_room(rt: &impl System) -> Told {
    let _ = eprintln!(rt; "dock: a line of the listing has no room: report this");
    Told
}

// Whether the image was accepted as a whole. If the input ends within the keys, the one that is short or missing is refused like any other of a wrong length.
fn list<R: Read>(rt: &impl System, keys: &[u8], image: &mut R) -> Result<bool, Told> {
    let (encryption, check) = keys.split_at(keys.len().min(16));
    let started = image_reader::read_start(encryption, check);
    match started.answer {
        KeyAnswer::Taken => {
            let mut lines = Lines::new();
            let mut listing = Listing {
                reader: started.reader,
                lines: &mut lines,
            };
            listing.is_whole(rt, image)
        }
        KeyAnswer::KeyLength => {
            let _ = println!(rt; "keys 1");
            Ok(false)
        }
    }
}

fn list_input<R: Read>(rt: &impl System, input: &mut R) -> Result<(), Told> {
    let mut keys = [0u8; 32];
    let n = source::keys(input, &mut keys);
    list(rt, &keys[..n], input)?;
    Ok(())
}

// The files that the first two arguments name. A program has no exit status, so `dock` waits for its word.
fn list_files(rt: &impl System) -> Result<(), Told> {
    let key_file = streams::opened(
        rt,
        1,
        "dock: the key file cannot be opened, check its permissions",
    );
    let image = streams::opened(
        rt,
        2,
        "dock: the image cannot be opened, check its permissions",
    );
    let mut key_file = key_file?;
    let mut image = image?;
    let mut keys = [0u8; 32];
    let n = source::keys(&mut key_file, &mut keys);
    if list(rt, &keys[..n], &mut image)? {
        streams::report(rt, b"whole\n");
    }
    Ok(())
}

// What went wrong has been told, so there is nothing left to do.
fn main(rt: HostRuntime) {
    let _ = if streams::is_given(&rt, 2) {
        list_files(&rt)
    } else {
        list_input(&rt, &mut rt.stdin())
    };
}
