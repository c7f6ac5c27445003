// What the program is given: its arguments, the keys, and the file that is read.
ghost use Rattle.std.specs.Prelude.{◌≤◌, IfOk, length};

use crate::failure::Failure;
use crate::system::System;
use arrayvec::ArrayVec;
use image_reader::Reader;
use std::env::Env;
use std::fs::File;
use std::io::{Seek, SeekFrom};
use streams::Told;

// The arguments that name files.
const KEYS: usize = 2;

const INPUT: usize = 3;

/// Whether argument i is that word, of up to 8 bytes.
pub fn is_word(rt: &impl Env, i: usize, word: &[u8]) -> bool {
    let mut room = [0u8; 8];
    match rt.arg(i, &mut room) {
        Ok(n) => &room[..n] == word,
        Err(_) => false,
    }
}

/// Whether there is `-` in the place of a key file.
pub fn has_no_keys(rt: &impl Env) -> bool {
    is_word(rt, KEYS, b"-")
}

/// The number that argument i is: at most 32 decimal digits.
pub fn number(rt: &impl Env, i: usize) -> Option<u32> {
    let mut room = [0u8; 32];
    let n = rt.arg(i, &mut room).ok()?;
    let value = text_decimal::decimal(&room[..n], u32::MAX.into())?;
    u32::try_from(value).ok()
}

/// Opens the file that is read.
pub fn open(rt: &impl System) -> Result<File, Told> {
    streams::opened(rt, INPUT, Failure::OpenInput)
}

/// The size of an open file, or more than an image can hold if it has no size. Reading then starts at its first byte.
pub fn size_of(mut file: &File) -> usize {
    let end = file.seek(SeekFrom::End(0));
    let start = file.seek(SeekFrom::Start(0));
    match (end, start) {
        (Ok(size), Ok(0)) => size as usize,
        _ => usize::MAX,
    }
}

/// Goes on at that byte of the file.
pub fn seek(rt: &impl System, mut file: &File, at: u64) -> Result<(), Told> {
    match file.seek(SeekFrom::Start(at)) {
        Ok(_) => Ok(()),
        Err(e) => Err(Failure::Seek.tell_why(rt, &e)),
    }
}

/// Reads until the part is full or the file ends: how many bytes came to its front.
pub fn fill(rt: &impl System, mut file: &File, part: &mut [u8]) -> Result<usize, Told>
    ensures { IfOk result (λ n. n ≤ length part.new) }
{
    streams::read_full(rt, &mut file, part, Failure::Read)
}

/// The file of two keys of equal size.
#[derive(Drop)]
pub struct Keys {
    bytes: ArrayVec<u8, 65>,
}

impl Keys {
    /// Reads one byte more than two keys have, so that a longer file is known from them.
    pub fn read(rt: &impl System) -> Result<Keys, Told> {
        let file = streams::opened(rt, KEYS, Failure::OpenKeys)?;
        let mut bytes = ArrayVec::from([0u8; 65]);
        let size = fill(rt, &file, bytes.as_mut_slice())?;
        bytes.truncate(size);
        match size {
            32 | 48 | 64 => Ok(Keys { bytes }),
            _ => Err(Failure::KeySize(size).tell(rt)),
        }
    }

    pub fn encryption(&self) -> &[u8] {
        &self.bytes[..self.bytes.len() / 2]
    }

    pub fn check(&self) -> &[u8] {
        &self.bytes[self.bytes.len() / 2..]
    }

    /// A reader that begins with block 0. The keys have a size that is taken, so their answer is not looked at.
    pub fn reader(&self) -> Reader {
        image_reader::read_start(self.encryption(), self.check()).reader
    }
}
