// The output: written to the temporary file that `dock` has made next to it, and on the disk before it is called complete.
use crate::failure::Failure;
use crate::system::System;
use std::fs::{File, OpenOptions};
use std::io::Write;
use streams::Told;

const TEMPORARY: usize = 4;

/// Opens the temporary file, which is there already.
pub fn open(rt: &impl System) -> Result<File, Told> {
    streams::opened_with(
        rt,
        TEMPORARY,
        OpenOptions::new().read(true).write(true),
        Failure::OpenTemporary,
    )
}

pub fn write(rt: &impl System, mut to: &File, bytes: &[u8]) -> Result<(), Told> {
    to.write_all(bytes)
        .map_err(|e| Failure::Write.tell_why(rt, &e))
}

/// What was written is on the disk.
pub fn sync(rt: &impl System, to: &File) -> Result<(), Told> {
    to.sync_all().map_err(|e| Failure::Sync.tell_why(rt, &e))
}
