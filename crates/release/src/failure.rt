// What stops the work, in a line on standard error that says what it is and what to do. Where that cannot be written, nobody is there to
// read it.
use std::fmt::{self, Display, Formatter};
use std::io::Error;
use streams::Told;

#[derive(Clone, Copy, Debug, PartialEq, Eq)]
pub enum Failure {
    Verb,
    Release,
    Edition,
    NoEdition,
    Place,
    Room,
    OpenKeys,
    OpenInput,
    OpenTemporary,
    Read,
    Seek,
    Write,
    Sync,
    Output,
    /// The bytes of a key file, of which 65 stand for all above 64.
    KeySize(usize),
    TooLong,
    Shorter,
    Longer,
    Refused,
    Changed,
    Empty,
}

impl Failure {
    pub fn tell(self, rt: &impl Eprint) -> Told {
        let _ = rt.eprintln(self);
        Told
    }

    /// Tells what the system says of it as well.
    pub fn tell_why<E: Eprint + Alloc>(self, rt: &E, why: &Error) -> Told {
        streams::tell(rt, self, why)
    }

    // Of a key file's size this is only the rule.
    fn words(self) -> &'static str {
        match self {
            Failure::Verb => {
                "the first word is none of seal, open, check, list and show: start the program by dock"
            }
            Failure::Release => {
                "the release is not a number below 4,294,967,296: give it in decimal digits"
            }
            Failure::Edition => "the edition is not a number: give it in decimal digits",
            Failure::NoEdition => "there is no such edition: take 1 or 2",
            Failure::Place => {
                "the place is not a number below 4,294,967,296: give it in decimal digits"
            }
            Failure::Room => "a row has no room: report this",
            Failure::OpenKeys => "the key file cannot be opened, check its permissions",
            Failure::OpenInput => "the input cannot be opened, check its permissions",
            Failure::OpenTemporary => {
                "the temporary file cannot be opened, check the permissions of its folder"
            }
            Failure::Read => "a read failed, check the disk and start again",
            Failure::Seek => "the image cannot be read, check the disk and start again",
            Failure::Write => {
                "a write failed, so the output is as it was; make room or take another folder, and start again"
            }
            Failure::Sync => {
                "the disk did not take what was written, so the output is as it was; check the disk and start again"
            }
            Failure::Output => {
                "standard output cannot be written to, open it or make room and start again"
            }
            Failure::KeySize(_) => {
                "it must hold the encryption key and then the check key, of the same size, 32, 48 or 64 bytes in all"
            }
            Failure::TooLong => {
                "the file is too long: an image holds 31,456,800 bytes at most, so make the release smaller or cut it into two"
            }
            Failure::Shorter => {
                "the file became shorter while it was sealed: seal it again once nobody writes to it"
            }
            Failure::Longer => {
                "the file became longer while it was sealed: seal it again once nobody writes to it"
            }
            Failure::Refused => {
                "the writer refused a block: report this with the size of the file"
            }
            Failure::Changed => {
                "the image was changed while it was read: show it again once nobody writes to it"
            }
            Failure::Empty => "the image has no blocks: the file is empty, so fetch it again",
        }
    }
}

impl Display for Failure {
    fn fmt<W: fmt::Write>(&self, f: &mut Formatter<W>) -> fmt::Result {
        let words = self.words();
        match self {
            Failure::KeySize(65) => {
                write!(f, "dock: the key file has more than 64 bytes: {words}")
            }
            Failure::KeySize(size) => write!(f, "dock: the key file has {size} bytes: {words}"),
            _ => write!(f, "dock: {words}"),
        }
    }
}
