// The two forms of what is written: lines of words, or an object of JSON a line.
use crate::input;
use std::env::Env;
use std::fmt::{self, Display, Formatter};

#[derive(Clone, Copy, Debug, PartialEq, Eq)]
pub enum Form {
    Words,
    Json,
}

impl Form {
    /// The form that argument i asks for.
    pub fn given(rt: &impl Env, i: usize) -> Form {
        if input::is_word(rt, i, b"json") {
            Form::Json
        } else {
            Form::Words
        }
    }
}

/// What can be written in both forms, each with its line feeds.
pub trait Show: Drop {
    fn words<W: fmt::Write>(&self, f: &mut Formatter<W>) -> fmt::Result;

    fn json<W: fmt::Write>(&self, f: &mut Formatter<W>) -> fmt::Result;
}

/// It is written in that form.
#[derive(Drop)]
pub struct Shown<T: Show> {
    pub form: Form,
    pub what: T,
}

impl<T: Show> Display for Shown<T> {
    fn fmt<W: fmt::Write>(&self, f: &mut Formatter<W>) -> fmt::Result {
        match self.form {
            Form::Words => self.what.words(f),
            Form::Json => self.what.json(f),
        }
    }
}
