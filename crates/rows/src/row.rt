//! The words of a row.
use crate::Answer;
use crate::octets::{octets_of, octets_of_text};
use std::alloc::{AllocError, AllocFailed, Global};
use std::str::FromStr;
use thiserror::Error;

/// Why a row has no answer.
#[derive(Clone, Copy, Debug, PartialEq, Eq, Drop, Error)]
pub enum RowError {
    /// No call has this name.
    #[error("unknown call")]
    UnknownCall,
    /// An argument is missing.
    #[error("missing argument")]
    MissingWord,
    /// An argument is not a value of the kind that the call takes.
    #[error("bad argument")]
    BadWord,
    /// Words follow the last argument.
    #[error("trailing argument")]
    TrailingWord,
    /// A quoted text does not end.
    #[error("unclosed quote")]
    OpenQuote,
    /// No `let` line before gives this name.
    #[error("unknown name")]
    UnknownName,
    /// An earlier `let` line gives this name.
    #[error("name given twice")]
    NamedTwice,
    /// A `let` line is not `let NAME = ARGUMENT`.
    #[error("bad let line")]
    BadLet,
    /// Out of memory.
    #[error("out of memory")]
    OutOfMemory,
}

impl From<AllocError> for RowError {
    fn from(_: AllocError) -> RowError {
        RowError::OutOfMemory
    }
}

impl<T: Drop> From<AllocFailed<T>> for RowError {
    fn from(_: AllocFailed<T>) -> RowError {
        RowError::OutOfMemory
    }
}

/// A row: its call, and the words of the arguments that are not taken yet.
#[derive(Drop)]
pub struct Row<'a> {
    call: &'a str,
    words: Option<&'a str>,
    /// Whether a step that is refused is taken once more.
    repeats: bool,
    /// The words from the last step on, if one was taken.
    step: Option<&'a str>,
    /// Whether that was its second time.
    is_second: bool,
    /// The number of refusals before it.
    refusals: usize,
}

impl<'a> Row<'a> {
    /// Returns the row of a line. `repeats`: whether a step that is refused is taken once more.
    pub fn new(line: &'a str, repeats: bool) -> Self {
        let (call, words) = match line.split_once(' ') {
            Some((call, words)) => (call, Some(words)),
            None => (line, None),
        };
        Row {
            call,
            words,
            repeats,
            step: None,
            is_second: false,
            refusals: 0,
        }
    }

    /// Returns the first word: the whole name of the call.
    pub fn call(&self) -> &'a str {
        self.call
    }

    /// Returns the type of a method, as `Name` of `Name::from_slice`, or the whole call if it is not a method.
    pub fn family(&self) -> &'a str {
        match self.call.split_once("::") {
            Some((family, _)) => family,
            None => self.call,
        }
    }

    /// Returns the name of a method, as `from_slice` of `Name::from_slice`, or nothing if the call is not a method.
    pub fn method(&self) -> &'a str {
        match self.call.split_once("::") {
            Some((_, method)) => method,
            None => "",
        }
    }

    /// Returns whether arguments are left.
    pub fn has_more(&self) -> bool {
        self.words.is_some()
    }

    /// Begins the next step, and returns whether there is one. In a row of `again` a step that was refused is taken once
    /// more.
    pub fn has_step(&mut self, out: &Answer) -> bool {
        let is_refused = out.refusals() > self.refusals;
        self.refusals = out.refusals();
        self.is_second = self.repeats && is_refused && self.step.is_some() && !self.is_second;
        if self.is_second {
            self.words = self.step;
        } else {
            self.step = self.words;
        }
        self.has_more()
    }

    /// Leaves out the arguments that are left.
    pub fn leave_rest(&mut self) {
        self.words = None;
    }

    /// Takes the next argument as it is.
    pub fn word(&mut self) -> Result<&'a str, RowError> {
        let Some(words) = self.words else {
            return Err(RowError::MissingWord);
        };
        match words.split_once(' ') {
            Some((word, rest)) => {
                self.words = Some(rest);
                Ok(word)
            }
            None => {
                self.words = None;
                Ok(words)
            }
        }
    }

    /// Takes the next argument as a number, or as another value with a text form.
    pub fn value<T: FromStr>(&mut self) -> Result<T, RowError>
    where
        T::Err: Drop,
    {
        match self.word()?.parse() {
            Ok(value) => Ok(value),
            Err(_) => Err(RowError::BadWord),
        }
    }

    /// Takes the next argument as octets.
    pub fn octets(&mut self, alloc: Global) -> Result<Vec<u8>, RowError> {
        octets_of(alloc, self.word()?)
    }

    /// Takes the next argument as the octets of a text.
    pub fn text_octets(&mut self, alloc: Global) -> Result<Vec<u8>, RowError> {
        octets_of_text(alloc, self.word()?)
    }

    /// Takes all arguments that are left as texts, and adds a line feed after each.
    pub fn lines(&mut self, alloc: Global) -> Result<String, RowError> {
        let mut lines = String::new(alloc);
        for _ in 0..u32::MAX {
            if !self.has_more() {
                break;
            }
            lines.push_str(self.text(alloc)?.as_str())?;
            lines.push('\n')?;
        }
        Ok(lines)
    }

    /// Takes the next argument as a text.
    pub fn text(&mut self, alloc: Global) -> Result<String, RowError> {
        match String::from_utf8(self.text_octets(alloc)?) {
            Ok(text) => Ok(text),
            Err(_) => Err(RowError::BadWord),
        }
    }
}
