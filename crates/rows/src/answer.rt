//! The line that answers a row.
use crate::RowError;
use std::error::Error;
use std::fmt::{Debug, Display};

/// The values that a call returns, as they are written one after another, with spaces between them.
#[derive(Drop)]
pub struct Answer {
    line: String,
    /// Whether an error is written as its text, not as its name.
    says_why: bool,
    /// How many errors were written.
    refusals: usize,
}

impl Answer {
    /// Returns an answer without a value.
    pub(crate) fn new(line: String, says_why: bool) -> Self {
        Answer {
            line,
            says_why,
            refusals: 0,
        }
    }

    /// Returns how many errors were written.
    pub(crate) fn refusals(&self) -> usize {
        self.refusals
    }

    /// Returns the values that were written.
    pub(crate) fn into_line(self) -> String {
        self.line
    }

    /// Writes a space after the value before, if there is one.
    fn separate(&mut self) -> Result<(), RowError> {
        if !self.line.is_empty() {
            self.line.push(' ')?;
        }
        Ok(())
    }

    /// Writes a value by its `Display`: a number, a boolean or a text.
    pub fn shown<T: Display>(&mut self, value: &T) -> Result<(), RowError> {
        self.separate()?;
        write!(self.line, "{value}")?;
        Ok(())
    }

    /// Writes a value by its `Debug`: `Less`, `None`, `Some(5)`.
    pub fn named<T: Debug>(&mut self, value: &T) -> Result<(), RowError> {
        self.separate()?;
        write!(self.line, "{value:?}")?;
        Ok(())
    }

    /// Writes octets as hexadecimal digits, `-` for none.
    pub fn octets(&mut self, octets: &[u8]) -> Result<(), RowError> {
        self.separate()?;
        if octets.is_empty() {
            self.line.push('-')?;
        }
        for octet in octets {
            write!(self.line, "{octet:02x}")?;
        }
        Ok(())
    }

    /// Writes a text as an argument without quotes: printable ASCII as it is, but `%` and any other octet as `%` and two
    /// hexadecimal digits; `-` for the empty text.
    pub fn text(&mut self, octets: &[u8]) -> Result<(), RowError> {
        self.separate()?;
        if octets.is_empty() {
            self.line.push('-')?;
        }
        for octet in octets {
            if octet.is_ascii_graphic() && *octet != b'%' {
                self.line.push(char::from(*octet))?;
            } else {
                write!(self.line, "%{octet:02x}")?;
            }
        }
        Ok(())
    }

    /// Writes `refused` and the name of an error, or its text if the row begins with `why`.
    pub fn refused<E: Error>(&mut self, error: &E) -> Result<(), RowError> {
        self.refusals = self.refusals.saturating_add(1);
        self.separate()?;
        self.line.push_str("refused ")?;
        if self.says_why {
            write!(self.line, "{error}")?;
        } else {
            write!(self.line, "{error:?}")?;
        }
        Ok(())
    }
}
