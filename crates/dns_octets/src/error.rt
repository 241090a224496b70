//! The errors of parsing and composing.
ghost use Rattle.std.specs.Prelude.{◌≡◌};
ghost use Rattle.dns_octets.specs.ErrorText.{IsKept, text_of};
ghost use Rattle.dns_octets.specs.declared.error.FormError.{FormError};
ghost use Rattle.dns_octets.specs.declared.error.ParseError.TheVariants as parse_error;
ghost use Rattle.dns_octets.specs.declared.error.AppendError.TheVariants as append_error;

use std::alloc::AllocError;
use thiserror::Error;

/// The octets ended before the value did.
#[derive(Clone, Copy, Debug, PartialEq, Eq, Error)]
#[error("unexpected end of input")]
pub struct ShortInput;

/// The number of octets that are kept of an error's text.
const ROOM: usize = 62;

/// The octets are there, but they are no value of the kind that was asked for.
// (It keeps the text itself and no reference: what is generic over a lifetime can't return a type that holds
// `'static`.)
#[derive(Clone, Copy, Debug, PartialEq, Eq, Error)]
#[error("{}", self.text())]
pub struct FormError {
    octets: [u8; ROOM],
    /// The number of octets of the text; the other octets are 0.
    len: usize,
}

impl FormError {
    /// Returns an error that shows this text. Of a text longer than 62 octets it shows the whole characters in the
    /// first 62 octets.
    pub fn new(message: &'static str) -> Self
        ensures { IsKept message.now (text_of result) }
    {
        let len = message.floor_char_boundary(ROOM);
        let mut octets = [0; ROOM];
        octets[..len].copy_from_slice(&message.as_bytes()[..len]);
        FormError { octets, len }
    }

    /// Returns the text.
    fn text(&self) -> &str {
        match self.octets.get(..self.len) {
            Some(octets) => str::from_utf8(octets).unwrap_or(""),
            None => "",
        }
    }
}

/// Why a value was not parsed.
#[derive(Clone, Copy, Debug, PartialEq, Eq, Error)]
pub enum ParseError {
    /// The octets ended before the value did.
    #[error("unexpected end of input")]
    ShortInput,
    /// The octets are no value of the kind that was asked for.
    #[error("{0}")]
    Form(FormError),
}

impl ParseError {
    /// Returns a `Form` error that shows this text as `FormError::new` does.
    pub fn form_error(message: &'static str) -> Self
        ensures { (form : FormError) × (result ≡ parse_error.Form form) × IsKept message.now (text_of form) }
    {
        ParseError::Form(FormError::new(message))
    }
}

impl From<ShortInput> for ParseError {
    ghost from_gives = { λ _ e. e ≡ parse_error.ShortInput };

    fn from(_: ShortInput) -> ParseError {
        ParseError::ShortInput
    }
}

impl From<FormError> for ParseError {
    ghost from_gives = { λ form e. e ≡ parse_error.Form form };

    fn from(form: FormError) -> ParseError {
        ParseError::Form(form)
    }
}

/// Why octets were not appended.
#[derive(Clone, Copy, Debug, PartialEq, Eq, Error)]
pub enum AppendError {
    /// The target may not hold that number of octets.
    #[error("buffer size exceeded")]
    ShortBuf,
    /// Out of memory.
    #[error("out of memory")]
    OutOfMemory,
    /// The octets have another length than was stated, or one that does not fit its field.
    #[error("bad length")]
    BadLength,
}

impl From<AllocError> for AppendError {
    ghost from_gives = { λ _ e. e ≡ append_error.OutOfMemory };

    fn from(_: AllocError) -> AppendError {
        AppendError::OutOfMemory
    }
}
