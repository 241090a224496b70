//! Why octets are no message, and why records are not copied.

ghost use Rattle.std.specs.Prelude.{◌≡◌};
ghost use Rattle.dns_sections.specs.declared.error.CopyRecordsError.TheVariants.{Parse, Push};
ghost use Rattle.dns_sections.specs.Refused.{as_push_error};

use dns_name::{AppendError, ParseError};
use thiserror::Error;

/// There are fewer octets than the twelve of a header.
#[derive(Clone, Copy, Debug, PartialEq, Eq, Error)]
#[error("short message")]
pub struct ShortMessage;

/// Why an item is not added to a message.
#[derive(Clone, Copy, Debug, PartialEq, Eq, Error)]
pub enum PushError {
    /// The section has 65,535 items already.
    #[error("counter overflow")]
    CountOverflow,
    /// The message would be as long as its limit, or longer.
    #[error("limit exceeded")]
    LimitExceeded,
    /// The target is full.
    #[error("buffer size exceeded")]
    ShortBuf,
    /// Out of memory.
    #[error("out of memory")]
    OutOfMemory,
    /// The data has more than 65,535 octets, or another length than stated.
    #[error("bad length")]
    BadLength,
}

impl From<AppendError> for PushError {
    ghost from_gives = { λ error push_error. push_error ≡ as_push_error error };

    fn from(error: AppendError) -> Self {
        match error {
            AppendError::ShortBuf => PushError::ShortBuf,
            AppendError::OutOfMemory => PushError::OutOfMemory,
            AppendError::BadLength => PushError::BadLength,
        }
    }
}

/// Why records are not copied from one message to another.
#[derive(Clone, Copy, Debug, PartialEq, Eq, Error)]
pub enum CopyRecordsError {
    /// A question or a record of the source does not parse.
    #[error("{0}")]
    Parse(ParseError),
    /// The target does not take a record.
    #[error("{0}")]
    Push(PushError),
}

impl From<ParseError> for CopyRecordsError {
    ghost from_gives = { λ error copied. copied ≡ Parse error };

    fn from(error: ParseError) -> Self {
        CopyRecordsError::Parse(error)
    }
}

impl From<PushError> for CopyRecordsError {
    ghost from_gives = { λ error copied. copied ≡ Push error };

    fn from(error: PushError) -> Self {
        CopyRecordsError::Push(error)
    }
}
