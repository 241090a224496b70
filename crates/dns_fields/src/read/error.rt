//! Why data was not read.
ghost use Rattle.std.specs.Prelude.{◌≡◌, ◌≢◌, ◌↔◌};
ghost use Rattle.dns_fields.specs.declared.read.error.ReadError.TheVariants as read_error;
ghost use Rattle.dns_octets.specs.declared.error.ParseError.TheVariants as parse_error;

use dns_name::{LongRecordData, ParseError, ShortInput};
use thiserror::Error;

/// Why the octets are no data of a type.
#[derive(Clone, Copy, Debug, PartialEq, Eq, Error)]
pub enum ReadError {
    /// They end before the data does.
    #[error("unexpected end of input")]
    ShortInput,
    /// There is no name where there should be one.
    #[error("bad name in record data")]
    BadName,
    /// There are more than the data has.
    #[error("trailing data")]
    TrailingData,
    /// The data is longer than 65,535 octets.
    #[error("record data too long")]
    LongRecordData,
}

impl ReadError {
    /// The error of a name that was not read.
    pub(crate) fn of_name(error: ParseError) -> Self
        ensures short { (result ≡ read_error.ShortInput) ↔ (error ≡ parse_error.ShortInput) }
        ensures not_long { result ≢ read_error.LongRecordData }
    {
        match error {
            ParseError::ShortInput => ReadError::ShortInput,
            ParseError::Form(_) => ReadError::BadName,
        }
    }
}

impl From<ShortInput> for ReadError {
    ghost from_gives = { λ _ error. error ≡ read_error.ShortInput };

    fn from(_: ShortInput) -> ReadError {
        ReadError::ShortInput
    }
}

/// Input that is too short stays so; all else is an error of the form.
impl From<ReadError> for ParseError {
    ghost from_gives = { λ read error. (read ≡ read_error.ShortInput) ↔ (error ≡ parse_error.ShortInput) };

    fn from(error: ReadError) -> ParseError {
        match error {
            ReadError::ShortInput => ParseError::ShortInput,
            ReadError::BadName => ParseError::form_error("bad name in record data"),
            ReadError::TrailingData => ParseError::form_error("trailing data"),
            ReadError::LongRecordData => LongRecordData.into(),
        }
    }
}
