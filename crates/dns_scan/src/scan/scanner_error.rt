//! Why tokens are not what was scanned for.
ghost use Rattle.std.specs.Prelude.{◌≡◌, Bool, true, false};

use thiserror::Error;

/// The error of a scanner.
///
/// `is_short` is true exactly for the lack of room or memory, and `is_end` exactly for the lack of a token.
pub trait ScannerError: Sized {
    ghost is_short: { Self → Bool };

    ghost is_end: { Self → Bool };

    /// A token is not what was scanned for, as the message says.
    fn custom(message: &'static str) -> Self
        ensures short { is_short result ≡ false }
        ensures end { is_end result ≡ false };

    /// There are no tokens left.
    fn end_of_entry() -> Self
        ensures short { is_short result ≡ false }
        ensures end { is_end result ≡ true };

    /// There is no room or no memory for the value.
    fn short_buf() -> Self
        ensures short { is_short result ≡ true }
        ensures end { is_end result ≡ false };

    /// There are tokens left after the value.
    fn trailing_tokens() -> Self
        ensures short { is_short result ≡ false }
        ensures end { is_end result ≡ false };
}

/// A scanner's error that shows a text.
#[derive(Clone, Copy, Debug, PartialEq, Eq, Error)]
pub enum StrError {
    /// A token is not what was scanned for.
    #[error("{0}")]
    Custom(&'static str),
    /// There are no tokens left.
    #[error("unexpected end of entry")]
    EndOfEntry,
    /// There is no room or no memory for the value.
    #[error("short buffer")]
    ShortBuf,
    /// There are tokens left after the value.
    #[error("trailing tokens")]
    TrailingTokens,
}

impl ScannerError for StrError {
    ghost use Rattle.dns_scan.specs.StrError.{is_short, is_end};
    ghost use Rattle.dns_scan.specs.declared.scan.scanner_error.StrError.TheVariants.{Custom, EndOfEntry, ShortBuf, TrailingTokens};

    ghost is_short = { is_short };

    ghost is_end = { is_end };

    fn custom(message: &'static str) -> Self
        ensures short { is_short result ≡ false }
        ensures end { is_end result ≡ false }
        ensures is { result ≡ Custom message.entry }
    {
        StrError::Custom(message)
    }

    fn end_of_entry() -> Self
        ensures short { is_short result ≡ false }
        ensures end { is_end result ≡ true }
        ensures is { result ≡ EndOfEntry }
    {
        StrError::EndOfEntry
    }

    fn short_buf() -> Self
        ensures short { is_short result ≡ true }
        ensures end { is_end result ≡ false }
        ensures is { result ≡ ShortBuf }
    {
        StrError::ShortBuf
    }

    fn trailing_tokens() -> Self
        ensures short { is_short result ≡ false }
        ensures end { is_end result ≡ false }
        ensures is { result ≡ TrailingTokens }
    {
        StrError::TrailingTokens
    }
}
