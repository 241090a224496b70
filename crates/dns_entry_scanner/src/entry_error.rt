//! The error of a row that is no entry of a zone file.
use dns_scan::ScannerError;
use std::alloc::AllocError;
use thiserror::Error;

/// Why the tokens of a row are no entry of a zone file.
#[derive(Clone, Copy, Debug, PartialEq, Eq, Error)]
pub enum EntryError {
    /// The row is no entry. The text says why.
    #[error("{0}")]
    Custom(&'static str),
    /// The row ends where a token is required.
    #[error("unexpected end of entry")]
    EndOfEntry,
    /// There are tokens after the end of the entry.
    #[error("trailing tokens")]
    TrailingTokens,
    /// Out of memory.
    #[error("out of memory")]
    OutOfMemory,
}

impl From<AllocError> for EntryError {
    ghost use Rattle.std.specs.Prelude.{◌≡◌};
    ghost use Rattle.dns_entry_scanner.specs.declared.entry_error.EntryError.TheVariants.{OutOfMemory};

    ghost from_gives = { λ _ error. error ≡ OutOfMemory };

    fn from(_: AllocError) -> EntryError {
        EntryError::OutOfMemory
    }
}

impl ScannerError for EntryError {
    ghost use Rattle.std.specs.Prelude.{◌≡◌, true, false};
    ghost use Rattle.dns_entry_scanner.specs.EntryError.{is_memory, is_end};
    ghost use Rattle.dns_entry_scanner.specs.declared.entry_error.EntryError.TheVariants.{Custom, EndOfEntry, OutOfMemory, TrailingTokens};

    ghost is_short = { is_memory };

    ghost is_end = { is_end };

    fn custom(message: &'static str) -> Self
        ensures short { is_memory result ≡ false }
        ensures end { is_end result ≡ false }
        ensures is { result ≡ Custom message.entry }
    {
        EntryError::Custom(message)
    }

    fn end_of_entry() -> Self
        ensures short { is_memory result ≡ false }
        ensures end { is_end result ≡ true }
        ensures is { result ≡ EndOfEntry }
    {
        EntryError::EndOfEntry
    }

    fn short_buf() -> Self
        ensures short { is_memory result ≡ true }
        ensures end { is_end result ≡ false }
        ensures is { result ≡ OutOfMemory }
    {
        EntryError::OutOfMemory
    }

    fn trailing_tokens() -> Self
        ensures short { is_memory result ≡ false }
        ensures end { is_end result ≡ false }
        ensures is { result ≡ TrailingTokens }
    {
        EntryError::TrailingTokens
    }
}
