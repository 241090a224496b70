//! The error of a zone file.
ghost use Rattle.std.specs.Prelude.{◌≡◌};
ghost use Rattle.dns_entry_scanner.specs.EntryError.{is_memory};
ghost use Rattle.dns_zonefile.specs.Error.{line_of, reason_of};

use dns_entry_scanner::EntryError;
use thiserror::Error;

/// Why a row of a zone file is no entry, or could not be read.
#[derive(Clone, Copy, Debug, PartialEq, Eq, Error)]
#[error("line {line}: {reason}")]
pub struct Error {
    line: usize,
    reason: EntryError,
}

impl Error {
    /// Returns the error of the row that begins in this line.
    pub(crate) fn new(line: usize, reason: EntryError) -> Self
        ensures line { line_of result ≡ line }
        ensures reason { reason_of result ≡ reason }
    {
        Error { line, reason }
    }

    /// Returns the line in which the row begins, counted from 1.
    pub fn line(&self) -> usize
        ensures { result ≡ line_of self.now }
    {
        self.line
    }

    /// Returns why the row cannot be read.
    pub fn reason(&self) -> EntryError
        ensures { result ≡ reason_of self.now }
    {
        self.reason
    }

    /// Returns whether this is out of memory. The row may then still be an entry.
    pub fn is_memory(&self) -> bool
        ensures { result ≡ is_memory (reason_of self.now) }
    {
        matches!(self.reason, EntryError::OutOfMemory)
    }
}
