//! Errors of parsing a record from text or converting it.
use std::fmt::Display;
use thiserror::Error;

/// Why a record is not parsed. Its name fails with an `N`, its data with a `D`.
#[derive(Clone, Copy, Debug, PartialEq, Eq, Drop, Error)]
#[error_bound(N: Display, D: Display)]
pub enum RecordParseError<N, D> {
    /// The name is bad.
    #[error("{0}")]
    Name(N),
    /// The data is bad.
    #[error("{0}")]
    Data(D),
    /// There is no room for the record.
    #[error("unexpected end of buffer")]
    ShortBuf,
}
