//! Why a zone is not sent.
ghost use Rattle.std.specs.Prelude.{◌≡◌};
ghost use Rattle.zone_send.specs.declared.sending.error.SendError.TheVariants.{OutOfMemory};

use std::alloc::AllocError;
use thiserror::Error;
use zone_core::QueryError;

/// The first rule that is broken, in the order of the variants.
#[derive(Clone, Copy, Debug, PartialEq, Eq, Error)]
pub enum SendError {
    /// The query breaks a rule.
    #[error("{0}")]
    Query(QueryError),
    /// The query's name is not the apex, up to ASCII case, or its class is not the zone's.
    #[error("wrong zone")]
    WrongZone,
    /// The record with this number, counted from 1 with the SOA again as the last, fits in no message.
    #[error("record {0} does not fit")]
    Record(usize),
    /// Out of memory; the query asks for the zone.
    #[error("out of memory")]
    OutOfMemory,
}

impl From<AllocError> for SendError {
    ghost from_gives = { λ _ error. error ≡ OutOfMemory };

    fn from(_: AllocError) -> SendError {
        SendError::OutOfMemory
    }
}
