//! Why a stream is not a transfer.
ghost use Rattle.std.specs.Prelude.{◌≡◌};
ghost use Rattle.zone_receive.specs.declared.error.ReceiveError.TheVariants.{OutOfMemory};

use std::alloc::AllocError;
use thiserror::Error;
use zone_core::QueryError;

/// The first rule that is broken. A message is checked against the rules `Short` to `Question` in this order, then each
/// of its records against the rules `Record` to `Unspellable`, and then against `Trailing`. Records are counted from 1
/// through all messages.
#[derive(Clone, Copy, Debug, PartialEq, Eq, Error)]
pub enum ReceiveError {
    /// The query breaks a rule.
    #[error("{0}")]
    Query(QueryError),
    /// A message has fewer than the 12 octets of a header.
    #[error("short message")]
    Short,
    /// The ID is not the query's.
    #[error("wrong id")]
    Id,
    /// The message is not a response: QR is clear.
    #[error("not a response")]
    NotResponse,
    /// The opcode is not 0 (QUERY).
    #[error("wrong opcode")]
    Opcode,
    /// The server returns an error: the response code is this, and not 0.
    #[error("rcode {0}")]
    Rcode(u8),
    /// There are authority or additional records, or more than one question.
    #[error("wrong counts")]
    Counts,
    /// The first message has no question, or a message has one that cannot be parsed or is not the query's.
    #[error("wrong question")]
    Question,
    /// The record cannot be parsed.
    #[error("record {0}: malformed")]
    Record(usize),
    /// The first record is not an SOA of the query's name.
    #[error("first record is not the SOA")]
    FirstNotSoa,
    /// The record's class is not the query's.
    #[error("record {0}: wrong class")]
    Class(usize),
    /// The record's owner is not at or under the query's name, up to ASCII case.
    #[error("record {0}: out of zone")]
    OutOfZone(usize),
    /// A later SOA differs from the first.
    #[error("record {0}: SOA differs")]
    SoaDiffers(usize),
    /// The record follows the last SOA in its message.
    #[error("record {0}: behind the last SOA")]
    AfterLast(usize),
    /// The record's data has no text form: the tag of a CAA record is empty.
    #[error("record {0}: cannot be spelled")]
    Unspellable(usize),
    /// Octets follow the records that a message counts.
    #[error("trailing octets")]
    Trailing,
    /// The last SOA has not come.
    #[error("unfinished")]
    Unfinished,
    /// Out of memory. One variant covers every allocation.
    #[error("out of memory")]
    OutOfMemory,
}

impl From<AllocError> for ReceiveError {
    ghost from_gives = { λ _ error. error ≡ OutOfMemory };

    fn from(_: AllocError) -> ReceiveError {
        ReceiveError::OutOfMemory
    }
}
