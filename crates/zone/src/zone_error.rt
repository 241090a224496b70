//! The error of a text that is not a zone's.
ghost use Rattle.std.specs.Prelude.{◌≡◌};
ghost use Rattle.zone.specs.declared.zone_error.ZoneError.TheVariants as zone_error;

use std::alloc::AllocError;
use thiserror::Error;

/// The first rule that a text breaks. The class comes first. Then comes the first entry that breaks a rule, with the
/// first of the rules `Text` to `Unspellable` that it breaks. Last comes the rule that there is a record. Entries are
/// numbered from 1; records, includes and directives count.
#[derive(Clone, Copy, Debug, PartialEq, Eq, Error)]
pub enum ZoneError {
    /// The class is ANY. No zone has it.
    #[error("class ANY")]
    ClassAny,
    /// The entry cannot be parsed.
    #[error("entry {0}: text")]
    Text(usize),
    /// The entry includes another file.
    #[error("entry {0}: include")]
    Include(usize),
    /// The record has unknown data that is not data of its type, which has fields (RFC 3597 5).
    #[error("entry {0}: untyped data")]
    Untyped(usize),
    /// The first record is not an SOA (RFC 1035 5.2).
    #[error("entry {0}: first record is not SOA")]
    FirstNotSoa(usize),
    /// A later record is an SOA (RFC 1035 5.2).
    #[error("entry {0}: second SOA")]
    SecondSoa(usize),
    /// The record's owner is not at or under the SOA's, up to ASCII case.
    #[error("entry {0}: out of zone")]
    OutOfZone(usize),
    /// The record has an empty CAA tag, which no text can spell (RFC 8659 4.1).
    #[error("entry {0}: cannot be spelled")]
    Unspellable(usize),
    /// The text has no record.
    #[error("no SOA")]
    NoSoa,
    /// Out of memory. One variant covers every allocation; none is made for class ANY.
    #[error("out of memory")]
    OutOfMemory,
}

impl From<AllocError> for ZoneError {
    ghost from_gives = { λ _ error. error ≡ zone_error.OutOfMemory };

    fn from(_: AllocError) -> ZoneError {
        ZoneError::OutOfMemory
    }
}
