//! The first field of a record's data that cannot be read.
ghost use Rattle.std.specs.Prelude.{◌≡◌, IfOk, IfSome};
ghost use Rattle.dns_fields.specs.Scanned.{NoRowScans};

use crate::outcome::is_want_of_memory;
use crate::reason::Wanted;
use dns_entry_scanner::EntryError;
use dns_name::{FromBuilder, ToName};
use dns_rdata::rows::{
    Compressible, HasField, HasFields, Last, LastValue, Rest16, Rest64, RestText, ScanField,
    ScanRow, Strings, Tag, Uncompressed,
};
use dns_text::{CharStr, Scanner};
use std::alloc::AllocError;
use std::net::{Ipv4Addr, Ipv6Addr};

/// A field that a reason may name.
pub(crate) trait WantedField: HasField {
    /// Returns what the field's token ought to be.
    fn wanted() -> Wanted;
}

/// The last field of a row that a reason may name.
pub(crate) trait WantedLast: LastValue {
    /// Returns what the field's tokens ought to be.
    fn wanted() -> Wanted;
}

/// The first field that cannot be read: how many fields are read before it, and what it ought to be.
#[derive(Clone, Copy)]
pub(crate) struct FieldFault {
    pub(crate) before: usize,
    pub(crate) wanted: Wanted,
}

/// A row whose fields are read one after another.
pub(crate) trait FirstFault<S: Scanner<Error = EntryError>>: HasFields {
    /// Returns the first field that the tokens do not spell, or None if they begin with all fields, which are then taken.
    /// Fails if out of memory.
    fn first_fault(scanner: &mut S) -> Result<Option<FieldFault>, AllocError>
        ensures { IfOk result (λ found. IfSome found (λ _. NoRowScans (S.names scanner.old) Self.kinds (S.tokens scanner.old))) };
}

impl<S: Scanner<Error = EntryError>> FirstFault<S> for () {
    fn first_fault(_scanner: &mut S) -> Result<Option<FieldFault>, AllocError> {
        Ok(None)
    }
}

impl<S: Scanner<Error = EntryError>, A: WantedField + ScanField<S>, B: FirstFault<S>> FirstFault<S>
    for (A, B) {
    fn first_fault(scanner: &mut S) -> Result<Option<FieldFault>, AllocError> {
        match A::scan_field(scanner) {
            Ok(_field) => match B::first_fault(scanner) {
                Ok(Some(fault)) => Ok(Some(FieldFault {
                    before: fault.before.saturating_add(1),
                    wanted: fault.wanted,
                })),
                Ok(None) => Ok(None),
                Err(error) => Err(error),
            },
            Err(error) if is_want_of_memory(error) => Err(AllocError),
            Err(_) => Ok(Some(FieldFault {
                before: 0,
                wanted: A::wanted(),
            })),
        }
    }
}

impl<S: Scanner<Error = EntryError>, V: WantedLast + Drop> FirstFault<S> for Last<V>
where
    Last<V>: ScanRow<S>,
{
    fn first_fault(scanner: &mut S) -> Result<Option<FieldFault>, AllocError> {
        match Last::<V>::scan_fields(scanner) {
            Ok(_row) => Ok(None),
            Err(error) if is_want_of_memory(error) => Err(AllocError),
            Err(_) => Ok(Some(FieldFault {
                before: 0,
                wanted: V::wanted(),
            })),
        }
    }
}

impl WantedField for u8 {
    fn wanted() -> Wanted {
        Wanted::Number8
    }
}

impl WantedField for u16 {
    fn wanted() -> Wanted {
        Wanted::Number16
    }
}

impl WantedField for u32 {
    fn wanted() -> Wanted {
        Wanted::Number32
    }
}

impl WantedField for Ipv4Addr {
    fn wanted() -> Wanted {
        Wanted::Ipv4Address
    }
}

impl WantedField for Ipv6Addr {
    fn wanted() -> Wanted {
        Wanted::Ipv6Address
    }
}

impl<N: ToName> WantedField for Compressible<N> {
    fn wanted() -> Wanted {
        Wanted::Name
    }
}

impl<N: ToName> WantedField for Uncompressed<N> {
    fn wanted() -> Wanted {
        Wanted::Name
    }
}

impl<Octs: FromBuilder> WantedField for CharStr<Octs> {
    fn wanted() -> Wanted {
        Wanted::CharacterString
    }
}

impl<Octs: FromBuilder> WantedField for Tag<Octs> {
    fn wanted() -> Wanted {
        Wanted::Tag
    }
}

impl<Octs: FromBuilder> WantedLast for RestText<Octs> {
    fn wanted() -> Wanted {
        Wanted::Text
    }
}

impl<Octs: FromBuilder> WantedLast for Strings<Octs> {
    fn wanted() -> Wanted {
        Wanted::CharacterString
    }
}

impl<Octs: FromBuilder> WantedLast for Rest16<Octs> {
    fn wanted() -> Wanted {
        Wanted::Base16
    }
}

impl<Octs: FromBuilder> WantedLast for Rest64<Octs> {
    fn wanted() -> Wanted {
        Wanted::Base64
    }
}
