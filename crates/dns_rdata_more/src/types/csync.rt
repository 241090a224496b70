//! Data of type CSYNC (RFC 7477 2).
ghost use Rattle.std.specs.Prelude.{⊤, [], ◌∷◌};
ghost use Rattle.dns_fields.specs.Fields.{number16, number32, rest16};
ghost use Rattle.dns_rdata_more.specs.Built.{MakesTypes};
ghost use Rattle.dns_rdata_more.specs.FurtherData.{IsFieldAt};

use crate::build::{bitmap_of, build_with};
use crate::{BuildError, FurtherData, RtypeBitmap};
use dns_fields_more::Value;
use dns_name::{Octets, Rtype, Serial};
use dns_rr_data::Number;
use std::alloc::Global;

/// Which records of a child zone its parent is to copy.
pub type Csync<Octs> = FurtherData<Number<62>, Octs>;

impl<Octs: Octets> FurtherData<Number<62>, Octs> {
    /// Returns the serial of the child zone from which on the records are copied.
    pub fn serial(&self) -> Serial
        ensures { IsFieldAt 62 self.now 0 (number32 result) }
    {
        Serial(self.number32_at(0))
    }

    /// Returns the flags: copy at once, and compare the serial.
    pub fn flags(&self) -> u16
        ensures { IsFieldAt 62 self.now 1 (number16 result) }
    {
        self.number16_at(1)
    }

    /// Returns the bitmap of the types that are copied.
    pub fn types(&self) -> RtypeBitmap<'_>
        ensures { IsFieldAt 62 self.now 2 (rest16 result) }
    {
        self.types_at(2)
    }
}

impl FurtherData<Number<62>, Vec<u8>> {
    /// Returns the data of the types that the parent zone is to copy, which may be in any order.
    ///
    /// Fails with `LongRecordData` only if it would have more than 65,535 octets, and otherwise with `OutOfMemory`, if out of
    /// memory.
    pub fn new(
        alloc: Global,
        serial: Serial,
        flags: u16,
        types: &[Rtype],
    ) -> Result<Self, BuildError>
        ensures { MakesTypes types.now ⊤ ⊤ (λ bitmap. number32 serial ∷ number16 flags ∷ rest16 bitmap ∷ []) result }
    {
        let bitmap = bitmap_of(alloc, types)?;
        build_with(
            alloc,
            &[Value::Number32(serial.into_int()), Value::Number16(flags)],
            bitmap.as_slice(),
        )
    }
}
