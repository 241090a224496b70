//! Data of type NSEC (RFC 4034 4).
ghost use Rattle.std.specs.Prelude.{⊤, [], ◌∷◌};
ghost use Rattle.dns_fields.specs.Fields.{rest16, uncompressed};
ghost use Rattle.dns_rdata_more.specs.Built.{MakesTypes};
ghost use Rattle.dns_rdata_more.specs.FurtherData.{IsFieldAt};

use crate::build::{bitmap_of, build_with, name_value};
use crate::{BuildError, FurtherData, RtypeBitmap};
use dns_name::{Name, Octets, Rtype};
use dns_rr_data::Number;
use std::alloc::Global;

/// The next name of a zone, and the types of the owner.
pub type Nsec<Octs> = FurtherData<Number<47>, Octs>;

impl<Octs: Octets> FurtherData<Number<47>, Octs> {
    /// Returns the next owner in canonical order.
    pub fn next_name(&self) -> Name<&[u8]>
        ensures { IsFieldAt 47 self.now 0 (uncompressed result) }
    {
        self.name_at(0)
    }

    /// Returns the bitmap of the types that the owner has.
    pub fn types(&self) -> RtypeBitmap<'_>
        ensures { IsFieldAt 47 self.now 1 (rest16 result) }
    {
        self.types_at(1)
    }
}

impl FurtherData<Number<47>, Vec<u8>> {
    /// Returns the data of the next name of a zone and the types of the owner, which may be in any order.
    ///
    /// Fails with `LongRecordData` only if it would have more than 65,535 octets, and otherwise with `OutOfMemory`, if out of
    /// memory.
    pub fn new<N: Octets>(
        alloc: Global,
        next_name: &Name<N>,
        types: &[Rtype],
    ) -> Result<Self, BuildError>
        ensures { MakesTypes types.now ⊤ ⊤ (λ bitmap. uncompressed next_name.now ∷ rest16 bitmap ∷ []) result }
    {
        let bitmap = bitmap_of(alloc, types)?;
        build_with(alloc, &[name_value(next_name)], bitmap.as_slice())
    }
}
