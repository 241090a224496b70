//! Data of type LOC (RFC 1876 2).
ghost use Rattle.std.specs.Prelude.{⊤, [], ◌∷◌};
ghost use Rattle.dns_fields.specs.Fields.{rest16};
ghost use Rattle.dns_field_texts.specs.Location.{HoldsLocation};
ghost use Rattle.dns_rdata_more.specs.Built.{MakesIf};
ghost use Rattle.dns_rdata_more.specs.FurtherData.{IsFieldAt};

use crate::build::{build, last_value};
use crate::{BuildError, FurtherData};
use dns_fields_more::Form;
use dns_name::Octets;
use dns_rr_data::Number;
use std::alloc::Global;

/// Where the owner is on the earth.
pub type Loc<Octs> = FurtherData<Number<29>, Octs>;

impl<Octs: Octets> FurtherData<Number<29>, Octs> {
    /// Returns the sixteen octets of the location.
    pub fn location(&self) -> &[u8]
        ensures { IsFieldAt 29 self.now 0 (rest16 result.now) }
    {
        self.rest16_at(0)
    }
}

impl FurtherData<Number<29>, Vec<u8>> {
    /// Returns the data of a location, of its sixteen octets.
    ///
    /// Fails with `BadField` exactly if the octets are no location, and otherwise with `OutOfMemory`, if out of memory.
    pub fn new(alloc: Global, location: &[u8]) -> Result<Self, BuildError>
        ensures { MakesIf ⊤ (HoldsLocation location.now) (rest16 location.now ∷ []) result }
    {
        let location = last_value(Form::Location, location)?;
        build(alloc, &[location])
    }
}
