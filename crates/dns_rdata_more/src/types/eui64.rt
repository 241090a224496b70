//! Data of type EUI64 (RFC 7043 4).
ghost use Rattle.std.specs.Prelude.{[], ◌∷◌};
ghost use Rattle.dns_fields.specs.Fields.{rest16};
ghost use Rattle.dns_rdata_more.specs.Built.{Makes};
ghost use Rattle.dns_rdata_more.specs.FurtherData.{IsFieldAt};

use crate::build::build;
use crate::{BuildError, FurtherData};
use dns_fields_more::Value;
use dns_name::Octets;
use dns_rr_data::Number;
use std::alloc::Global;

/// A hardware address of eight octets.
pub type Eui64<Octs> = FurtherData<Number<109>, Octs>;

impl<Octs: Octets> FurtherData<Number<109>, Octs> {
    /// Returns the eight octets of the address.
    pub fn address(&self) -> &[u8]
        ensures { IsFieldAt 109 self.now 0 (rest16 result.now) }
    {
        self.rest16_at(0)
    }
}

impl FurtherData<Number<109>, Vec<u8>> {
    /// Returns the data of an address.
    ///
    /// Fails with `OutOfMemory` if out of memory.
    pub fn new(alloc: Global, address: &[u8; 8]) -> Result<Self, BuildError>
        ensures { Makes (rest16 address.now ∷ []) result }
    {
        build(alloc, &[Value::Rest(address)])
    }
}
