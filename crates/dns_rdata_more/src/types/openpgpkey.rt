//! Data of type OPENPGPKEY (RFC 7929 2).
ghost use Rattle.std.specs.Prelude.{[], ◌∷◌};
ghost use Rattle.dns_fields.specs.Fields.{rest64};
ghost use Rattle.dns_rdata_more.specs.Built.{Makes};
ghost use Rattle.dns_rdata_more.specs.FurtherData.{IsFieldAt};

use crate::build::build;
use crate::{BuildError, FurtherData};
use dns_fields_more::Value;
use dns_name::Octets;
use dns_rr_data::Number;
use std::alloc::Global;

/// The OpenPGP key of a mail address.
pub type Openpgpkey<Octs> = FurtherData<Number<61>, Octs>;

impl<Octs: Octets> FurtherData<Number<61>, Octs> {
    /// Returns the key.
    pub fn key(&self) -> &[u8]
        ensures { IsFieldAt 61 self.now 0 (rest64 result.now) }
    {
        self.rest64_at(0)
    }
}

impl FurtherData<Number<61>, Vec<u8>> {
    /// Returns the data of a key.
    ///
    /// Fails with `LongRecordData` only if it would have more than 65,535 octets, and otherwise with `OutOfMemory`, if out of
    /// memory.
    pub fn new(alloc: Global, key: &[u8]) -> Result<Self, BuildError>
        ensures { Makes (rest64 key.now ∷ []) result }
    {
        build(alloc, &[Value::Rest(key)])
    }
}
