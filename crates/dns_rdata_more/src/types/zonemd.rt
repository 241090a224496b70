//! Data of type ZONEMD (RFC 8976 2).
ghost use Rattle.std.specs.Prelude.{[], ◌∷◌};
ghost use Rattle.dns_fields.specs.Fields.{number32, number8, rest16};
ghost use Rattle.dns_rdata_more.specs.Built.{Makes};
ghost use Rattle.dns_rdata_more.specs.FurtherData.{IsFieldAt};

use crate::build::build;
use crate::{BuildError, FurtherData};
use dns_fields_more::Value;
use dns_name::{Octets, Serial};
use dns_rr_data::Number;
use std::alloc::Global;

/// A digest over a zone.
pub type Zonemd<Octs> = FurtherData<Number<63>, Octs>;

impl<Octs: Octets> FurtherData<Number<63>, Octs> {
    /// Returns the serial of the zone that the digest is over.
    pub fn serial(&self) -> Serial
        ensures { IsFieldAt 63 self.now 0 (number32 result) }
    {
        Serial(self.number32_at(0))
    }

    /// Returns how the records of the zone are collected.
    pub fn scheme(&self) -> u8
        ensures { IsFieldAt 63 self.now 1 (number8 result) }
    {
        self.number8_at(1)
    }

    /// Returns the number of the digest's algorithm.
    pub fn algo(&self) -> u8
        ensures { IsFieldAt 63 self.now 2 (number8 result) }
    {
        self.number8_at(2)
    }

    /// Returns the digest.
    pub fn digest(&self) -> &[u8]
        ensures { IsFieldAt 63 self.now 3 (rest16 result.now) }
    {
        self.rest16_at(3)
    }
}

impl FurtherData<Number<63>, Vec<u8>> {
    /// Returns the data of a digest over a zone.
    ///
    /// Fails with `LongRecordData` only if it would have more than 65,535 octets, and otherwise with `OutOfMemory`, if out of
    /// memory.
    pub fn new(
        alloc: Global,
        serial: Serial,
        scheme: u8,
        algo: u8,
        digest: &[u8],
    ) -> Result<Self, BuildError>
        ensures { Makes (number32 serial ∷ number8 scheme ∷ number8 algo ∷ rest16 digest.now ∷ []) result }
    {
        build(
            alloc,
            &[
                Value::Number32(serial.into_int()),
                Value::Number8(scheme),
                Value::Number8(algo),
                Value::Rest(digest),
            ],
        )
    }
}
