//! Data of type CDNSKEY (RFC 7344 3.2).
ghost use Rattle.std.specs.Prelude.{[], ◌∷◌};
ghost use Rattle.dns_fields.specs.Fields.{number16, number8, rest64};
ghost use Rattle.dns_rdata_more.specs.Built.{Makes};
ghost use Rattle.dns_rdata_more.specs.FurtherData.{IsFieldAt};

use crate::build::build;
use crate::{BuildError, FurtherData};
use dns_fields_more::Value;
use dns_name::Octets;
use dns_rr_data::Number;
use std::alloc::Global;

/// The DNSKEY record of which the parent zone is to have a DS record.
pub type Cdnskey<Octs> = FurtherData<Number<60>, Octs>;

impl<Octs: Octets> FurtherData<Number<60>, Octs> {
    /// Returns the flags of the key.
    pub fn flags(&self) -> u16
        ensures { IsFieldAt 60 self.now 0 (number16 result) }
    {
        self.number16_at(0)
    }

    /// Returns the protocol, which is 3.
    pub fn protocol(&self) -> u8
        ensures { IsFieldAt 60 self.now 1 (number8 result) }
    {
        self.number8_at(1)
    }

    /// Returns the number of the key's algorithm.
    pub fn algorithm(&self) -> u8
        ensures { IsFieldAt 60 self.now 2 (number8 result) }
    {
        self.number8_at(2)
    }

    /// Returns the public key.
    pub fn public_key(&self) -> &[u8]
        ensures { IsFieldAt 60 self.now 3 (rest64 result.now) }
    {
        self.rest64_at(3)
    }
}

impl FurtherData<Number<60>, Vec<u8>> {
    /// Returns the data of a public key.
    ///
    /// Fails with `LongRecordData` only if it would have more than 65,535 octets, and otherwise with `OutOfMemory`, if out of
    /// memory.
    pub fn new(
        alloc: Global,
        flags: u16,
        protocol: u8,
        algorithm: u8,
        public_key: &[u8],
    ) -> Result<Self, BuildError>
        ensures { Makes (number16 flags ∷ number8 protocol ∷ number8 algorithm ∷ rest64 public_key.now ∷ []) result }
    {
        build(
            alloc,
            &[
                Value::Number16(flags),
                Value::Number8(protocol),
                Value::Number8(algorithm),
                Value::Rest(public_key),
            ],
        )
    }
}
