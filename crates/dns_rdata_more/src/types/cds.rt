//! Data of type CDS (RFC 7344 3.1).
ghost use Rattle.std.specs.Prelude.{[], ◌∷◌};
ghost use Rattle.dns_fields.specs.Fields.{number16, number8, rest16};
ghost use Rattle.dns_rdata_more.specs.Built.{Makes};
ghost use Rattle.dns_rdata_more.specs.FurtherData.{IsFieldAt};

use crate::build::build;
use crate::{BuildError, FurtherData};
use dns_fields_more::Value;
use dns_name::Octets;
use dns_rr_data::Number;
use std::alloc::Global;

/// The DS record that the parent zone is to have.
pub type Cds<Octs> = FurtherData<Number<59>, Octs>;

impl<Octs: Octets> FurtherData<Number<59>, Octs> {
    /// Returns the number by which the key is found faster (RFC 4034 B).
    pub fn key_tag(&self) -> u16
        ensures { IsFieldAt 59 self.now 0 (number16 result) }
    {
        self.number16_at(0)
    }

    /// Returns the number of the key's algorithm.
    pub fn algorithm(&self) -> u8
        ensures { IsFieldAt 59 self.now 1 (number8 result) }
    {
        self.number8_at(1)
    }

    /// Returns the number of the digest's algorithm.
    pub fn digest_type(&self) -> u8
        ensures { IsFieldAt 59 self.now 2 (number8 result) }
    {
        self.number8_at(2)
    }

    /// Returns the digest of the key.
    pub fn digest(&self) -> &[u8]
        ensures { IsFieldAt 59 self.now 3 (rest16 result.now) }
    {
        self.rest16_at(3)
    }
}

impl FurtherData<Number<59>, Vec<u8>> {
    /// Returns the data of the digest of a key, with the numbers of the key and of the digest.
    ///
    /// Fails with `LongRecordData` only if it would have more than 65,535 octets, and otherwise with `OutOfMemory`, if out of
    /// memory.
    pub fn new(
        alloc: Global,
        key_tag: u16,
        algorithm: u8,
        digest_type: u8,
        digest: &[u8],
    ) -> Result<Self, BuildError>
        ensures { Makes (number16 key_tag ∷ number8 algorithm ∷ number8 digest_type ∷ rest16 digest.now ∷ []) result }
    {
        build(
            alloc,
            &[
                Value::Number16(key_tag),
                Value::Number8(algorithm),
                Value::Number8(digest_type),
                Value::Rest(digest),
            ],
        )
    }
}
