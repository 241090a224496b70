//! Data of type RRSIG (RFC 4034 3).
ghost use Rattle.std.specs.Prelude.{[], ◌∷◌};
ghost use Rattle.dns_fields.specs.Fields.{number16, number32, number8, rest64, uncompressed};
ghost use Rattle.dns_rdata_more.specs.Built.{Makes};
ghost use Rattle.dns_rdata_more.specs.FurtherData.{IsFieldAt};

use crate::build::{build, name_value};
use crate::{BuildError, FurtherData};
use dns_fields_more::Value;
use dns_name::{Name, Octets, Rtype, Serial, Ttl};
use dns_rr_data::Number;
use std::alloc::Global;

/// A signature over the records of an owner and a type.
pub type Rrsig<Octs> = FurtherData<Number<46>, Octs>;

impl<Octs: Octets> FurtherData<Number<46>, Octs> {
    /// Returns the type of the records.
    pub fn type_covered(&self) -> Rtype
        ensures { IsFieldAt 46 self.now 0 (number16 result) }
    {
        Rtype::from_int(self.number16_at(0))
    }

    /// Returns the number of the algorithm.
    pub fn algorithm(&self) -> u8
        ensures { IsFieldAt 46 self.now 1 (number8 result) }
    {
        self.number8_at(1)
    }

    /// Returns the number of labels of the owner, without the root and a leftmost `*`.
    pub fn labels(&self) -> u8
        ensures { IsFieldAt 46 self.now 2 (number8 result) }
    {
        self.number8_at(2)
    }

    /// Returns the TTL that the records have in their zone.
    pub fn original_ttl(&self) -> Ttl
        ensures { IsFieldAt 46 self.now 3 (number32 result) }
    {
        Ttl::from_secs(self.number32_at(3))
    }

    /// Returns the time after which the signature must not be used.
    pub fn expiration(&self) -> Serial
        ensures { IsFieldAt 46 self.now 4 (number32 result) }
    {
        Serial(self.number32_at(4))
    }

    /// Returns the time before which the signature must not be used.
    pub fn inception(&self) -> Serial
        ensures { IsFieldAt 46 self.now 5 (number32 result) }
    {
        Serial(self.number32_at(5))
    }

    /// Returns the number by which the key is found faster (RFC 4034 B).
    pub fn key_tag(&self) -> u16
        ensures { IsFieldAt 46 self.now 6 (number16 result) }
    {
        self.number16_at(6)
    }

    /// Returns the name of the zone whose key signed.
    pub fn signer_name(&self) -> Name<&[u8]>
        ensures { IsFieldAt 46 self.now 7 (uncompressed result) }
    {
        self.name_at(7)
    }

    /// Returns the signature.
    pub fn signature(&self) -> &[u8]
        ensures { IsFieldAt 46 self.now 8 (rest64 result.now) }
    {
        self.rest64_at(8)
    }
}

impl FurtherData<Number<46>, Vec<u8>> {
    /// Returns the data of a signature and what it is over.
    ///
    /// Fails with `LongRecordData` only if it would have more than 65,535 octets, and otherwise with `OutOfMemory`, if out of
    /// memory.
    pub fn new<'a, N: Octets>(
        alloc: Global,
        type_covered: Rtype,
        algorithm: u8,
        labels: u8,
        original_ttl: Ttl,
        expiration: Serial,
        inception: Serial,
        key_tag: u16,
        signer_name: &'a Name<N>,
        signature: &'a [u8],
    ) -> Result<Self, BuildError>
        ensures { Makes (number16 type_covered ∷ number8 algorithm ∷ number8 labels ∷ number32 original_ttl
            ∷ number32 expiration ∷ number32 inception ∷ number16 key_tag ∷ uncompressed signer_name.now
            ∷ rest64 signature.now ∷ []) result }
    {
        build(
            alloc,
            &[
                Value::Number16(type_covered.to_int()),
                Value::Number8(algorithm),
                Value::Number8(labels),
                Value::Number32(original_ttl.as_secs()),
                Value::Number32(expiration.into_int()),
                Value::Number32(inception.into_int()),
                Value::Number16(key_tag),
                name_value(signer_name),
                Value::Rest(signature),
            ],
        )
    }
}
