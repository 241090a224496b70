//! Data of type TLSA (RFC 6698 2).
ghost use Rattle.std.specs.Prelude.{[], ◌∷◌};
ghost use Rattle.dns_fields.specs.Fields.{number8, rest16};
ghost use Rattle.dns_rdata_more.specs.Built.{Makes};
ghost use Rattle.dns_rdata_more.specs.FurtherData.{IsFieldAt};

use crate::build::build;
use crate::{BuildError, FurtherData};
use dns_fields_more::Value;
use dns_name::Octets;
use dns_rr_data::Number;
use std::alloc::Global;

/// What certificate a TLS server has.
pub type Tlsa<Octs> = FurtherData<Number<52>, Octs>;

impl<Octs: Octets> FurtherData<Number<52>, Octs> {
    /// Returns how the certificate is used.
    pub fn cert_usage(&self) -> u8
        ensures { IsFieldAt 52 self.now 0 (number8 result) }
    {
        self.number8_at(0)
    }

    /// Returns which part of the certificate is compared.
    pub fn selector(&self) -> u8
        ensures { IsFieldAt 52 self.now 1 (number8 result) }
    {
        self.number8_at(1)
    }

    /// Returns how the part is given: as it is, or by a digest.
    pub fn matching_type(&self) -> u8
        ensures { IsFieldAt 52 self.now 2 (number8 result) }
    {
        self.number8_at(2)
    }

    /// Returns the part of the certificate, or its digest.
    pub fn cert_association_data(&self) -> &[u8]
        ensures { IsFieldAt 52 self.now 3 (rest16 result.now) }
    {
        self.rest16_at(3)
    }
}

impl FurtherData<Number<52>, Vec<u8>> {
    /// Returns the data of a certificate, or a part or a digest of it.
    ///
    /// Fails with `LongRecordData` only if it would have more than 65,535 octets, and otherwise with `OutOfMemory`, if out of
    /// memory.
    pub fn new(
        alloc: Global,
        cert_usage: u8,
        selector: u8,
        matching_type: u8,
        cert_association_data: &[u8],
    ) -> Result<Self, BuildError>
        ensures { Makes (number8 cert_usage ∷ number8 selector ∷ number8 matching_type
            ∷ rest16 cert_association_data.now ∷ []) result }
    {
        build(
            alloc,
            &[
                Value::Number8(cert_usage),
                Value::Number8(selector),
                Value::Number8(matching_type),
                Value::Rest(cert_association_data),
            ],
        )
    }
}
