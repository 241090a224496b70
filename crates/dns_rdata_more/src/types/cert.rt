//! Data of type CERT (RFC 4398 2).
ghost use Rattle.std.specs.Prelude.{[], ◌∷◌};
ghost use Rattle.dns_fields.specs.Fields.{number16, number8, rest64};
ghost use Rattle.dns_rdata_more.specs.Built.{Makes};
ghost use Rattle.dns_rdata_more.specs.FurtherData.{IsFieldAt};

use crate::build::build;
use crate::{BuildError, FurtherData};
use dns_fields_more::Value;
use dns_name::Octets;
use dns_rr_data::Number;
use std::alloc::Global;

/// A certificate, or a list of revoked ones.
pub type Cert<Octs> = FurtherData<Number<37>, Octs>;

impl<Octs: Octets> FurtherData<Number<37>, Octs> {
    /// Returns the type of the certificate.
    pub fn cert_type(&self) -> u16
        ensures { IsFieldAt 37 self.now 0 (number16 result) }
    {
        self.number16_at(0)
    }

    /// Returns the number by which the key is found faster (RFC 4034 B).
    pub fn key_tag(&self) -> u16
        ensures { IsFieldAt 37 self.now 1 (number16 result) }
    {
        self.number16_at(1)
    }

    /// Returns the number of the key's algorithm.
    pub fn algorithm(&self) -> u8
        ensures { IsFieldAt 37 self.now 2 (number8 result) }
    {
        self.number8_at(2)
    }

    /// Returns the certificate, or a list of revoked ones.
    pub fn certificate(&self) -> &[u8]
        ensures { IsFieldAt 37 self.now 3 (rest64 result.now) }
    {
        self.rest64_at(3)
    }
}

impl FurtherData<Number<37>, Vec<u8>> {
    /// Returns the data of a certificate, or a list of revoked ones.
    ///
    /// Fails with `LongRecordData` only if it would have more than 65,535 octets, and otherwise with `OutOfMemory`, if out of
    /// memory.
    pub fn new(
        alloc: Global,
        cert_type: u16,
        key_tag: u16,
        algorithm: u8,
        certificate: &[u8],
    ) -> Result<Self, BuildError>
        ensures { Makes (number16 cert_type ∷ number16 key_tag ∷ number8 algorithm ∷ rest64 certificate.now ∷ []) result }
    {
        build(
            alloc,
            &[
                Value::Number16(cert_type),
                Value::Number16(key_tag),
                Value::Number8(algorithm),
                Value::Rest(certificate),
            ],
        )
    }
}
