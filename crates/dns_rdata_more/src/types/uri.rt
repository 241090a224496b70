//! Data of type URI (RFC 7553 4).
ghost use Rattle.std.specs.Prelude.{[], ◌∷◌};
ghost use Rattle.dns_fields.specs.Fields.{number16, rest_text};
ghost use Rattle.dns_rdata_more.specs.Built.{Makes};
ghost use Rattle.dns_rdata_more.specs.FurtherData.{IsFieldAt};

use crate::build::build;
use crate::{BuildError, FurtherData};
use dns_fields_more::Value;
use dns_name::Octets;
use dns_rr_data::Number;
use std::alloc::Global;

/// Where a service is, as a URI.
pub type Uri<Octs> = FurtherData<Number<256>, Octs>;

impl<Octs: Octets> FurtherData<Number<256>, Octs> {
    /// Returns the place of the URI: the lowest number comes first.
    pub fn priority(&self) -> u16
        ensures { IsFieldAt 256 self.now 0 (number16 result) }
    {
        self.number16_at(0)
    }

    /// Returns which part the URI takes among those of its priority.
    pub fn weight(&self) -> u16
        ensures { IsFieldAt 256 self.now 1 (number16 result) }
    {
        self.number16_at(1)
    }

    /// Returns the URI.
    pub fn target(&self) -> &[u8]
        ensures { IsFieldAt 256 self.now 2 (rest_text result.now) }
    {
        self.rest_text_at(2)
    }
}

impl FurtherData<Number<256>, Vec<u8>> {
    /// Returns the data of a URI and how it is preferred.
    ///
    /// Fails with `LongRecordData` only if it would have more than 65,535 octets, and otherwise with `OutOfMemory`, if out of
    /// memory.
    pub fn new(alloc: Global, priority: u16, weight: u16, target: &[u8]) -> Result<Self, BuildError>
        ensures { Makes (number16 priority ∷ number16 weight ∷ rest_text target.now ∷ []) result }
    {
        build(
            alloc,
            &[
                Value::Number16(priority),
                Value::Number16(weight),
                Value::Rest(target),
            ],
        )
    }
}
