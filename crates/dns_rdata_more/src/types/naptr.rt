//! Data of type NAPTR (RFC 3403 4).
ghost use Rattle.std.specs.Prelude.{⊤, [], ◌∷◌};
ghost use Rattle.dns_fields.specs.Fields.{IsString, number16, string, uncompressed};
ghost use Rattle.dns_rdata_more.specs.Built.{MakesIf};
ghost use Rattle.dns_rdata_more.specs.FurtherData.{IsFieldAt};

use crate::build::{build, name_value, string_value};
use crate::{BuildError, FurtherData};
use dns_fields_more::Value;
use dns_name::{Name, Octets};
use dns_rr_data::Number;
use std::alloc::Global;

/// A rule by which a string is rewritten.
pub type Naptr<Octs> = FurtherData<Number<35>, Octs>;

impl<Octs: Octets> FurtherData<Number<35>, Octs> {
    /// Returns the place of the rule: the lowest number comes first.
    pub fn order(&self) -> u16
        ensures { IsFieldAt 35 self.now 0 (number16 result) }
    {
        self.number16_at(0)
    }

    /// Returns the place of the rule among those of its order.
    pub fn preference(&self) -> u16
        ensures { IsFieldAt 35 self.now 1 (number16 result) }
    {
        self.number16_at(1)
    }

    /// Returns the flags of the rule.
    pub fn flags(&self) -> &[u8]
        ensures { IsFieldAt 35 self.now 2 (string result.now) }
    {
        self.string_at(2)
    }

    /// Returns the services that are found so.
    pub fn services(&self) -> &[u8]
        ensures { IsFieldAt 35 self.now 3 (string result.now) }
    {
        self.string_at(3)
    }

    /// Returns the expression that rewrites the string.
    pub fn regexp(&self) -> &[u8]
        ensures { IsFieldAt 35 self.now 4 (string result.now) }
    {
        self.string_at(4)
    }

    /// Returns the name that takes the place of the string.
    pub fn replacement(&self) -> Name<&[u8]>
        ensures { IsFieldAt 35 self.now 5 (uncompressed result) }
    {
        self.name_at(5)
    }
}

impl FurtherData<Number<35>, Vec<u8>> {
    /// Returns the data of a rule.
    ///
    /// Fails with `LongString` exactly if a string has more than 255 octets, and otherwise with `OutOfMemory`, if out of memory.
    pub fn new<'a, N: Octets>(
        alloc: Global,
        order: u16,
        preference: u16,
        flags: &'a [u8],
        services: &'a [u8],
        regexp: &'a [u8],
        replacement: &'a Name<N>,
    ) -> Result<Self, BuildError>
        ensures { MakesIf (IsString flags.now × IsString services.now × IsString regexp.now) ⊤
            (number16 order ∷ number16 preference ∷ string flags.now ∷ string services.now ∷ string regexp.now
            ∷ uncompressed replacement.now ∷ []) result }
    {
        let flags = string_value(flags)?;
        let services = string_value(services)?;
        let regexp = string_value(regexp)?;
        build(
            alloc,
            &[
                Value::Number16(order),
                Value::Number16(preference),
                flags,
                services,
                regexp,
                name_value(replacement),
            ],
        )
    }
}
