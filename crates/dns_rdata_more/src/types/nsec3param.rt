//! Data of type NSEC3PARAM (RFC 5155 4).
ghost use Rattle.std.specs.Prelude.{⊤, [], ◌∷◌};
ghost use Rattle.dns_fields.specs.Fields.{IsString, number16, number8, string};
ghost use Rattle.dns_rdata_more.specs.Built.{MakesIf};
ghost use Rattle.dns_rdata_more.specs.FurtherData.{IsFieldAt};

use crate::build::{build, string_value};
use crate::{BuildError, FurtherData};
use dns_fields_more::Value;
use dns_name::Octets;
use dns_rr_data::Number;
use std::alloc::Global;

/// How the hashes of a zone are taken.
pub type Nsec3param<Octs> = FurtherData<Number<51>, Octs>;

impl<Octs: Octets> FurtherData<Number<51>, Octs> {
    /// Returns the number of the hash algorithm.
    pub fn hash_algorithm(&self) -> u8
        ensures { IsFieldAt 51 self.now 0 (number8 result) }
    {
        self.number8_at(0)
    }

    /// Returns the flags.
    pub fn flags(&self) -> u8
        ensures { IsFieldAt 51 self.now 1 (number8 result) }
    {
        self.number8_at(1)
    }

    /// Returns how often the hash is taken again.
    pub fn iterations(&self) -> u16
        ensures { IsFieldAt 51 self.now 2 (number16 result) }
    {
        self.number16_at(2)
    }

    /// Returns the salt of the hash.
    pub fn salt(&self) -> &[u8]
        ensures { IsFieldAt 51 self.now 3 (string result.now) }
    {
        self.string_at(3)
    }
}

impl FurtherData<Number<51>, Vec<u8>> {
    /// Returns the data of how the hashes of a zone are taken.
    ///
    /// Fails with `LongString` exactly if a string has more than 255 octets, and otherwise with `OutOfMemory`, if out of memory.
    pub fn new(
        alloc: Global,
        hash_algorithm: u8,
        flags: u8,
        iterations: u16,
        salt: &[u8],
    ) -> Result<Self, BuildError>
        ensures { MakesIf (IsString salt.now) ⊤ (number8 hash_algorithm ∷ number8 flags ∷ number16 iterations
            ∷ string salt.now ∷ []) result }
    {
        let salt = string_value(salt)?;
        build(
            alloc,
            &[
                Value::Number8(hash_algorithm),
                Value::Number8(flags),
                Value::Number16(iterations),
                salt,
            ],
        )
    }
}
