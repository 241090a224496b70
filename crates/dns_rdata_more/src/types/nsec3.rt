//! Data of type NSEC3 (RFC 5155 3).
ghost use Rattle.std.specs.Prelude.{◌≢◌, [], ◌∷◌};
ghost use Rattle.dns_fields.specs.Fields.{IsString, number16, number8, rest16, string};
ghost use Rattle.dns_rdata_more.specs.Built.{MakesTypes};
ghost use Rattle.dns_rdata_more.specs.FurtherData.{IsFieldAt};

use crate::build::{bitmap_of, build_with, hash_value, string_value};
use crate::{BuildError, FurtherData, RtypeBitmap};
use dns_fields_more::Value;
use dns_name::{Octets, Rtype};
use dns_rr_data::Number;
use std::alloc::Global;

/// The next hash of a zone, and the types of the owner.
pub type Nsec3<Octs> = FurtherData<Number<50>, Octs>;

impl<Octs: Octets> FurtherData<Number<50>, Octs> {
    /// Returns the number of the hash algorithm.
    pub fn hash_algorithm(&self) -> u8
        ensures { IsFieldAt 50 self.now 0 (number8 result) }
    {
        self.number8_at(0)
    }

    /// Returns the flags, of which the lowest bit is opt-out.
    pub fn flags(&self) -> u8
        ensures { IsFieldAt 50 self.now 1 (number8 result) }
    {
        self.number8_at(1)
    }

    /// Returns how often the hash is taken again.
    pub fn iterations(&self) -> u16
        ensures { IsFieldAt 50 self.now 2 (number16 result) }
    {
        self.number16_at(2)
    }

    /// Returns the salt of the hash.
    pub fn salt(&self) -> &[u8]
        ensures { IsFieldAt 50 self.now 3 (string result.now) }
    {
        self.string_at(3)
    }

    /// Returns the hash of the next owner in the order of the hashes.
    pub fn next_owner(&self) -> &[u8]
        ensures { IsFieldAt 50 self.now 4 (string result.now) }
    {
        self.string_at(4)
    }

    /// Returns the bitmap of the types that the owner has.
    pub fn types(&self) -> RtypeBitmap<'_>
        ensures { IsFieldAt 50 self.now 5 (rest16 result) }
    {
        self.types_at(5)
    }
}

impl FurtherData<Number<50>, Vec<u8>> {
    /// Returns the data of the next hash of a zone and the types of the owner, which may be in any order.
    ///
    /// Fails with `LongString` only if the salt or the hash has more than 255 octets, with `BadField` only if the hash has none, with
    /// `LongRecordData` only if the data would have more than 65,535 octets, and otherwise with `OutOfMemory`, if out of memory.
    pub fn new<'a>(
        alloc: Global,
        hash_algorithm: u8,
        flags: u8,
        iterations: u16,
        salt: &'a [u8],
        next_owner: &'a [u8],
        types: &[Rtype],
    ) -> Result<Self, BuildError>
        ensures { MakesTypes types.now (IsString salt.now × IsString next_owner.now) (next_owner.now ≢ [])
            (λ bitmap. number8 hash_algorithm ∷ number8 flags ∷ number16 iterations ∷ string salt.now
            ∷ string next_owner.now ∷ rest16 bitmap ∷ []) result }
    {
        let salt = string_value(salt)?;
        let next_owner = hash_value(next_owner)?;
        let bitmap = bitmap_of(alloc, types)?;
        build_with(
            alloc,
            &[
                Value::Number8(hash_algorithm),
                Value::Number8(flags),
                Value::Number16(iterations),
                salt,
                next_owner,
            ],
            bitmap.as_slice(),
        )
    }
}
