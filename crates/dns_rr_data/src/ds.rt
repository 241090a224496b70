//! Data of type DS (RFC 4034 5.1).
ghost use Rattle.std.specs.Prelude.{◌≡◌, ◌≤◌, ◌↔◌, length, [], ◌∷◌, Some, IsOk, IfOk};
ghost use Rattle.std.proofs.Common.{refl};
ghost use Rattle.dns_fields.specs.Fields.{number8, number16, rest16, octets, field_at};

use crate::{FlattenData, HasType, Number, ParseData, RowData, RowOf, ScanData, TypedData};
use dns_fields::{HasFields, Last, Rest16};
use dns_name::{
    AppendError, EmptyBuilder, FlattenInto, FromBuilder, LongRecordData, Octets, ParseError, Parser,
};
use dns_text::Scanner;
use std::alloc::Global;
use std::marker::PhantomData;

/// A key that signs the keys of the owner, by a digest of it.
pub type Ds<Octs> = RowData<Number<43>, DsRow<Octs>>;

/// The fields of DS data: a tag, two algorithms and a digest (RFC 4034 5.1).
pub type DsRow<Octs> = (u16, (u8, (u8, Last<Rest16<Octs>>)));

impl<Octs: Octets> RowOf<Number<43>> for DsRow<Octs> {
    ghost of_type = { refl };
}

impl<Octs: Octets> RowData<Number<43>, DsRow<Octs>> {
    /// Returns the data of the digest of a key, with the numbers of the key and of the digest.
    ///
    /// Fails exactly if the data would have more than 65,535 octets.
    pub fn new(
        key_tag: u16,
        algorithm: u8,
        digest_type: u8,
        digest: Octs,
    ) -> Result<Self, LongRecordData>
    where
        Octs: Drop,
        ensures ok { IfOk result (λ rdata. rdata ≡ number16 key_tag ∷ number8 algorithm ∷ number8 digest_type ∷ rest16 (Octs.list digest) ∷ []) }
        ensures short { IsOk result ↔ (length (octets (number16 key_tag ∷ number8 algorithm ∷ number8 digest_type ∷ rest16 (Octs.list digest) ∷ [])) ≤ 65535) }
    {
        let row = (key_tag, (algorithm, (digest_type, Last(Rest16(digest)))));
        if row.fields_len().is_none() {
            return Err(LongRecordData);
        }
        Ok(RowData {
            row,
            rtype: PhantomData,
        })
    }

    /// Returns the number by which the key is found faster (RFC 4034 B).
    pub fn key_tag(&self) -> u16
        ensures { field_at 0 self.now ≡ Some (number16 result) }
    {
        let (key_tag, _) = &self.row;
        *key_tag
    }

    /// Returns the number of the key's algorithm.
    pub fn algorithm(&self) -> u8
        ensures { field_at 1 self.now ≡ Some (number8 result) }
    {
        let (_, (algorithm, _)) = &self.row;
        *algorithm
    }

    /// Returns the number of the digest's algorithm.
    pub fn digest_type(&self) -> u8
        ensures { field_at 2 self.now ≡ Some (number8 result) }
    {
        let (_, (_, (digest_type, _))) = &self.row;
        *digest_type
    }

    /// Returns the digest of the key. The data has at most 65,535 octets, so it fits into a record.
    pub fn digest(&self) -> &Octs
        ensures field { field_at 3 self.now ≡ Some (rest16 (Octs.list result.now)) }
        ensures short { length (octets self.now) ≤ 65535 }
    {
        let (_, (_, (_, digest))) = &self.row;
        &digest.0.0
    }

    /// Returns the digest of the key, without the rest. The data had at most 65,535 octets.
    pub fn into_digest(self) -> Octs
        ensures field { field_at 3 self ≡ Some (rest16 (Octs.list result)) }
        ensures short { length (octets self) ≤ 65535 }
    {
        let (_, (_, (_, digest))) = self.row;
        digest.0.0
    }
}

impl<Octs: Octets> HasType for Ds<Octs> {
    type Type = Number<43>;

    ghost held = { λ rdata. rdata };
}

impl<Octs: Octets> TypedData for Ds<Octs> {
    type Row = DsRow<Octs>;

    fn typed_row(&self) -> &DsRow<Octs> {
        &self.row
    }
}

impl<'a> ParseData<'a> for Ds<&'a [u8]> {
    fn parse_data(parser: &mut Parser<'a>) -> Result<Self, ParseError> {
        Ds::parse(parser)
    }
}

impl<Octs: FromBuilder + Drop, S: Scanner<Octets = Octs>> ScanData<S> for Ds<Octs> {
    fn scan_data(scanner: &mut S) -> Result<Self, S::Error> {
        Ds::scan(scanner)
    }
}

impl<Source: Octets + Drop, Octs: FromBuilder + Drop> FlattenData<Octs> for Ds<Source>
where
    Octs::Builder: EmptyBuilder + Drop,
{
    type Flat = Ds<Octs>;

    fn flatten_data(self, alloc: Global) -> Result<Ds<Octs>, AppendError> {
        self.try_flatten_into(alloc)
    }
}
