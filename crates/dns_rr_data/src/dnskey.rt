//! Data of type DNSKEY (RFC 4034 2).
ghost use Rattle.std.specs.Prelude.{◌≡◌, ◌≤◌, ◌↔◌, length, [], ◌∷◌, Some, IsOk, IfOk};
ghost use Rattle.std.proofs.Common.{refl};
ghost use Rattle.dns_fields.specs.Fields.{number8, number16, rest64, octets, field_at};

use crate::{FlattenData, HasType, Number, ParseData, RowData, RowOf, ScanData, TypedData};
use dns_fields::{HasFields, Last, Rest64};
use dns_name::{
    AppendError, EmptyBuilder, FlattenInto, FromBuilder, LongRecordData, Octets, ParseError, Parser,
};
use dns_text::Scanner;
use std::alloc::Global;
use std::marker::PhantomData;

/// A public key by which signatures of the zone are checked.
pub type Dnskey<Octs> = RowData<Number<48>, DnskeyRow<Octs>>;

/// The fields of DNSKEY data: flags, a protocol, an algorithm and a key (RFC 4034 2.1).
pub type DnskeyRow<Octs> = (u16, (u8, (u8, Last<Rest64<Octs>>)));

impl<Octs: Octets> RowOf<Number<48>> for DnskeyRow<Octs> {
    ghost of_type = { refl };
}

impl<Octs: Octets> RowData<Number<48>, DnskeyRow<Octs>> {
    /// Returns the data of a key and what it is for.
    ///
    /// Fails exactly if the data would have more than 65,535 octets.
    pub fn new(
        flags: u16,
        protocol: u8,
        algorithm: u8,
        public_key: Octs,
    ) -> Result<Self, LongRecordData>
    where
        Octs: Drop,
        ensures ok { IfOk result (λ rdata. rdata ≡ number16 flags ∷ number8 protocol ∷ number8 algorithm ∷ rest64 (Octs.list public_key) ∷ []) }
        ensures short { IsOk result ↔ (length (octets (number16 flags ∷ number8 protocol ∷ number8 algorithm ∷ rest64 (Octs.list public_key) ∷ [])) ≤ 65535) }
    {
        let row = (flags, (protocol, (algorithm, Last(Rest64(public_key)))));
        if row.fields_len().is_none() {
            return Err(LongRecordData);
        }
        Ok(RowData {
            row,
            rtype: PhantomData,
        })
    }

    /// Returns what the key is for, as bits (RFC 4034 2.1.1).
    pub fn flags(&self) -> u16
        ensures { field_at 0 self.now ≡ Some (number16 result) }
    {
        let (flags, _) = &self.row;
        *flags
    }

    /// Returns the number of the protocol that the key is for: 3 (RFC 4034 2.1.2).
    pub fn protocol(&self) -> u8
        ensures { field_at 1 self.now ≡ Some (number8 result) }
    {
        let (_, (protocol, _)) = &self.row;
        *protocol
    }

    /// Returns the number of the key's algorithm.
    pub fn algorithm(&self) -> u8
        ensures { field_at 2 self.now ≡ Some (number8 result) }
    {
        let (_, (_, (algorithm, _))) = &self.row;
        *algorithm
    }

    /// Returns the key. The data has at most 65,535 octets, so it fits into a record.
    pub fn public_key(&self) -> &Octs
        ensures field { field_at 3 self.now ≡ Some (rest64 (Octs.list result.now)) }
        ensures short { length (octets self.now) ≤ 65535 }
    {
        let (_, (_, (_, public_key))) = &self.row;
        &public_key.0.0
    }
}

impl<Octs: Octets> HasType for Dnskey<Octs> {
    type Type = Number<48>;

    ghost held = { λ rdata. rdata };
}

impl<Octs: Octets> TypedData for Dnskey<Octs> {
    type Row = DnskeyRow<Octs>;

    fn typed_row(&self) -> &DnskeyRow<Octs> {
        &self.row
    }
}

impl<'a> ParseData<'a> for Dnskey<&'a [u8]> {
    fn parse_data(parser: &mut Parser<'a>) -> Result<Self, ParseError> {
        Dnskey::parse(parser)
    }
}

impl<Octs: FromBuilder + Drop, S: Scanner<Octets = Octs>> ScanData<S> for Dnskey<Octs> {
    fn scan_data(scanner: &mut S) -> Result<Self, S::Error> {
        Dnskey::scan(scanner)
    }
}

impl<Source: Octets + Drop, Octs: FromBuilder + Drop> FlattenData<Octs> for Dnskey<Source>
where
    Octs::Builder: EmptyBuilder + Drop,
{
    type Flat = Dnskey<Octs>;

    fn flatten_data(self, alloc: Global) -> Result<Dnskey<Octs>, AppendError> {
        self.try_flatten_into(alloc)
    }
}
