//! Data of type SSHFP (RFC 4255).
ghost use Rattle.std.specs.Prelude.{◌≡◌, ◌≤◌, ◌↔◌, length, [], ◌∷◌, Some, IsOk, IfOk};
ghost use Rattle.std.proofs.Common.{refl};
ghost use Rattle.dns_fields.specs.Fields.{number8, rest16, octets, field_at};

use crate::{FlattenData, HasType, Number, ParseData, RowData, RowOf, ScanData, TypedData};
use dns_fields::{HasFields, Last, Rest16};
use dns_name::{
    AppendError, EmptyBuilder, FlattenInto, FromBuilder, LongRecordData, Octets, ParseError, Parser,
};
use dns_text::Scanner;
use std::alloc::Global;
use std::marker::PhantomData;

/// A key of the owner's SSH server, by its fingerprint.
pub type Sshfp<Octs> = RowData<Number<44>, SshfpRow<Octs>>;

/// The fields of SSHFP data: two algorithms and a fingerprint (RFC 4255 3.1).
pub type SshfpRow<Octs> = (u8, (u8, Last<Rest16<Octs>>));

impl<Octs: Octets> RowOf<Number<44>> for SshfpRow<Octs> {
    ghost of_type = { refl };
}

impl<Octs: Octets> RowData<Number<44>, SshfpRow<Octs>> {
    /// Returns the data of the fingerprint of a key, with the numbers of the key's algorithm and of the fingerprint's.
    ///
    /// Fails exactly if the data would have more than 65,535 octets.
    pub fn new(
        algorithm: u8,
        fingerprint_type: u8,
        fingerprint: Octs,
    ) -> Result<Self, LongRecordData>
    where
        Octs: Drop,
        ensures ok { IfOk result (λ rdata. rdata ≡ number8 algorithm ∷ number8 fingerprint_type ∷ rest16 (Octs.list fingerprint) ∷ []) }
        ensures short { IsOk result ↔ (length (octets (number8 algorithm ∷ number8 fingerprint_type ∷ rest16 (Octs.list fingerprint) ∷ [])) ≤ 65535) }
    {
        let row = (algorithm, (fingerprint_type, Last(Rest16(fingerprint))));
        if row.fields_len().is_none() {
            return Err(LongRecordData);
        }
        Ok(RowData {
            row,
            rtype: PhantomData,
        })
    }

    /// Returns the number of the key's algorithm (RFC 4255 3.1.1).
    pub fn algorithm(&self) -> u8
        ensures { field_at 0 self.now ≡ Some (number8 result) }
    {
        let (algorithm, _) = &self.row;
        *algorithm
    }

    /// Returns the number of the fingerprint's algorithm (RFC 4255 3.1.2).
    pub fn fingerprint_type(&self) -> u8
        ensures { field_at 1 self.now ≡ Some (number8 result) }
    {
        let (_, (fingerprint_type, _)) = &self.row;
        *fingerprint_type
    }

    /// Returns the fingerprint of the key. The data has at most 65,535 octets, so it fits into a record.
    pub fn fingerprint(&self) -> &Octs
        ensures field { field_at 2 self.now ≡ Some (rest16 (Octs.list result.now)) }
        ensures short { length (octets self.now) ≤ 65535 }
    {
        let (_, (_, fingerprint)) = &self.row;
        &fingerprint.0.0
    }

    /// Returns the fingerprint of the key, without the rest. The data had at most 65,535 octets.
    pub fn into_fingerprint(self) -> Octs
        ensures field { field_at 2 self ≡ Some (rest16 (Octs.list result)) }
        ensures short { length (octets self) ≤ 65535 }
    {
        let (_, (_, fingerprint)) = self.row;
        fingerprint.0.0
    }
}

impl<Octs: Octets> HasType for Sshfp<Octs> {
    type Type = Number<44>;

    ghost held = { λ rdata. rdata };
}

impl<Octs: Octets> TypedData for Sshfp<Octs> {
    type Row = SshfpRow<Octs>;

    fn typed_row(&self) -> &SshfpRow<Octs> {
        &self.row
    }
}

impl<'a> ParseData<'a> for Sshfp<&'a [u8]> {
    fn parse_data(parser: &mut Parser<'a>) -> Result<Self, ParseError> {
        Sshfp::parse(parser)
    }
}

impl<Octs: FromBuilder + Drop, S: Scanner<Octets = Octs>> ScanData<S> for Sshfp<Octs> {
    fn scan_data(scanner: &mut S) -> Result<Self, S::Error> {
        Sshfp::scan(scanner)
    }
}

impl<Source: Octets + Drop, Octs: FromBuilder + Drop> FlattenData<Octs> for Sshfp<Source>
where
    Octs::Builder: EmptyBuilder + Drop,
{
    type Flat = Sshfp<Octs>;

    fn flatten_data(self, alloc: Global) -> Result<Sshfp<Octs>, AppendError> {
        self.try_flatten_into(alloc)
    }
}
