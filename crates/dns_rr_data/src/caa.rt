//! Data of type CAA (RFC 8659 4.1).
ghost use Rattle.std.specs.Prelude.{◌≡◌, ◌≤◌, ◌↔◌, length, [], ◌∷◌, Some, IsOk, IfOk};
ghost use Rattle.std.proofs.Common.{refl};
ghost use Rattle.dns_fields.specs.Fields as fields;
ghost use Rattle.dns_fields.specs.Fields.{number8, rest_text, octets, field_at};

use crate::{FlattenData, HasType, Number, ParseData, RowData, RowOf, ScanData, TypedData};
use dns_fields::{HasFields, Last, RestText, Tag};
use dns_name::{
    AppendError, EmptyBuilder, FlattenInto, FromBuilder, LongRecordData, Octets, ParseError, Parser,
};
use dns_text::{CharStr, Scanner};
use std::alloc::Global;
use std::marker::PhantomData;

/// Who may issue certificates for the owner, as a property of it: a tag and a value.
pub type Caa<Octs> = RowData<Number<257>, CaaRow<Octs>>;

/// The fields of CAA data: flags, a tag and a value (RFC 8659 4.1).
pub type CaaRow<Octs> = (u8, (Tag<Octs>, Last<RestText<Octs>>));

impl<Octs: Octets> RowOf<Number<257>> for CaaRow<Octs> {
    ghost of_type = { refl };
}

impl<Octs: Octets> RowData<Number<257>, CaaRow<Octs>> {
    /// Returns the data of a property, with its flags.
    ///
    /// Fails exactly if the data would have more than 65,535 octets.
    pub fn new(flags: u8, tag: CharStr<Octs>, value: Octs) -> Result<Self, LongRecordData>
    where
        Octs: Drop,
        ensures ok { IfOk result (λ rdata. rdata ≡ number8 flags ∷ fields.tag tag ∷ rest_text (Octs.list value) ∷ []) }
        ensures short { IsOk result ↔ (length (octets (number8 flags ∷ fields.tag tag ∷ rest_text (Octs.list value) ∷ [])) ≤ 65535) }
    {
        let row = (flags, (Tag(tag), Last(RestText(value))));
        if row.fields_len().is_none() {
            return Err(LongRecordData);
        }
        Ok(RowData {
            row,
            rtype: PhantomData,
        })
    }

    /// Returns whether the property must be understood, as bits (RFC 8659 4.1).
    pub fn flags(&self) -> u8
        ensures { field_at 0 self.now ≡ Some (number8 result) }
    {
        let (flags, _) = &self.row;
        *flags
    }

    /// Returns the name of the property.
    pub fn tag(&self) -> &CharStr<Octs>
        ensures { field_at 1 self.now ≡ Some (fields.tag result.now) }
    {
        let (_, (tag, _)) = &self.row;
        &tag.0
    }

    /// Returns the value of the property. The data has at most 65,535 octets, so it fits into a record.
    pub fn value(&self) -> &Octs
        ensures field { field_at 2 self.now ≡ Some (rest_text (Octs.list result.now)) }
        ensures short { length (octets self.now) ≤ 65535 }
    {
        let (_, (_, value)) = &self.row;
        &value.0.0
    }
}

impl<Octs: Octets> HasType for Caa<Octs> {
    type Type = Number<257>;

    ghost held = { λ rdata. rdata };
}

impl<Octs: Octets> TypedData for Caa<Octs> {
    type Row = CaaRow<Octs>;

    fn typed_row(&self) -> &CaaRow<Octs> {
        &self.row
    }
}

impl<'a> ParseData<'a> for Caa<&'a [u8]> {
    fn parse_data(parser: &mut Parser<'a>) -> Result<Self, ParseError> {
        Caa::parse(parser)
    }
}

impl<Octs: FromBuilder + Drop, S: Scanner<Octets = Octs>> ScanData<S> for Caa<Octs> {
    fn scan_data(scanner: &mut S) -> Result<Self, S::Error> {
        Caa::scan(scanner)
    }
}

impl<Source: Octets + Drop, Octs: FromBuilder + Drop> FlattenData<Octs> for Caa<Source>
where
    Octs::Builder: EmptyBuilder + Drop,
{
    type Flat = Caa<Octs>;

    fn flatten_data(self, alloc: Global) -> Result<Caa<Octs>, AppendError> {
        self.try_flatten_into(alloc)
    }
}
