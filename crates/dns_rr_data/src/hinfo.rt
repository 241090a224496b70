//! Data of type HINFO (RFC 1035 3.3.2).
ghost use Rattle.std.specs.Prelude.{◌≡◌, [], ◌∷◌, Some};
ghost use Rattle.std.proofs.Common.{refl};
ghost use Rattle.dns_fields.specs.Fields.{string, field_at};

use crate::{FlattenData, HasType, Number, ParseData, RowData, RowOf, ScanData, TypedData};
use dns_name::{AppendError, EmptyBuilder, FlattenInto, FromBuilder, Octets, ParseError, Parser};
use dns_text::{CharStr, Scanner};
use std::alloc::Global;
use std::marker::PhantomData;

/// What kind of host the owner is.
pub type Hinfo<Octs> = RowData<Number<13>, HinfoRow<Octs>>;

/// The fields of HINFO data: a processor and an operating system (RFC 1035 3.3.2).
pub type HinfoRow<Octs> = (CharStr<Octs>, (CharStr<Octs>, ()));

impl<Octs: Octets> RowOf<Number<13>> for HinfoRow<Octs> {
    ghost of_type = { refl };
}

impl<Octs: Octets> RowData<Number<13>, HinfoRow<Octs>> {
    /// Returns the data of the kinds of a processor and an operating system.
    pub fn new(cpu: CharStr<Octs>, os: CharStr<Octs>) -> Self
        ensures { result ≡ string cpu ∷ string os ∷ [] }
    {
        RowData {
            row: (cpu, (os, ())),
            rtype: PhantomData,
        }
    }

    /// Returns the kind of the processor.
    pub fn cpu(&self) -> &CharStr<Octs>
        ensures { field_at 0 self.now ≡ Some (string result.now) }
    {
        let (cpu, _) = &self.row;
        cpu
    }

    /// Returns the kind of the operating system.
    pub fn os(&self) -> &CharStr<Octs>
        ensures { field_at 1 self.now ≡ Some (string result.now) }
    {
        let (_, (os, ())) = &self.row;
        os
    }
}

impl<Octs: Octets> HasType for Hinfo<Octs> {
    type Type = Number<13>;

    ghost held = { λ rdata. rdata };
}

impl<Octs: Octets> TypedData for Hinfo<Octs> {
    type Row = HinfoRow<Octs>;

    fn typed_row(&self) -> &HinfoRow<Octs> {
        &self.row
    }
}

impl<'a> ParseData<'a> for Hinfo<&'a [u8]> {
    fn parse_data(parser: &mut Parser<'a>) -> Result<Self, ParseError> {
        Hinfo::parse(parser)
    }
}

impl<Octs: FromBuilder + Drop, S: Scanner<Octets = Octs>> ScanData<S> for Hinfo<Octs> {
    fn scan_data(scanner: &mut S) -> Result<Self, S::Error> {
        Hinfo::scan(scanner)
    }
}

impl<Source: Octets + Drop, Octs: FromBuilder + Drop> FlattenData<Octs> for Hinfo<Source>
where
    Octs::Builder: EmptyBuilder + Drop,
{
    type Flat = Hinfo<Octs>;

    fn flatten_data(self, alloc: Global) -> Result<Hinfo<Octs>, AppendError> {
        self.try_flatten_into(alloc)
    }
}
