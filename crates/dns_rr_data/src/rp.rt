//! Data of type RP (RFC 1183 2.2).
ghost use Rattle.std.specs.Prelude.{◌≡◌, [], ◌∷◌, Some};
ghost use Rattle.std.proofs.Common.{refl};
ghost use Rattle.dns_fields.specs.Fields.{uncompressed, field_at};

use crate::{FlattenData, HasType, Number, ParseData, RowData, RowOf, ScanData, TypedData};
use dns_fields::Uncompressed;
use dns_name::{
    AppendError, EmptyBuilder, FlattenInto, FromBuilder, Name, ParseError, ParsedName, Parser,
    ToName,
};
use dns_text::Scanner;
use std::alloc::Global;
use std::marker::PhantomData;

/// Who is responsible for the owner.
pub type Rp<N> = RowData<Number<17>, RpRow<N>>;

/// The fields of RP data: a mailbox and a name with text (RFC 1183 2.2).
pub type RpRow<N> = (Uncompressed<N>, (Uncompressed<N>, ()));

impl<N: ToName> RowOf<Number<17>> for RpRow<N> {
    ghost of_type = { refl };
}

impl<N: ToName> RowData<Number<17>, RpRow<N>> {
    /// Returns the data of a mailbox, and of the name that has TXT data.
    pub fn new(mbox: N, txt: N) -> Self
        ensures { result ≡ uncompressed (N.name mbox) ∷ uncompressed (N.name txt) ∷ [] }
    {
        RowData {
            row: (Uncompressed(mbox), (Uncompressed(txt), ())),
            rtype: PhantomData,
        }
    }

    /// Returns the mailbox of who is responsible, written as a name.
    pub fn mbox(&self) -> &N
        ensures { field_at 0 self.now ≡ Some (uncompressed (N.name result.now)) }
    {
        let (mbox, _) = &self.row;
        &mbox.0
    }

    /// Returns the name that has TXT data on who is responsible.
    pub fn txt(&self) -> &N
        ensures { field_at 1 self.now ≡ Some (uncompressed (N.name result.now)) }
    {
        let (_, (txt, ())) = &self.row;
        &txt.0
    }
}

impl<N: ToName> HasType for Rp<N> {
    type Type = Number<17>;

    ghost held = { λ rdata. rdata };
}

impl<N: ToName> TypedData for Rp<N> {
    type Row = RpRow<N>;

    fn typed_row(&self) -> &RpRow<N> {
        &self.row
    }
}

impl<'a> ParseData<'a> for Rp<ParsedName<&'a [u8]>> {
    fn parse_data(parser: &mut Parser<'a>) -> Result<Self, ParseError> {
        Rp::parse(parser)
    }
}

impl<N: ToName + Drop, S: Scanner<Name = N>> ScanData<S> for Rp<N> {
    fn scan_data(scanner: &mut S) -> Result<Self, S::Error> {
        Rp::scan(scanner)
    }
}

impl<N: ToName + Drop, Octs: FromBuilder + Drop> FlattenData<Octs> for Rp<N>
where
    Octs::Builder: EmptyBuilder + Drop,
{
    type Flat = Rp<Name<Octs>>;

    fn flatten_data(self, alloc: Global) -> Result<Rp<Name<Octs>>, AppendError> {
        self.try_flatten_into(alloc)
    }
}
