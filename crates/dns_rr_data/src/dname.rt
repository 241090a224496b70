//! Data of type DNAME (RFC 6672).
ghost use Rattle.std.specs.Prelude.{◌≡◌, [], ◌∷◌, Some};
ghost use Rattle.std.proofs.Common.{refl};
ghost use Rattle.dns_fields.specs.Fields.{uncompressed, field_at};

use crate::{FlattenData, HasType, Number, ParseData, RowData, RowOf, ScanData, TypedData};
use dns_fields::Uncompressed;
use dns_name::{
    AppendError, EmptyBuilder, FlattenInto, FromBuilder, Name, ParseError, ParsedName, Parser,
    ToName,
};
use dns_text::Scanner;
use std::alloc::Global;
use std::marker::PhantomData;

/// The name that the owner is replaced by in all names under the owner. It is never compressed (RFC 6672 2.5).
pub type Dname<N> = RowData<Number<39>, DnameRow<N>>;

/// The field of DNAME data: a name (RFC 6672 2.1).
pub type DnameRow<N> = (Uncompressed<N>, ());

impl<N: ToName> RowOf<Number<39>> for DnameRow<N> {
    ghost of_type = { refl };
}

impl<N: ToName> RowData<Number<39>, DnameRow<N>> {
    /// Returns the data of this name.
    pub fn new(dname: N) -> Self
        ensures { result ≡ uncompressed (N.name dname) ∷ [] }
    {
        RowData {
            row: (Uncompressed(dname), ()),
            rtype: PhantomData,
        }
    }

    /// Returns the name that the owner is replaced by.
    pub fn dname(&self) -> &N
        ensures { field_at 0 self.now ≡ Some (uncompressed (N.name result.now)) }
    {
        let (dname, ()) = &self.row;
        &dname.0
    }

    /// Returns the name itself.
    pub fn into_dname(self) -> N
        ensures { self ≡ uncompressed (N.name result) ∷ [] }
    {
        let (dname, ()) = self.row;
        dname.0
    }
}

impl<N: ToName> HasType for Dname<N> {
    type Type = Number<39>;

    ghost held = { λ rdata. rdata };
}

impl<N: ToName> TypedData for Dname<N> {
    type Row = DnameRow<N>;

    fn typed_row(&self) -> &DnameRow<N> {
        &self.row
    }
}

impl<'a> ParseData<'a> for Dname<ParsedName<&'a [u8]>> {
    fn parse_data(parser: &mut Parser<'a>) -> Result<Self, ParseError> {
        Dname::parse(parser)
    }
}

impl<N: ToName + Drop, S: Scanner<Name = N>> ScanData<S> for Dname<N> {
    fn scan_data(scanner: &mut S) -> Result<Self, S::Error> {
        Dname::scan(scanner)
    }
}

impl<N: ToName + Drop, Octs: FromBuilder + Drop> FlattenData<Octs> for Dname<N>
where
    Octs::Builder: EmptyBuilder + Drop,
{
    type Flat = Dname<Name<Octs>>;

    fn flatten_data(self, alloc: Global) -> Result<Dname<Name<Octs>>, AppendError> {
        self.try_flatten_into(alloc)
    }
}
