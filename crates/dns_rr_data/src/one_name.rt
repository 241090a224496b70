//! Data of one name: that of types NS, MD, MF, CNAME, MB, MG, MR and PTR.
ghost use Rattle.std.specs.Prelude.{◌≡◌, [], ◌∷◌};
ghost use Rattle.dns_fields.specs.Fields.{compressible};

use crate::{DataType, FlattenData, HasType, ParseData, RowData, RowOf, ScanData, TypedData};
use dns_fields::Compressible;
use dns_name::{
    AppendError, EmptyBuilder, FlattenInto, FromBuilder, Name, ParseError, ParsedName, Parser,
    ToName,
};
use dns_text::Scanner;
use std::alloc::Global;
use std::marker::PhantomData;

/// The field of data that is one name of RFC 1035: NS, MD, MF, CNAME, MB, MG, MR and PTR.
pub type NameRow<N> = (Compressible<N>, ());

impl<T, N: ToName> RowData<T, NameRow<N>> {
    /// Returns the data of this name.
    pub fn new(name: N) -> Self
        ensures { result ≡ compressible (N.name name) ∷ [] }
    {
        RowData {
            row: (Compressible(name), ()),
            rtype: PhantomData,
        }
    }
}

impl<T: DataType, N: ToName> HasType for RowData<T, NameRow<N>> {
    type Type = T;

    ghost held = { λ rdata. rdata };
}

impl<T: DataType, N: ToName> TypedData for RowData<T, NameRow<N>> {
    type Row = NameRow<N>;

    fn typed_row(&self) -> &NameRow<N> {
        &self.row
    }
}

impl<'a, T: DataType> ParseData<'a> for RowData<T, NameRow<ParsedName<&'a [u8]>>>
where
    NameRow<ParsedName<&'a [u8]>>: RowOf<T>,
{
    fn parse_data(parser: &mut Parser<'a>) -> Result<Self, ParseError> {
        RowData::parse(parser)
    }
}

impl<T: DataType, N: ToName + Drop, S: Scanner<Name = N>> ScanData<S> for RowData<T, NameRow<N>>
where
    NameRow<N>: RowOf<T>,
{
    fn scan_data(scanner: &mut S) -> Result<Self, S::Error> {
        RowData::scan(scanner)
    }
}

impl<T: DataType, N: ToName + Drop, Octs: FromBuilder + Drop> FlattenData<Octs>
    for RowData<T, NameRow<N>>
where
    Octs::Builder: EmptyBuilder + Drop,
{
    type Flat = RowData<T, NameRow<Name<Octs>>>;

    fn flatten_data(self, alloc: Global) -> Result<Self::Flat, AppendError> {
        self.try_flatten_into(alloc)
    }
}
