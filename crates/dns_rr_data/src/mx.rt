//! Data of type MX (RFC 1035 3.3.9).
ghost use Rattle.std.specs.Prelude.{◌≡◌, [], ◌∷◌, Some};
ghost use Rattle.std.proofs.Common.{refl};
ghost use Rattle.dns_fields.specs.Fields.{number16, compressible, field_at};

use crate::{FlattenData, HasType, Number, ParseData, RowData, RowOf, ScanData, TypedData};
use dns_fields::Compressible;
use dns_name::{
    AppendError, EmptyBuilder, FlattenInto, FromBuilder, Name, ParseError, ParsedName, Parser,
    ToName,
};
use dns_text::Scanner;
use std::alloc::Global;
use std::marker::PhantomData;

/// A host that takes mail for the owner, and how it is preferred: the one with the lowest number comes first.
pub type Mx<N> = RowData<Number<15>, MxRow<N>>;

/// The fields of MX data: a preference and a host (RFC 1035 3.3.9).
pub type MxRow<N> = (u16, (Compressible<N>, ()));

impl<N: ToName> RowOf<Number<15>> for MxRow<N> {
    ghost of_type = { refl };
}

impl<N: ToName> RowData<Number<15>, MxRow<N>> {
    /// Returns the data of a host and how it is preferred.
    pub fn new(preference: u16, exchange: N) -> Self
        ensures { result ≡ number16 preference ∷ compressible (N.name exchange) ∷ [] }
    {
        RowData {
            row: (preference, (Compressible(exchange), ())),
            rtype: PhantomData,
        }
    }

    /// Returns how the host is preferred: the lowest number comes first.
    pub fn preference(&self) -> u16
        ensures { field_at 0 self.now ≡ Some (number16 result) }
    {
        let (preference, _) = &self.row;
        *preference
    }

    /// Returns the name of the host.
    pub fn exchange(&self) -> &N
        ensures { field_at 1 self.now ≡ Some (compressible (N.name result.now)) }
    {
        let (_, (exchange, ())) = &self.row;
        &exchange.0
    }
}

impl<N: ToName> HasType for Mx<N> {
    type Type = Number<15>;

    ghost held = { λ rdata. rdata };
}

impl<N: ToName> TypedData for Mx<N> {
    type Row = MxRow<N>;

    fn typed_row(&self) -> &MxRow<N> {
        &self.row
    }
}

impl<'a> ParseData<'a> for Mx<ParsedName<&'a [u8]>> {
    fn parse_data(parser: &mut Parser<'a>) -> Result<Self, ParseError> {
        Mx::parse(parser)
    }
}

impl<N: ToName + Drop, S: Scanner<Name = N>> ScanData<S> for Mx<N> {
    fn scan_data(scanner: &mut S) -> Result<Self, S::Error> {
        Mx::scan(scanner)
    }
}

impl<N: ToName + Drop, Octs: FromBuilder + Drop> FlattenData<Octs> for Mx<N>
where
    Octs::Builder: EmptyBuilder + Drop,
{
    type Flat = Mx<Name<Octs>>;

    fn flatten_data(self, alloc: Global) -> Result<Mx<Name<Octs>>, AppendError> {
        self.try_flatten_into(alloc)
    }
}
