//! Data of type SRV (RFC 2782).
ghost use Rattle.std.specs.Prelude.{◌≡◌, [], ◌∷◌, Some};
ghost use Rattle.std.proofs.Common.{refl};
ghost use Rattle.dns_fields.specs.Fields.{number16, uncompressed, field_at};

use crate::{FlattenData, HasType, Number, ParseData, RowData, RowOf, ScanData, TypedData};
use dns_fields::Uncompressed;
use dns_name::{
    AppendError, EmptyBuilder, FlattenInto, FromBuilder, Name, ParseError, ParsedName, Parser,
    ToName,
};
use dns_text::Scanner;
use std::alloc::Global;
use std::marker::PhantomData;

/// A host that offers a service.
pub type Srv<N> = RowData<Number<33>, SrvRow<N>>;

/// The fields of SRV data: a priority, a weight, a port and a host (RFC 2782).
pub type SrvRow<N> = (u16, (u16, (u16, (Uncompressed<N>, ()))));

impl<N: ToName> RowOf<Number<33>> for SrvRow<N> {
    ghost of_type = { refl };
}

impl<N: ToName> RowData<Number<33>, SrvRow<N>> {
    /// Returns the data of a host and its port, and how they are preferred.
    pub fn new(priority: u16, weight: u16, port: u16, target: N) -> Self
        ensures { result ≡ number16 priority ∷ number16 weight ∷ number16 port ∷ uncompressed (N.name target) ∷ [] }
    {
        RowData {
            row: (priority, (weight, (port, (Uncompressed(target), ())))),
            rtype: PhantomData,
        }
    }

    /// Returns how the host is preferred: the lowest number comes first.
    pub fn priority(&self) -> u16
        ensures { field_at 0 self.now ≡ Some (number16 result) }
    {
        let (priority, _) = &self.row;
        *priority
    }

    /// Returns which part the host takes among those of its priority.
    pub fn weight(&self) -> u16
        ensures { field_at 1 self.now ≡ Some (number16 result) }
    {
        let (_, (weight, _)) = &self.row;
        *weight
    }

    /// Returns the port of the service there.
    pub fn port(&self) -> u16
        ensures { field_at 2 self.now ≡ Some (number16 result) }
    {
        let (_, (_, (port, _))) = &self.row;
        *port
    }

    /// Returns the name of the host.
    pub fn target(&self) -> &N
        ensures { field_at 3 self.now ≡ Some (uncompressed (N.name result.now)) }
    {
        let (_, (_, (_, (target, ())))) = &self.row;
        &target.0
    }
}

impl<N: ToName> HasType for Srv<N> {
    type Type = Number<33>;

    ghost held = { λ rdata. rdata };
}

impl<N: ToName> TypedData for Srv<N> {
    type Row = SrvRow<N>;

    fn typed_row(&self) -> &SrvRow<N> {
        &self.row
    }
}

impl<'a> ParseData<'a> for Srv<ParsedName<&'a [u8]>> {
    fn parse_data(parser: &mut Parser<'a>) -> Result<Self, ParseError> {
        Srv::parse(parser)
    }
}

impl<N: ToName + Drop, S: Scanner<Name = N>> ScanData<S> for Srv<N> {
    fn scan_data(scanner: &mut S) -> Result<Self, S::Error> {
        Srv::scan(scanner)
    }
}

impl<N: ToName + Drop, Octs: FromBuilder + Drop> FlattenData<Octs> for Srv<N>
where
    Octs::Builder: EmptyBuilder + Drop,
{
    type Flat = Srv<Name<Octs>>;

    fn flatten_data(self, alloc: Global) -> Result<Srv<Name<Octs>>, AppendError> {
        self.try_flatten_into(alloc)
    }
}
