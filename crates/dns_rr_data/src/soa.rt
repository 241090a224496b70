//! Data of type SOA (RFC 1035 3.3.13).
ghost use Rattle.std.specs.Prelude.{◌≡◌, [], ◌∷◌, Some};
ghost use Rattle.std.proofs.Common.{refl};
ghost use Rattle.dns_fields.specs.Fields.{compressible, number32, field_at};

use crate::{FlattenData, HasType, Number, ParseData, RowData, RowOf, ScanData, TypedData};
use dns_fields::Compressible;
use dns_name::{
    AppendError, EmptyBuilder, FlattenInto, FromBuilder, Name, ParseError, ParsedName, Parser,
    Serial, ToName, Ttl,
};
use dns_text::Scanner;
use std::alloc::Global;
use std::marker::PhantomData;

/// The start of a zone: where it comes from, and how copies of it are kept.
pub type Soa<N> = RowData<Number<6>, SoaRow<N>>;

/// The fields of SOA data: two names and five numbers (RFC 1035 3.3.13).
pub type SoaRow<N> = (
    Compressible<N>,
    (Compressible<N>, (u32, (u32, (u32, (u32, (u32, ())))))),
);

impl<N: ToName> RowOf<Number<6>> for SoaRow<N> {
    ghost of_type = { refl };
}

impl<N: ToName> RowData<Number<6>, SoaRow<N>> {
    /// Returns the data of two names, the number of the version and four times.
    pub fn new(
        mname: N,
        rname: N,
        serial: Serial,
        refresh: Ttl,
        retry: Ttl,
        expire: Ttl,
        minimum: Ttl,
    ) -> Self
        ensures { result ≡ compressible (N.name mname) ∷ compressible (N.name rname) ∷ number32 serial
            ∷ number32 refresh ∷ number32 retry ∷ number32 expire ∷ number32 minimum ∷ [] }
    {
        RowData {
            row: (
                Compressible(mname),
                (
                    Compressible(rname),
                    (
                        serial.into_int(),
                        (
                            refresh.as_secs(),
                            (retry.as_secs(), (expire.as_secs(), (minimum.as_secs(), ()))),
                        ),
                    ),
                ),
            ),
            rtype: PhantomData,
        }
    }

    /// Returns the name of the host that the zone comes from.
    pub fn mname(&self) -> &N
        ensures { field_at 0 self.now ≡ Some (compressible (N.name result.now)) }
    {
        let (mname, _) = &self.row;
        &mname.0
    }

    /// Returns the mailbox of who is responsible for the zone, written as a name.
    pub fn rname(&self) -> &N
        ensures { field_at 1 self.now ≡ Some (compressible (N.name result.now)) }
    {
        let (_, (rname, _)) = &self.row;
        &rname.0
    }

    /// Returns the number of this version of the zone.
    pub fn serial(&self) -> Serial
        ensures { field_at 2 self.now ≡ Some (number32 result) }
    {
        let (_, (_, (serial, _))) = &self.row;
        Serial(*serial)
    }

    /// Returns how long a copy waits before it is refreshed.
    pub fn refresh(&self) -> Ttl
        ensures { field_at 3 self.now ≡ Some (number32 result) }
    {
        let (_, (_, (_, (refresh, _)))) = &self.row;
        Ttl::from_secs(*refresh)
    }

    /// Returns how long it waits before a refresh that failed is tried again.
    pub fn retry(&self) -> Ttl
        ensures { field_at 4 self.now ≡ Some (number32 result) }
    {
        let (_, (_, (_, (_, (retry, _))))) = &self.row;
        Ttl::from_secs(*retry)
    }

    /// Returns how long a copy that cannot be refreshed stays valid.
    pub fn expire(&self) -> Ttl
        ensures { field_at 5 self.now ≡ Some (number32 result) }
    {
        let (_, (_, (_, (_, (_, (expire, _)))))) = &self.row;
        Ttl::from_secs(*expire)
    }

    /// Returns how long it may be kept that something is not there (RFC 2308 4).
    pub fn minimum(&self) -> Ttl
        ensures { field_at 6 self.now ≡ Some (number32 result) }
    {
        let (_, (_, (_, (_, (_, (_, (minimum, ()))))))) = &self.row;
        Ttl::from_secs(*minimum)
    }
}

impl<N: ToName> HasType for Soa<N> {
    type Type = Number<6>;

    ghost held = { λ rdata. rdata };
}

impl<N: ToName> TypedData for Soa<N> {
    type Row = SoaRow<N>;

    fn typed_row(&self) -> &SoaRow<N> {
        &self.row
    }
}

impl<'a> ParseData<'a> for Soa<ParsedName<&'a [u8]>> {
    fn parse_data(parser: &mut Parser<'a>) -> Result<Self, ParseError> {
        Soa::parse(parser)
    }
}

impl<N: ToName + Drop, S: Scanner<Name = N>> ScanData<S> for Soa<N> {
    fn scan_data(scanner: &mut S) -> Result<Self, S::Error> {
        Soa::scan(scanner)
    }
}

impl<N: ToName + Drop, Octs: FromBuilder + Drop> FlattenData<Octs> for Soa<N>
where
    Octs::Builder: EmptyBuilder + Drop,
{
    type Flat = Soa<Name<Octs>>;

    fn flatten_data(self, alloc: Global) -> Result<Soa<Name<Octs>>, AppendError> {
        self.try_flatten_into(alloc)
    }
}
