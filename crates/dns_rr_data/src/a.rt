//! Data of type A (RFC 1035 3.4.1).
ghost use Rattle.std.specs.Prelude.{◌≡◌, [], ◌∷◌, Some};
ghost use Rattle.std.proofs.Common.{refl};
ghost use Rattle.std.specs.Net.Addr.{ipv4_octets};
ghost use Rattle.dns_fields.specs.Fields.{ipv4, field_at};

use crate::{FlattenData, HasType, Number, ParseData, RowData, RowOf, ScanData, TypedData};
use dns_name::{AppendError, EmptyBuilder, FromBuilder, ParseError, Parser};
use dns_text::Scanner;
use std::alloc::Global;
use std::marker::PhantomData;
use std::net::Ipv4Addr;

/// An address of version 4 of the Internet protocol.
pub type A = RowData<Number<1>, ARow>;

/// The field of A data: an address (RFC 1035 3.4.1).
pub type ARow = (Ipv4Addr, ());

impl RowOf<Number<1>> for ARow {
    ghost of_type = { refl };
}

impl RowData<Number<1>, ARow> {
    /// Returns the data of an address.
    pub fn new(addr: Ipv4Addr) -> Self
        ensures { result ≡ ipv4 (ipv4_octets addr) ∷ [] }
    {
        RowData {
            row: (addr, ()),
            rtype: PhantomData,
        }
    }

    /// Returns the data of the address of four octets.
    pub fn from_octets(a: u8, b: u8, c: u8, d: u8) -> Self
        ensures { result ≡ ipv4 (a ∷ b ∷ c ∷ d ∷ []) ∷ [] }
    {
        A::new(Ipv4Addr::new(a, b, c, d))
    }

    /// Returns the address.
    pub fn addr(&self) -> Ipv4Addr
        ensures { field_at 0 self.now ≡ Some (ipv4 (ipv4_octets result)) }
    {
        let (addr, ()) = &self.row;
        *addr
    }

    /// Replaces the address.
    pub fn set_addr(&mut self, addr: Ipv4Addr)
        ensures { self.new ≡ ipv4 (ipv4_octets addr) ∷ [] }
    {
        self.row = (addr, ());
    }
}

impl HasType for A {
    type Type = Number<1>;

    ghost held = { λ rdata. rdata };
}

impl TypedData for A {
    type Row = ARow;

    fn typed_row(&self) -> &ARow {
        &self.row
    }
}

impl<'a> ParseData<'a> for A {
    fn parse_data(parser: &mut Parser<'a>) -> Result<Self, ParseError> {
        A::parse(parser)
    }
}

impl<S: Scanner> ScanData<S> for A {
    fn scan_data(scanner: &mut S) -> Result<Self, S::Error> {
        A::scan(scanner)
    }
}

impl<Octs: FromBuilder> FlattenData<Octs> for A
where
    Octs::Builder: EmptyBuilder + Drop,
{
    type Flat = A;

    fn flatten_data(self, _alloc: Global) -> Result<A, AppendError> {
        Ok(self)
    }
}
