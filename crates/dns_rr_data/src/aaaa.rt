//! Data of type AAAA (RFC 3596 2.1).
ghost use Rattle.std.specs.Prelude.{◌≡◌, [], ◌∷◌, Some};
ghost use Rattle.std.proofs.Common.{refl};
ghost use Rattle.std.specs.Net.Addr.{ipv6_octets};
ghost use Rattle.dns_fields.specs.Fields.{ipv6, field_at};

use crate::{FlattenData, HasType, Number, ParseData, RowData, RowOf, ScanData, TypedData};
use dns_name::{AppendError, EmptyBuilder, FromBuilder, ParseError, Parser};
use dns_text::Scanner;
use std::alloc::Global;
use std::marker::PhantomData;
use std::net::Ipv6Addr;

/// An address of version 6 of the Internet protocol.
pub type Aaaa = RowData<Number<28>, AaaaRow>;

/// The field of AAAA data: an address (RFC 3596 2.2).
pub type AaaaRow = (Ipv6Addr, ());

impl RowOf<Number<28>> for AaaaRow {
    ghost of_type = { refl };
}

impl RowData<Number<28>, AaaaRow> {
    /// Returns the data of an address.
    pub fn new(addr: Ipv6Addr) -> Self
        ensures { result ≡ ipv6 (ipv6_octets addr) ∷ [] }
    {
        RowData {
            row: (addr, ()),
            rtype: PhantomData,
        }
    }

    /// Returns the address.
    pub fn addr(&self) -> Ipv6Addr
        ensures { field_at 0 self.now ≡ Some (ipv6 (ipv6_octets result)) }
    {
        let (addr, ()) = &self.row;
        *addr
    }

    /// Replaces the address.
    pub fn set_addr(&mut self, addr: Ipv6Addr)
        ensures { self.new ≡ ipv6 (ipv6_octets addr) ∷ [] }
    {
        self.row = (addr, ());
    }
}

impl HasType for Aaaa {
    type Type = Number<28>;

    ghost held = { λ rdata. rdata };
}

impl TypedData for Aaaa {
    type Row = AaaaRow;

    fn typed_row(&self) -> &AaaaRow {
        &self.row
    }
}

impl<'a> ParseData<'a> for Aaaa {
    fn parse_data(parser: &mut Parser<'a>) -> Result<Self, ParseError> {
        Aaaa::parse(parser)
    }
}

impl<S: Scanner> ScanData<S> for Aaaa {
    fn scan_data(scanner: &mut S) -> Result<Self, S::Error> {
        Aaaa::scan(scanner)
    }
}

impl<Octs: FromBuilder> FlattenData<Octs> for Aaaa
where
    Octs::Builder: EmptyBuilder + Drop,
{
    type Flat = Aaaa;

    fn flatten_data(self, _alloc: Global) -> Result<Aaaa, AppendError> {
        Ok(self)
    }
}
