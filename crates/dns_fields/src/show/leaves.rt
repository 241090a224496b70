//! Numbers, addresses of version 6, names, strings and tags as tokens.
use super::ShowField;
use crate::{Compressible, Tag, Uncompressed};
use dns_name::{Octets, ToName};
use dns_text::{CharStr, Formatter};
use std::fmt;
use std::net::Ipv6Addr;

impl ShowField for u8 {
    fn show_field<F: Formatter>(&self, formatter: &mut F) -> fmt::Result {
        formatter.write_token(*self)
    }
}

impl ShowField for u16 {
    fn show_field<F: Formatter>(&self, formatter: &mut F) -> fmt::Result {
        formatter.write_token(*self)
    }
}

impl ShowField for u32 {
    fn show_field<F: Formatter>(&self, formatter: &mut F) -> fmt::Result {
        formatter.write_token(*self)
    }
}

/// In groups alone (RFC 5952 4).
impl ShowField for Ipv6Addr {
    fn show_field<F: Formatter>(&self, formatter: &mut F) -> fmt::Result {
        formatter.write_token(self.hex_groups())
    }
}

/// With its last dot.
impl<N: ToName> ShowField for Compressible<N> {
    fn show_field<F: Formatter>(&self, formatter: &mut F) -> fmt::Result {
        formatter.write_token(self.0.fmt_with_dot())
    }
}

/// With its last dot.
impl<N: ToName> ShowField for Uncompressed<N> {
    fn show_field<F: Formatter>(&self, formatter: &mut F) -> fmt::Result {
        formatter.write_token(self.0.fmt_with_dot())
    }
}

/// Between quotes.
impl<Octs: Octets> ShowField for CharStr<Octs> {
    fn show_field<F: Formatter>(&self, formatter: &mut F) -> fmt::Result {
        formatter.write_token(self.display_quoted())
    }
}

impl<Octs: Octets> ShowField for Tag<Octs> {
    fn show_field<F: Formatter>(&self, formatter: &mut F) -> fmt::Result {
        formatter.write_token(self.0.display_unquoted())
    }
}
