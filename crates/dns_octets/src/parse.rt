//! Parsing values from octets.
ghost use Rattle.std.specs.Prelude.{◌≡◌, ◌+◌, ◌≤◌, ◌↔◌, ◌∷◌, [], List, ℕ, length, take, slice_index, IsOk, IfOk, IfErr, OnOk, OnErr};
ghost use Rattle.std.specs.Int.{from_be_bytes, cast_signed, w8, w16, w32, w64};
ghost use Rattle.std.specs.Net.Addr.{ipv4_octets, ipv6_octets};
ghost use Rattle.dns_octets.specs.Parser.{GoesOn, octets_of, place_of, rest_of};
ghost use Rattle.dns_octets.specs.declared.error.ParseError.TheVariants.{ShortInput};

use crate::error::ParseError;
use crate::parser::Parser;
use std::net::{Ipv4Addr, Ipv6Addr};

/// A value that is parsed from `width` octets; `reads` relates these octets to it.
pub trait Parse<'a>: Sized {
    ghost width: { ℕ };

    ghost reads: { List ℕ → Self → Type 0 };

    /// Parses a value. Fails with `ShortInput` exactly if fewer than `width` octets are left. The parser then stays
    /// where it was.
    fn parse(parser: &mut Parser<'a>) -> Result<Self, ParseError>
        ensures ok { IfOk result (λ value. reads (take width (rest_of parser.old)) value) }
        ensures place { OnOk result (GoesOn parser.old parser.new width) }
        ensures enough { IsOk result ↔ (place_of parser.old + width ≤ length (octets_of parser.old)) }
        ensures short { IfErr result (λ e. e ≡ ShortInput) }
        ensures err { OnErr result (parser.new ≡ parser.old) };
}

impl<'a> Parse<'a> for u8 {
    ghost width = { 1 };

    ghost reads = { λ octets number. number ∷ [] ≡ octets };

    fn parse(parser: &mut Parser<'a>) -> Result<Self, ParseError> {
        Ok(parser.parse_u8()?)
    }
}

impl<'a> Parse<'a> for u16 {
    ghost width = { 2 };

    ghost reads = { λ octets number. number ≡ from_be_bytes w16 octets };

    fn parse(parser: &mut Parser<'a>) -> Result<Self, ParseError> {
        Ok(parser.parse_u16_be()?)
    }
}

impl<'a> Parse<'a> for u32 {
    ghost width = { 4 };

    ghost reads = { λ octets number. number ≡ from_be_bytes w32 octets };

    fn parse(parser: &mut Parser<'a>) -> Result<Self, ParseError> {
        Ok(parser.parse_u32_be()?)
    }
}

impl<'a> Parse<'a> for u64 {
    ghost width = { 8 };

    ghost reads = { λ octets number. number ≡ from_be_bytes w64 octets };

    fn parse(parser: &mut Parser<'a>) -> Result<Self, ParseError> {
        Ok(u64::from_be_bytes(<[u8; 8]>::parse(parser)?))
    }
}

impl<'a> Parse<'a> for i8 {
    ghost width = { 1 };

    ghost reads = { λ octets number. number ≡ cast_signed w8 (slice_index octets 0) };

    fn parse(parser: &mut Parser<'a>) -> Result<Self, ParseError> {
        Ok(u8::parse(parser)?.cast_signed())
    }
}

impl<'a> Parse<'a> for i16 {
    ghost width = { 2 };

    ghost reads = { λ octets number. number ≡ cast_signed w16 (from_be_bytes w16 octets) };

    fn parse(parser: &mut Parser<'a>) -> Result<Self, ParseError> {
        Ok(u16::parse(parser)?.cast_signed())
    }
}

impl<'a> Parse<'a> for i32 {
    ghost width = { 4 };

    ghost reads = { λ octets number. number ≡ cast_signed w32 (from_be_bytes w32 octets) };

    fn parse(parser: &mut Parser<'a>) -> Result<Self, ParseError> {
        Ok(u32::parse(parser)?.cast_signed())
    }
}

impl<'a> Parse<'a> for i64 {
    ghost width = { 8 };

    ghost reads = { λ octets number. number ≡ cast_signed w64 (from_be_bytes w64 octets) };

    fn parse(parser: &mut Parser<'a>) -> Result<Self, ParseError> {
        Ok(u64::parse(parser)?.cast_signed())
    }
}

impl<'a> Parse<'a> for Ipv4Addr {
    ghost width = { 4 };

    ghost reads = { λ octets address. ipv4_octets address ≡ octets };

    fn parse(parser: &mut Parser<'a>) -> Result<Self, ParseError> {
        Ok(Ipv4Addr::from_octets(<[u8; 4]>::parse(parser)?))
    }
}

impl<'a> Parse<'a> for Ipv6Addr {
    ghost width = { 16 };

    ghost reads = { λ octets address. ipv6_octets address ≡ octets };

    fn parse(parser: &mut Parser<'a>) -> Result<Self, ParseError> {
        Ok(ipv6_addr(&<[u8; 16]>::parse(parser)?))
    }
}

/// Returns the address of these octets.
fn ipv6_addr(octets: &[u8; 16]) -> Ipv6Addr
    ensures { ipv6_octets result ≡ octets.now }
{
    Ipv6Addr::from_octets(*octets)
}

impl<'a, const N: usize> Parse<'a> for [u8; N] {
    ghost width = { N };

    ghost reads = { λ octets array. array ≡ octets };

    fn parse(parser: &mut Parser<'a>) -> Result<Self, ParseError> {
        let mut octets = [0; N];
        parser.parse_buf(&mut octets)?;
        Ok(octets)
    }
}
