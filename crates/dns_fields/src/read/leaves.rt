//! Fields that are read.
use super::{ReadError, ReadField};
use crate::{Compressible, Tag, Uncompressed};
use dns_name::{Parse, ParsedName, Parser};
use dns_text::CharStr;
use std::net::{Ipv4Addr, Ipv6Addr};

impl<'a> ReadField<'a> for u8 {
    fn read_field(parser: &mut Parser<'a>) -> Result<Self, ReadError> {
        Ok(parser.parse_u8()?)
    }
}

impl<'a> ReadField<'a> for u16 {
    fn read_field(parser: &mut Parser<'a>) -> Result<Self, ReadError> {
        Ok(parser.parse_u16_be()?)
    }
}

impl<'a> ReadField<'a> for u32 {
    fn read_field(parser: &mut Parser<'a>) -> Result<Self, ReadError> {
        Ok(parser.parse_u32_be()?)
    }
}

impl<'a> ReadField<'a> for Ipv4Addr {
    fn read_field(parser: &mut Parser<'a>) -> Result<Self, ReadError> {
        match Ipv4Addr::parse(parser) {
            Ok(address) => Ok(address),
            Err(_) => Err(ReadError::ShortInput),
        }
    }
}

impl<'a> ReadField<'a> for Ipv6Addr {
    fn read_field(parser: &mut Parser<'a>) -> Result<Self, ReadError> {
        match Ipv6Addr::parse(parser) {
            Ok(address) => Ok(address),
            Err(_) => Err(ReadError::ShortInput),
        }
    }
}

impl<'a> ReadField<'a> for Compressible<ParsedName<&'a [u8]>> {
    fn read_field(parser: &mut Parser<'a>) -> Result<Self, ReadError> {
        match ParsedName::parse(parser) {
            Ok(name) => Ok(Compressible(name)),
            Err(error) => Err(ReadError::of_name(error)),
        }
    }
}

impl<'a> ReadField<'a> for Uncompressed<ParsedName<&'a [u8]>> {
    fn read_field(parser: &mut Parser<'a>) -> Result<Self, ReadError> {
        match ParsedName::parse(parser) {
            Ok(name) => Ok(Uncompressed(name)),
            Err(error) => Err(ReadError::of_name(error)),
        }
    }
}

impl<'a> ReadField<'a> for CharStr<&'a [u8]> {
    fn read_field(parser: &mut Parser<'a>) -> Result<Self, ReadError> {
        match CharStr::parse(parser) {
            Ok(string) => Ok(string),
            Err(_) => Err(ReadError::ShortInput),
        }
    }
}

impl<'a> ReadField<'a> for Tag<&'a [u8]> {
    fn read_field(parser: &mut Parser<'a>) -> Result<Self, ReadError> {
        match CharStr::parse(parser) {
            Ok(string) => Ok(Tag(string)),
            Err(_) => Err(ReadError::ShortInput),
        }
    }
}
