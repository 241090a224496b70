//! Rests that are read.
use super::{ReadError, ReadRow};
use crate::{Last, Rest16, Rest64, RestText, Strings};
use dns_name::Parser;

impl<'a> ReadRow<'a> for Last<RestText<&'a [u8]>> {
    fn read_fields(parser: &mut Parser<'a>) -> Result<Self, ReadError> {
        let octets = parser.peek_all();
        parser.advance_to_end();
        Ok(Last(RestText(octets)))
    }
}

impl<'a> ReadRow<'a> for Last<Rest16<&'a [u8]>> {
    fn read_fields(parser: &mut Parser<'a>) -> Result<Self, ReadError> {
        let octets = parser.peek_all();
        parser.advance_to_end();
        Ok(Last(Rest16(octets)))
    }
}

impl<'a> ReadRow<'a> for Last<Rest64<&'a [u8]>> {
    fn read_fields(parser: &mut Parser<'a>) -> Result<Self, ReadError> {
        let octets = parser.peek_all();
        parser.advance_to_end();
        Ok(Last(Rest64(octets)))
    }
}

/// One string at least.
impl<'a> ReadRow<'a> for Last<Strings<&'a [u8]>> {
    fn read_fields(parser: &mut Parser<'a>) -> Result<Self, ReadError> {
        let octets = parser.peek_all();
        match Strings::from_octets(octets) {
            Some(strings) => {
                parser.advance_to_end();
                Ok(Last(strings))
            }
            None => Err(ReadError::ShortInput),
        }
    }
}
