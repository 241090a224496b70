//! Data of any type, parsed from a message.
ghost use Rattle.std.specs.Prelude.{true};
ghost use Rattle.dns_rdata.specs.Data.{ReadsData};
ghost use Rattle.dns_rdata.specs.ZoneData.{data_of};

use super::ZoneRecordData;
use dns_name::{
    ParseAnyRecordData, ParseError, ParseRecordData, ParsedName, Parser, Rtype, UnknownRecordData,
};
use dns_rr_data::ParseData;

/// The arms of `parse_any_rdata`.
macro_rules! parsed {
    (($type:ident, $parser:ident) $($variant:ident = $rtype:ident: $row:ty,)*) => {
        match $type {
            $(Rtype::$rtype => held!($variant, crate::$variant::parse_data($parser)),)*
            _ => held!(Unknown, UnknownRecordData::parse_any_rdata($type, $parser)),
        }
    };
}

/// Parses the fields of the types that have some, up to the end of the parser with nothing left, and data of every other type
/// as at most 65,535 opaque octets.
impl<'a> ParseAnyRecordData<'a> for ZoneRecordData<&'a [u8], ParsedName<&'a [u8]>> {
    ghost reads_any = { λ message place number rdata. ReadsData message place number (data_of rdata) };

    fn parse_any_rdata(rtype: Rtype, parser: &mut Parser<'a>) -> Result<Self, ParseError> {
        with_types!(parsed, rtype, parser)
    }
}

/// Takes every type.
impl<'a> ParseRecordData<'a> for ZoneRecordData<&'a [u8], ParsedName<&'a [u8]>> {
    ghost takes = { λ _. true };

    ghost reads = { λ message place number rdata. ReadsData message place number (data_of rdata) };

    fn parse_rdata(rtype: Rtype, parser: &mut Parser<'a>) -> Result<Option<Self>, ParseError> {
        Ok(Some(ZoneRecordData::parse_any_rdata(rtype, parser)?))
    }
}
