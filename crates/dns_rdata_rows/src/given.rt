//! Data that a row gives: its type, and a message with the data from a place up to the end.
use crate::zone_data::{answer_method, layout_of};
use dns_name::{ParseAnyRecordData, ParseError, ParsedName, Parser, Rtype, UnknownRecordData};
use dns_rdata::ZoneRecordData;
use dns_text::ZonefileFmt;
use rows::{Answer, Row, RowError};
use std::alloc::Global;

/// Data in a message.
pub type Read<'a> = ZoneRecordData<&'a [u8], ParsedName<&'a [u8]>>;

/// Data as a row gives it.
#[derive(Clone, Copy)]
pub struct Given {
    rtype: Rtype,
    place: usize,
    is_unknown: bool,
}

impl Given {
    /// Takes a type, and the place after its `@` if there is one.
    pub fn of(row: &mut Row<'_>) -> Result<Self, RowError> {
        let word = row.word()?;
        let (is_unknown, word) = match word.strip_prefix("\\#") {
            Some(word) => (true, word),
            None => (false, word),
        };
        let (mnemonic, place) = match word.split_once('@') {
            Some((mnemonic, place)) => (mnemonic, place),
            None => (word, "0"),
        };
        match (mnemonic.parse(), place.parse()) {
            (Ok(rtype), Ok(place)) => Ok(Given {
                rtype,
                place,
                is_unknown,
            }),
            _ => Err(RowError::BadWord),
        }
    }

    /// Parses the data of these octets: its fields from the place on, or all octets if it is
    /// unknown data.
    pub fn read<'a>(self, octets: &'a [u8]) -> Result<Read<'a>, ParseError> {
        if self.is_unknown {
            return match UnknownRecordData::from_octets(self.rtype, octets) {
                Ok(rdata) => Ok(ZoneRecordData::Unknown(rdata)),
                Err(_) => Err(ParseError::ShortInput),
            };
        }
        let mut parser = Parser::from_ref(octets);
        match parser.advance(self.place) {
            Ok(()) => ZoneRecordData::parse_any_rdata(self.rtype, &mut parser),
            Err(_) => Err(ParseError::ShortInput),
        }
    }
}

/// Answers a method of data that the row gives, or why there is no such data.
pub fn answer(alloc: Global, row: &mut Row<'_>, out: &mut Answer) -> Result<(), RowError> {
    let given = Given::of(row)?;
    let octets = row.octets(alloc)?;
    match given.read(octets.as_slice()) {
        Ok(rdata) => answer_method(alloc, row.call(), &rdata, out),
        Err(error) => out.refused(&error),
    }
}

/// Answers the text of data in a layout, as a literal.
pub fn answer_layout(alloc: Global, row: &mut Row<'_>, out: &mut Answer) -> Result<(), RowError> {
    let kind = layout_of(row)?;
    let given = Given::of(row)?;
    let octets = row.octets(alloc)?;
    match given.read(octets.as_slice()) {
        Ok(rdata) => out.named(&rdata.display_zonefile(kind).to_string(alloc)?.as_str()),
        Err(error) => out.refused(&error),
    }
}
