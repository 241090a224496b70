//! Records in a message.
ghost use Rattle.std.specs.Prelude.{◌≡◌, ◌↔◌, true, is_some, IfOk, IfErr, IfSome, OnErr};
ghost use Rattle.dns_octets.specs.declared.error.ParseError.TheVariants.{ShortInput};
ghost use Rattle.dns_octets.specs.Parser.{octets_of, place_of};
ghost use Rattle.dns_name.specs.ParsedName.{labels_of};
ghost use Rattle.dns_header.specs.Head.{labelled, NoWhole, WholeIsCut};
ghost use Rattle.dns_header.specs.ParsedRecord.{Parsed, HoldsRecord, IsRecordOf, HasNoData};
ghost use Rattle.dns_header.specs.Record.{with_labels};

mod order;
mod skip;

use crate::{Record, RecordHeader};
use dns_name::{
    Class, ParseAnyRecordData, ParseError, ParseRecordData, ParsedName, Parser, Rtype, Ttl,
};
use std::marker::Model;

/// A record in a message, with unparsed data.
#[derive(Debug, Drop)]
pub struct ParsedRecord<'a> {
    header: RecordHeader<ParsedName<&'a [u8]>>,
    /// At the start of the data, and ends with the data.
    data: Parser<'a>,
}

impl<'a> Model for ParsedRecord<'a> {
    ghost Value = { Parsed };

    ghost view = { λ parsed. record { head = labelled labels_of parsed.header; rdata = parsed.«data» } };
}

impl<'a> ParsedRecord<'a> {
    /// Returns the record with this header; the parser must be at the start of the data and end with it.
    pub fn new(header: RecordHeader<ParsedName<&'a [u8]>>, parser: Parser<'a>) -> Self
        ensures { result ≡ record { head = labelled labels_of header.entry; rdata = parser.entry } }
    {
        ParsedRecord {
            header,
            data: parser,
        }
    }

    /// Returns the owner.
    pub fn owner(&self) -> ParsedName<&'a [u8]>
        ensures { labels_of result ≡ self.now.head.owner }
    {
        *self.header.owner()
    }

    /// Returns the type of the data.
    pub fn rtype(&self) -> Rtype
        ensures { result ≡ self.now.head.rtype }
    {
        self.header.rtype()
    }

    /// Returns the class.
    pub fn class(&self) -> Class
        ensures { result ≡ self.now.head.class }
    {
        self.header.class()
    }

    /// Returns how long the record may be cached.
    pub fn ttl(&self) -> Ttl
        ensures { result ≡ self.now.head.ttl }
    {
        self.header.ttl()
    }

    /// Returns how many octets the data has.
    pub fn rdlen(&self) -> u16
        ensures { result ≡ self.now.head.data_len }
    {
        self.header.rdlen()
    }

    /// Parses the record at the parser's place, but not its data, and moves the parser after it. Fails if no record is
    /// there, and with `ShortInput` exactly if the message ends too early for it. The parser then stays where it is.
    pub fn parse(parser: &mut Parser<'a>) -> Result<Self, ParseError>
        ensures ok { IfOk result (λ found. HoldsRecord (octets_of parser.old) (place_of parser.old) found (place_of parser.new)) }
        ensures err { OnErr result (NoWhole (octets_of parser.old) (place_of parser.old)) }
        ensures short { IfErr result (λ error. (error ≡ ShortInput) ↔ WholeIsCut (octets_of parser.old) (place_of parser.old)) }
        ensures same { octets_of parser.new ≡ octets_of parser.old }
        ensures stays { OnErr result (parser.new ≡ parser.old) }
    {
        let mut ahead = *parser;
        let header = RecordHeader::parse(&mut ahead)?;
        let data = ahead.parse_parser(usize::from(header.rdlen()))?;
        *parser = ahead;
        Ok(ParsedRecord { header, data })
    }

    /// Parses the data. Returns the record, or None if `Data` does not take the type. Fails if the data is none of the
    /// type.
    pub fn to_record<Data: ParseRecordData<'a>>(
        &self,
    ) -> Result<Option<Record<ParsedName<&'a [u8]>, Data>>, ParseError>
        ensures taken { IfOk result (λ found. is_some found ≡ Data.takes self.now.head.rtype) }
        ensures ok { IfOk result (λ found. IfSome found (λ rr. IsRecordOf Data.reads self.now (with_labels labels_of rr))) }
        ensures err { OnErr result ((Data.takes self.now.head.rtype ≡ true) × HasNoData Data.reads self.now) }
    {
        let mut parser = self.data;
        match Data::parse_rdata(self.rtype(), &mut parser)? {
            Some(rdata) => Ok(Some(self.with_data(rdata))),
            None => Ok(None),
        }
    }

    /// As `to_record`, but consumes the parsed record.
    pub fn into_record<Data: ParseRecordData<'a>>(
        self,
    ) -> Result<Option<Record<ParsedName<&'a [u8]>, Data>>, ParseError>
        ensures taken { IfOk result (λ found. is_some found ≡ Data.takes self.entry.head.rtype) }
        ensures ok { IfOk result (λ found. IfSome found (λ rr. IsRecordOf Data.reads self.entry (with_labels labels_of rr))) }
        ensures err { OnErr result ((Data.takes self.entry.head.rtype ≡ true) × HasNoData Data.reads self.entry) }
    {
        self.to_record()
    }

    /// Parses the data, whatever its type, and returns the record. Fails if the data is none of the type.
    pub fn to_any_record<Data: ParseAnyRecordData<'a>>(
        &self,
    ) -> Result<Record<ParsedName<&'a [u8]>, Data>, ParseError>
        ensures ok { IfOk result (λ rr. IsRecordOf Data.reads_any self.now (with_labels labels_of rr)) }
        ensures err { OnErr result (HasNoData Data.reads_any self.now) }
    {
        let mut parser = self.data;
        let rdata = Data::parse_any_rdata(self.rtype(), &mut parser)?;
        Ok(self.with_data(rdata))
    }

    /// As `to_any_record`, but consumes the parsed record.
    pub fn into_any_record<Data: ParseAnyRecordData<'a>>(
        self,
    ) -> Result<Record<ParsedName<&'a [u8]>, Data>, ParseError>
        ensures ok { IfOk result (λ rr. IsRecordOf Data.reads_any self.entry (with_labels labels_of rr)) }
        ensures err { OnErr result (HasNoData Data.reads_any self.entry) }
    {
        self.to_any_record()
    }

    /// Returns the record with this data.
    fn with_data<Data>(&self, rdata: Data) -> Record<ParsedName<&'a [u8]>, Data>
        ensures { with_labels labels_of result ≡ record {
          owner = self.now.head.owner;
          class = self.now.head.class;
          ttl = self.now.head.ttl;
          rdata = rdata;
        } }
    {
        Record::new(self.owner(), self.class(), self.ttl(), rdata)
    }
}
