//! Record headers: the fields of a record before its data.
ghost use Rattle.std.specs.Prelude.{◌≡◌, ◌+◌, ◌≤◌, ◌↔◌, ◌++◌, ℕ, Err, length, take, drop, is_some, IsOk, IfOk, IfErr, IfSome, OnOk, OnErr};
ghost use Rattle.std.specs.Int.{from_be_bytes, to_be_bytes, w16, w32};
ghost use Rattle.dns_octets.specs.Builder.{GrowsTo, IsPast};
ghost use Rattle.dns_octets.specs.declared.error.AppendError.TheVariants.{ShortBuf, BadLength};
ghost use Rattle.dns_octets.specs.declared.error.ParseError.TheVariants as parse_error;
ghost use Rattle.dns_name.specs.Page.{write};
ghost use Rattle.dns_name.specs.RecordData.{page_of};
ghost use Rattle.dns_octets.specs.Numbers.{number_at};
ghost use Rattle.dns_octets.specs.Parser.{GoesOn, octets_of, place_of};
ghost use Rattle.dns_name.specs.ParsedName.{labels_of};
ghost use Rattle.dns_header.specs.Head.{Head, labelled, fixed_octets, head_parts, canonical_head, ReadsHead, ReadsWhole, NoHead, NoWhole, HeadIsCut, WholeIsCut};
ghost use Rattle.dns_header.specs.Record.{RecordOf, ReadsData, NoData, DataIsRefused};

mod order;

use crate::Record;
use crate::compose::{compose_canonical_head, compose_head, fixed};
use dns_name::{
    AppendError, Class, Composer, ParseAnyRecordData, ParseError, ParseRecordData, ParsedName,
    Parser, Rtype, ShortInput, ToName, Ttl,
};
use std::marker::Model;

/// Owner, type, class, TTL and RDLENGTH of a record (RFC 1035 3.2.1).
#[derive(Clone, Copy, Debug, Drop)]
pub struct RecordHeader<N> {
    owner: N,
    rtype: Rtype,
    class: Class,
    ttl: Ttl,
    rdlen: u16,
}

impl<N> Model for RecordHeader<N> {
    ghost Value = { Head N };

    ghost view = { λ header. record {
      owner = header.owner;
      rtype = header.rtype;
      class = header.class;
      ttl = header.ttl;
      data_len = header.rdlen;
    } };

    ghost inverse = { λ head. record {
      owner = head.owner;
      rtype = head.rtype;
      class = head.class;
      ttl = head.ttl;
      rdlen = head.data_len;
    } };
}

impl<N> RecordHeader<N> {
    /// Returns the header with these fields.
    pub fn new(owner: N, rtype: Rtype, class: Class, ttl: Ttl, rdlen: u16) -> Self
        ensures { result ≡ record { owner = owner; rtype = rtype; class = class; ttl = ttl; data_len = rdlen } }
    {
        RecordHeader {
            owner,
            rtype,
            class,
            ttl,
            rdlen,
        }
    }

    /// Returns the owner.
    pub fn owner(&self) -> &N
        ensures { result.now ≡ self.now.owner }
    {
        &self.owner
    }

    /// Returns the type of the data.
    pub fn rtype(&self) -> Rtype
        ensures { result ≡ self.now.rtype }
    {
        self.rtype
    }

    /// Returns the class.
    pub fn class(&self) -> Class
        ensures { result ≡ self.now.class }
    {
        self.class
    }

    /// Returns how long the record may be cached.
    pub fn ttl(&self) -> Ttl
        ensures { result ≡ self.now.ttl }
    {
        self.ttl
    }

    /// Returns how many octets the data has.
    pub fn rdlen(&self) -> u16
        ensures { result ≡ self.now.data_len }
    {
        self.rdlen
    }
}

impl<'a> RecordHeader<ParsedName<&'a [u8]>> {
    /// Parses the record header at the parser's place, and moves the parser to the data. Fails if no record header is
    /// there, and with `ShortInput` exactly if the message ends too early for it. The parser then stays where it is.
    pub fn parse(parser: &mut Parser<'a>) -> Result<Self, ParseError>
        ensures ok { IfOk result (λ header. ReadsHead (octets_of parser.old) (place_of parser.old) (labelled labels_of header) (place_of parser.new)) }
        ensures err { OnErr result (NoHead (octets_of parser.old) (place_of parser.old)) }
        ensures short { IfErr result (λ error. (error ≡ parse_error.ShortInput) ↔ HeadIsCut (octets_of parser.old) (place_of parser.old)) }
        ensures same { octets_of parser.new ≡ octets_of parser.old }
        ensures stays { OnErr result (parser.new ≡ parser.old) }
    {
        let start = *parser;
        let owner = ParsedName::parse(parser)?;
        match parse_fixed(parser) {
            Ok((rtype, class, ttl, rdlen)) => Ok(RecordHeader::new(
                owner, rtype, class, ttl, rdlen,
            )),
            Err(error) => {
                *parser = start;
                Err(ParseError::from(error))
            }
        }
    }

    /// The same as `parse`.
    pub fn parse_ref(parser: &mut Parser<'a>) -> Result<Self, ParseError>
        ensures ok { IfOk result (λ header. ReadsHead (octets_of parser.old) (place_of parser.old) (labelled labels_of header) (place_of parser.new)) }
        ensures err { OnErr result (NoHead (octets_of parser.old) (place_of parser.old)) }
        ensures short { IfErr result (λ error. (error ≡ parse_error.ShortInput) ↔ HeadIsCut (octets_of parser.old) (place_of parser.old)) }
        ensures same { octets_of parser.new ≡ octets_of parser.old }
        ensures stays { OnErr result (parser.new ≡ parser.old) }
    {
        RecordHeader::parse(parser)
    }

    /// Parses the record header at the parser's place, and moves the parser after the data, which is not parsed. Fails
    /// if no record header with its data is there, and with `ShortInput` exactly if the message ends too early for
    /// them. The parser then stays where it is.
    pub fn parse_and_skip(parser: &mut Parser<'a>) -> Result<Self, ParseError>
        ensures ok { IfOk result (λ header. (data_place : ℕ) × ReadsWhole (octets_of parser.old) (place_of parser.old)
            (labelled labels_of header) data_place (place_of parser.new)) }
        ensures err { OnErr result (NoWhole (octets_of parser.old) (place_of parser.old)) }
        ensures short { IfErr result (λ error. (error ≡ parse_error.ShortInput) ↔ WholeIsCut (octets_of parser.old) (place_of parser.old)) }
        ensures same { octets_of parser.new ≡ octets_of parser.old }
        ensures stays { OnErr result (parser.new ≡ parser.old) }
    {
        let mut ahead = *parser;
        let header = RecordHeader::parse(&mut ahead)?;
        ahead.advance(usize::from(header.rdlen))?;
        *parser = ahead;
        Ok(header)
    }
}

impl<N> RecordHeader<N> {
    /// Returns the record with this data.
    pub fn into_record<Data>(self, rdata: Data) -> Record<N, Data>
        ensures { result ≡ record { owner = self.owner; class = self.class; ttl = self.ttl; rdata = rdata } }
    {
        Record::new(self.owner, self.class, self.ttl, rdata)
    }
}

impl<'a, N> RecordHeader<N> {
    /// Parses the data at the parser's place, and moves the parser after it. Returns the record, or None if `Data` does
    /// not take the type. Fails if the message ends before the data does, or the data is none of the type. The parser
    /// then stays where it is.
    pub fn parse_into_record<Data: ParseRecordData<'a>>(
        self,
        parser: &mut Parser<'a>,
    ) -> Result<Option<Record<N, Data>>, ParseError>
    where
        N: Drop,
        ensures taken { IfOk result (λ found. is_some found ≡ Data.takes self.rtype) }
        ensures ok { IfOk result (λ found. IfSome found (ReadsData Data.reads (octets_of parser.old) (place_of parser.old) self)) }
        ensures place { OnOk result (GoesOn parser.old parser.new self.data_len) }
        ensures err { OnErr result (DataIsRefused Data.takes Data.reads (octets_of parser.old) (place_of parser.old) self.rtype self.data_len) }
        ensures stays { OnErr result (parser.new ≡ parser.old) }
    {
        let mut ahead = *parser;
        let mut inner = ahead.parse_parser(usize::from(self.rdlen))?;
        let found = Data::parse_rdata(self.rtype, &mut inner)?;
        *parser = ahead;
        match found {
            Some(rdata) => Ok(Some(self.into_record(rdata))),
            None => Ok(None),
        }
    }

    /// Parses the data at the parser's place, whatever its type, and moves the parser after it. Returns the record.
    /// Fails if the message ends before the data does, or the data is none of the type. The parser then stays where it
    /// is.
    pub fn parse_into_any_record<Data: ParseAnyRecordData<'a>>(
        self,
        parser: &mut Parser<'a>,
    ) -> Result<Record<N, Data>, ParseError>
    where
        N: Drop,
        ensures ok { IfOk result (ReadsData Data.reads_any (octets_of parser.old) (place_of parser.old) self) }
        ensures place { OnOk result (GoesOn parser.old parser.new self.data_len) }
        ensures err { OnErr result (NoData Data.reads_any (octets_of parser.old) (place_of parser.old) self.rtype self.data_len) }
        ensures stays { OnErr result (parser.new ≡ parser.old) }
    {
        let mut ahead = *parser;
        let mut inner = ahead.parse_parser(usize::from(self.rdlen))?;
        let rdata = Data::parse_any_rdata(self.rtype, &mut inner)?;
        *parser = ahead;
        Ok(self.into_record(rdata))
    }
}

impl<N: ToName> RecordHeader<N> {
    /// Appends the record header, all or nothing: the owner, which may be written with a pointer, and the other fields.
    /// Fails with `ShortBuf` only if the target is too full, and with `OutOfMemory` only if out of memory.
    pub fn compose<Target: Composer>(&self, target: &mut Target) -> Result<(), AppendError>
        ensures ok { OnOk result (page_of (Target.list target.new) (Target.known target.new)
            ≡ write Target.spelling (page_of (Target.list target.old) (Target.known target.old)) (head_parts (labelled N.name self.now))) }
        ensures err { OnErr result ((Target.list target.new ≡ Target.list target.old)
            × (Target.known target.new ≡ Target.known target.old)) }
        ensures grows { GrowsTo (Target.list target.old) (Target.known target.old) (Target.list target.new)
            (Target.known target.new) }
        ensures short { result ≡ Err ShortBuf → IsPast (Target.bound target.old)
            (length (write Target.spelling (page_of (Target.list target.old) (Target.known target.old))
            (head_parts (labelled N.name self.now))).octets) }
        ensures not_bad { result ≡ Err BadLength → ⊥ }
        ensures same_bound { Target.bound target.new ≡ Target.bound target.old }
        ensures stays { Target.stays target.old target.new }
    {
        compose_head(&self.owner, &self.fixed(), target)
    }

    /// Appends the record header in canonical form, with the owner in full and in lower case (RFC 4034 6.2). Fails as
    /// `compose` does.
    pub fn compose_canonical<Target: Composer>(
        &self,
        target: &mut Target,
    ) -> Result<(), AppendError>
        ensures ok { OnOk result (Target.list target.new ≡ Target.list target.old ++ canonical_head (labelled N.name self.now)) }
        ensures err { OnErr result (Target.list target.new ≡ Target.list target.old) }
        ensures known { Target.known target.new ≡ Target.known target.old }
        ensures short { result ≡ Err ShortBuf → IsPast (Target.bound target.old) (length (Target.list target.old ++ canonical_head (labelled N.name self.now))) }
        ensures not_bad { result ≡ Err BadLength → ⊥ }
        ensures same_bound { Target.bound target.new ≡ Target.bound target.old }
        ensures stays { Target.stays target.old target.new }
    {
        compose_canonical_head(&self.owner, &self.fixed(), target)
    }

    /// Returns the octets after the owner.
    fn fixed(&self) -> [u8; 10]
        ensures { result ≡ fixed_octets self.now.rtype self.now.class self.now.ttl ++ to_be_bytes w16 self.now.data_len }
    {
        let [a, b, c, d, e, f, g, h] = fixed(self.rtype, self.class, self.ttl);
        let [i, j] = self.rdlen.to_be_bytes();
        [a, b, c, d, e, f, g, h, i, j]
    }
}

/// Parses the type, the class, the TTL and the length of the data. Fails exactly if fewer than ten octets are left. The
/// parser then stays where it is.
fn parse_fixed(parser: &mut Parser<'_>) -> Result<(Rtype, Class, Ttl, u16), ShortInput>
    ensures enough { IsOk result ↔ (place_of parser.old + 10 ≤ length (octets_of parser.old)) }
    ensures place { OnOk result (GoesOn parser.old parser.new 10) }
    ensures rtype { IfOk result (λ fixed. fixed.0 ≡ number_at (octets_of parser.old) (place_of parser.old)) }
    ensures class { IfOk result (λ fixed. fixed.1 ≡ number_at (octets_of parser.old) (place_of parser.old + 2)) }
    ensures ttl { IfOk result (λ fixed. fixed.2 ≡ from_be_bytes w32 (take 4 (drop (place_of parser.old + 4) (octets_of parser.old)))) }
    ensures len { IfOk result (λ fixed. fixed.3 ≡ number_at (octets_of parser.old) (place_of parser.old + 8)) }
    ensures err { OnErr result (parser.new ≡ parser.old) }
{
    parser.peek(10)?;
    let rtype = Rtype::from_int(parser.parse_u16_be()?);
    let class = Class::from_int(parser.parse_u16_be()?);
    let ttl = Ttl::from_secs(parser.parse_u32_be()?);
    Ok((rtype, class, ttl, parser.parse_u16_be()?))
}
