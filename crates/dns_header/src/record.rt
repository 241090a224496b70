//! Records.
ghost use Rattle.std.specs.Prelude.{◌≡◌, ◌≤◌, ◌<◌, ◌++◌, ℕ, List, Err, length, is_some, IfOk, IfSome, OnOk, OnErr};
ghost use Rattle.dns_octets.specs.Parser.{octets_of, place_of};
ghost use Rattle.dns_name.specs.ParsedName.{labels_of};
ghost use Rattle.dns_header.specs.Head.{Head, ReadsWhole};
ghost use Rattle.dns_header.specs.ParsedRecord.{NoRecord};
ghost use Rattle.dns_octets.specs.Builder.{GrowsTo, IsPast};
ghost use Rattle.dns_octets.specs.declared.error.AppendError.TheVariants.{ShortBuf, BadLength};
ghost use Rattle.dns_name.specs.Page.{write};
ghost use Rattle.dns_name.specs.RecordData.{page_of};
ghost use Rattle.dns_header.specs.Record.{ReadsData, with_labels};
ghost use Rattle.std.specs.Borrow.{sem, follows};
ghost use Rattle.dns_header.specs.contracts.record.Record.{the_row};
ghost use Rattle.dns_header.specs.RecordParts.{with_data, IsConvertedRecord};
ghost use Rattle.dns_header.specs.Written.{parts_of, written_of, canonical_of, data_length};

mod convert;
mod order;
mod parse_error;
mod show;

use crate::RecordHeader;
use crate::compose::{compose_canonical_parts, compose_parts};
use dns_name::{
    AppendError, Class, ComposeRecordData, Composer, OctetsFrom, ParseError, ParseRecordData,
    ParsedName, Parser, RecordData, Rtype, ToName, Ttl,
};
pub use parse_error::RecordParseError;
use std::alloc::Global;
use std::marker::Model;

/// A resource record: an owner, class, TTL, and data, which determines the type (RFC 1035 3.2.1).
#[derive(Clone, Debug, Drop)]
pub struct Record<N, Data> {
    owner: N,
    class: Class,
    ttl: Ttl,
    data: Data,
}

impl<N, Data> Model for Record<N, Data> {
    ghost use Rattle.dns_header.specs.Record.{RecordOf};

    ghost Value = { RecordOf N Data };

    ghost view = { λ rr. record { owner = rr.owner; class = rr.class; ttl = rr.ttl; rdata = rr.data } };

    ghost inverse = { λ rr. record { owner = rr.owner; class = rr.class; ttl = rr.ttl; «data» = rr.rdata } };
}

impl<N, Data> Record<N, Data> {
    /// Returns the record with these fields. Its type is that of the data.
    pub fn new(owner: N, class: Class, ttl: Ttl, rdata: Data) -> Self
        ensures { result ≡ record { owner = owner; class = class; ttl = ttl; rdata = rdata } }
    {
        Record {
            owner,
            class,
            ttl,
            data: rdata,
        }
    }

    /// Returns the owner.
    pub fn owner(&self) -> &N
        ensures { result.now ≡ self.now.owner }
    {
        &self.owner
    }

    /// Returns the class.
    pub fn class(&self) -> Class
        ensures { result ≡ self.now.class }
    {
        self.class
    }

    /// Returns how long the record may be cached.
    pub fn ttl(&self) -> Ttl
        ensures { result ≡ self.now.ttl }
    {
        self.ttl
    }

    /// Returns the data.
    pub fn data(&self) -> &Data
        ensures { result.now ≡ self.now.rdata }
    {
        &self.data
    }

    /// Returns the data for changes. The other fields stay.
    pub fn data_mut(&mut self) -> &mut Data
        ensures value { result.now ≡ self.old.rdata }
        ensures* writes_back { sem 𝓛 (follows (the_row N.row Data.row) Data.row self.entry.ghost_name result.ghost_name (with_data self.old)) }
    {
        &mut self.data
    }

    /// Sets the class.
    pub fn set_class(&mut self, class: Class)
        ensures { self.new ≡ record { owner = self.old.owner; class = class; ttl = self.old.ttl; rdata = self.old.rdata } }
    {
        self.class = class;
    }

    /// Sets the TTL.
    pub fn set_ttl(&mut self, ttl: Ttl)
        ensures { self.new ≡ record { owner = self.old.owner; class = self.old.class; ttl = ttl; rdata = self.old.rdata } }
    {
        self.ttl = ttl;
    }

    /// Returns the data, and drops the rest.
    pub fn into_data(self) -> Data
    where
        N: Drop,
        ensures { result ≡ self.rdata }
    {
        self.data
    }

    /// Returns the owner and the data.
    pub fn into_owner_and_data(self) -> (N, Data)
        ensures { (result.0 ≡ self.owner) × (result.1 ≡ self.rdata) }
    {
        (self.owner, self.data)
    }
}

impl<N: Drop, Data> Record<N, Data> {
    /// Converts the owner, and then the data, of another record.
    ///
    /// Fails if the conversion of the owner fails, or else that of the data, with its error.
    pub fn from_record<Source, SourceData>(
        alloc: Global,
        source: Record<Source, SourceData>,
    ) -> Result<Self, AppendError>
    where
        N: OctetsFrom<Source>,
        Data: OctetsFrom<SourceData>,
        SourceData: Drop,
        ensures { IsConvertedRecord N.octets_from_gives Data.octets_from_gives source result }
    {
        let owner = N::try_octets_from(alloc, source.owner)?;
        let rdata = Data::try_octets_from(alloc, source.data)?;
        Ok(Record::new(owner, source.class, source.ttl, rdata))
    }
}

impl<N, Data: RecordData> Record<N, Data> {
    /// Returns the type of the data.
    pub fn rtype(&self) -> Rtype
        ensures { result ≡ Data.rtype self.now.rdata }
    {
        self.data.rtype()
    }
}

impl<N: ToName, Data: ComposeRecordData> Record<N, Data> {
    /// Appends the record, all or nothing. Fails as `ComposeRecord::compose_record` does.
    pub fn compose<Target: Composer>(&self, target: &mut Target) -> Result<(), AppendError>
        ensures ok { OnOk result (page_of (Target.list target.new) (Target.known target.new)
            ≡ write Target.spelling (page_of (Target.list target.old) (Target.known target.old)) (parts_of (written_of N.name Data.rtype Data.parts self.now))) }
        ensures err { OnErr result ((Target.list target.new ≡ Target.list target.old)
            × (Target.known target.new ≡ Target.known target.old)) }
        ensures grows { GrowsTo (Target.list target.old) (Target.known target.old) (Target.list target.new)
            (Target.known target.new) }
        ensures short { result ≡ Err ShortBuf → IsPast (Target.bound target.old)
            (length (write Target.spelling (page_of (Target.list target.old) (Target.known target.old))
            (parts_of (written_of N.name Data.rtype Data.parts self.now))).octets) }
        ensures bad { result ≡ Err BadLength → 65535 < data_length Target.spelling
            (page_of (Target.list target.old) (Target.known target.old)) (written_of N.name Data.rtype Data.parts self.now) }
        ensures counts { OnOk result (data_length Target.spelling
            (page_of (Target.list target.old) (Target.known target.old)) (written_of N.name Data.rtype Data.parts self.now) ≤ 65535) }
        ensures same_bound { Target.bound target.new ≡ Target.bound target.old }
        ensures stays { Target.stays target.old target.new }
    {
        compose_parts(&self.owner, self.class, self.ttl, &self.data, target)
    }

    /// Appends the canonical form of the record (RFC 4034 6.2), all or nothing: its owner and the names in its data in
    /// full and in lower case. Fails with `ShortBuf` only if the target is too full, with `BadLength` only if the data
    /// has more than 65,535 octets, and with `OutOfMemory` only if out of memory.
    pub fn compose_canonical<Target: Composer>(
        &self,
        target: &mut Target,
    ) -> Result<(), AppendError>
        ensures ok { OnOk result (Target.list target.new ≡ Target.list target.old ++ canonical_of N.name Data.rtype Data.canonical_octets self.now) }
        ensures err { OnErr result (Target.list target.new ≡ Target.list target.old) }
        ensures known { Target.known target.new ≡ Target.known target.old }
        ensures short { result ≡ Err ShortBuf → IsPast (Target.bound target.old) (length (Target.list target.old ++ canonical_of N.name Data.rtype Data.canonical_octets self.now)) }
        ensures bad { result ≡ Err BadLength → 65535 < length (Data.canonical_octets self.now.rdata) }
        ensures counts { OnOk result (length (Data.canonical_octets self.now.rdata) ≤ 65535) }
        ensures same_bound { Target.bound target.new ≡ Target.bound target.old }
        ensures stays { Target.stays target.old target.new }
    {
        compose_canonical_parts(&self.owner, self.class, self.ttl, &self.data, target)
    }
}

impl<'a, Data: ParseRecordData<'a>> Record<ParsedName<&'a [u8]>, Data> {
    /// Parses the record at the parser's place, and moves the parser after it. Returns None if `Data` does not take the
    /// type. Fails if no record is there, or its data is none of the type. The parser then stays where it is.
    pub fn parse(parser: &mut Parser<'a>) -> Result<Option<Self>, ParseError>
        ensures ok { IfOk result (λ found. (head : Head (List (List ℕ))) × (data_place : ℕ)
            × ReadsWhole (octets_of parser.old) (place_of parser.old) head data_place (place_of parser.new)
            × (is_some found ≡ Data.takes head.rtype)
            × IfSome found (λ rr. ReadsData Data.reads (octets_of parser.old) data_place head (with_labels labels_of rr))) }
        ensures err { OnErr result (NoRecord Data.takes Data.reads (octets_of parser.old) (place_of parser.old)) }
        ensures same { octets_of parser.new ≡ octets_of parser.old }
        ensures stays { OnErr result (parser.new ≡ parser.old) }
    {
        let mut ahead = *parser;
        let header = RecordHeader::parse(&mut ahead)?;
        let found = header.parse_into_record(&mut ahead)?;
        *parser = ahead;
        Ok(found)
    }
}
