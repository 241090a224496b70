//! The records of a zone, for its users.
ghost use Rattle.std.specs.Prelude.{◌<◌, length};
ghost use Rattle.std.specs.List.{AllByRecursion};
ghost use Rattle.zone_records.specs.Typed.{HasLawfulData};

use dns_name::{Class, Name, ParsedName, Rtype, Ttl};
use dns_rdata::ZoneRecordData;
use std::marker::Model;
use zone_records::record_list::RecordList;
use zone_records::typed::parse_data;

/// An iterator over the records of a zone, in order.
#[derive(Debug, Drop)]
pub struct ZoneRecords<'a> {
    list: &'a RecordList,
    next: usize,
}

impl<'a> Model for ZoneRecords<'a> {
    ghost use Rattle.std.specs.Prelude.{List, drop};
    ghost use Rattle.zone_records.specs.Record.{Record};
    ghost use Rattle.zone.specs.View.{IsPlaceIn};

    ghost Value = { List Record };

    ghost view = { λ it. drop it.next it.list.now };

    ghost invariant = { λ it. IsPlaceIn it.list.now it.next };
}

impl<'a> ZoneRecords<'a> {
    ghost use Rattle.std.specs.Prelude.{◌≡◌};

    /// Returns an iterator over all records of the list.
    pub(crate) fn of_list(list: &'a RecordList) -> ZoneRecords<'a>
        requires { AllByRecursion HasLawfulData list.now }
        ensures { result ≡ list.now }
    {
        ZoneRecords { list, next: 0 }
    }
}

impl<'a> Iterator for ZoneRecords<'a> {
    ghost use Rattle.std.specs.Iterator.{YieldsFirstBy, item_count};
    ghost use Rattle.zone.specs.Seen.{seen_record};

    type Item = ZoneRecord<'a>;

    ghost next_gives = { YieldsFirstBy seen_record (λ records. records) };

    ghost remaining = { item_count (λ records. records) };

    fn next(&mut self) -> Option<ZoneRecord<'a>> {
        if self.next == self.list.len() {
            return None;
        }
        let record = ZoneRecord {
            list: self.list,
            index: self.next,
        };
        self.next += 1;
        Some(record)
    }
}

/// A record of a zone (RFC 1035 3.2.1).
#[derive(Clone, Copy, Debug)]
pub struct ZoneRecord<'a> {
    list: &'a RecordList,
    index: usize,
    ghost within: { index < length list.now },
    ghost lawful: { ∥ AllByRecursion HasLawfulData list.now ∥₁ },
}

impl<'a> ZoneRecord<'a> {
    ghost use Rattle.std.specs.Prelude.{◌≡◌};
    ghost use Rattle.dns_rdata.specs.Data.{number_of};
    ghost use Rattle.dns_rdata.specs.DataOctets.{data_octets};
    ghost use Rattle.dns_rdata.specs.ZoneData.{data_of};
    ghost use Rattle.zone_records.specs.Typed.{HasFieldsOfType};
    ghost use Rattle.zone.specs.Seen.{seen_record};

    /// Returns the owner.
    pub fn owner(&self) -> Name<&'a [u8]>
        ensures { result ≡ (seen_record self.now).owner }
    {
        self.list.record_at(self.index).owner()
    }

    /// Returns the type.
    pub fn rtype(&self) -> Rtype
        ensures { result ≡ (seen_record self.now).rtype }
    {
        self.list.record_at(self.index).rtype()
    }

    /// Returns the class, which is the zone's.
    pub fn class(&self) -> Class
        ensures { result ≡ (seen_record self.now).class }
    {
        self.list.record_at(self.index).class()
    }

    /// Returns the TTL, in seconds.
    pub fn ttl(&self) -> Ttl
        ensures { result ≡ (seen_record self.now).ttl }
    {
        self.list.record_at(self.index).ttl()
    }

    /// Returns the octets of the data, every name in full.
    pub fn data(&self) -> &'a [u8]
        ensures { result.now ≡ (seen_record self.now).rdata }
    {
        self.list.record_at(self.index).data()
    }

    /// Parses the data: into the fields of its type, or as unknown data if the type has none. Copies nothing.
    pub fn parse_data(&self) -> ZoneRecordData<&'a [u8], ParsedName<&'a [u8]>>
        ensures rtype { number_of (data_of result) ≡ (seen_record self.now).rtype }
        ensures octets { data_octets (data_of result) ≡ (seen_record self.now).rdata }
        ensures fields { HasFieldsOfType (data_of result) }
    {
        parse_data(self.rtype(), self.data())
    }
}
