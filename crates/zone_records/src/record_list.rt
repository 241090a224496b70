//! Records in one vector, one after another.
ghost use Rattle.std.specs.Prelude.{◌≡◌, ◌==◌, ◌<◌, ◌≤◌, ◌-◌, ◌^◌, ◌++◌, ◌∷◌, [], List, length, take, drop, flat_map, slice_get, Some, OnOk, OnErr};
ghost use Rattle.dns_message.specs.HeaderRecord.{with_labels};
ghost use Rattle.dns_message.specs.Held.{record_of};
ghost use Rattle.dns_message.specs.Record.{IsRecord, record_octets};
ghost use Rattle.dns_name.specs.ParsedName.{labels_of};
ghost use Rattle.zone_records.specs.Record as spec;
ghost use Rattle.zone_records.specs.Stored.{AreStored};
ghost use Rattle.zone_records.specs.Typed.{seen_of};

use crate::record::Record;
use dns_name::{AppendError, ParsedName};
use dns_rdata::ZoneRecordData;
use std::alloc::{AllocError, Global};
use std::marker::Model;

/// A record of a message. Its names may have compression pointers. Its data is in the fields of its type, or unknown
/// data.
pub type MessageRecord<'a> = dns_message::Record<
    ParsedName<&'a [u8]>,
    ZoneRecordData<&'a [u8], ParsedName<&'a [u8]>>,
>;

/// Records in order. Stored back to back in one vector; no allocation per record.
#[derive(Debug, Drop)]
pub struct RecordList {
    /// The records, every name in full (RFC 1035 3.2.1).
    octets: Vec<u8>,
    /// The offset in the octets at which each record begins.
    places: Vec<usize>,
}

impl Model for RecordList {
    ghost use Rattle.std.specs.Prelude.{List};
    ghost use Rattle.zone_records.specs.Record.{Record};
    ghost use Rattle.zone_records.specs.Stored.{AreStored, records_at};

    ghost Value = { List Record };

    ghost view = { λ list. records_at list.octets.items list.places.items };

    ghost invariant = { λ list. AreStored list.octets.items list.places.items (records_at list.octets.items list.places.items) };
}

impl RecordList {
    /// Returns an empty list.
    pub fn new(alloc: Global) -> RecordList
        ensures { result ≡ [] }
    {
        RecordList {
            octets: Vec::new(alloc),
            places: Vec::new(alloc),
        }
    }

    /// Returns the list of the records in `octets`. They follow each other, and each begins at one of the places.
    pub fn from_octets(octets: Vec<u8>, places: Vec<usize>) -> RecordList
        requires { (records : List spec.Record) × AreStored octets.items places.items records }
        ensures { (records : List spec.Record) → AreStored octets.items places.items records → result ≡ records }
    {
        RecordList { octets, places }
    }

    /// Appends a record of a message, every name in full. Fails if out of memory, and then changes nothing.
    pub fn push_from_message(&mut self, next: &MessageRecord<'_>) -> Result<(), AllocError>
        requires { IsRecord (record_of (seen_of (with_labels labels_of next.now))) }
        ensures ok { OnOk result (self.new ≡ self.old ++ record_of (seen_of (with_labels labels_of next.now)) ∷ []) }
        ensures err { OnErr result (self.new ≡ self.old) }
    {
        let start = self.octets.len();
        match next.compose(&mut self.octets) {
            Ok(()) => {}
            Err(AppendError::OutOfMemory) => return Err(AllocError),
            Err(_) => unreachable!(),
        }
        if let Err(error) = self.places.push(start) {
            self.octets.truncate(start);
            return Err(error.into());
        }
        Ok(())
    }

    /// Removes the last record. Does nothing if the list is empty.
    pub fn pop(&mut self)
        ensures { self.new ≡ take (length self.old - 1) self.old }
    {
        if let Some(last) = self.places.pop() {
            self.octets.truncate(last);
        }
    }

    /// Returns the number of records.
    pub fn len(&self) -> usize
        ensures count { result ≡ length self.now }
        ensures few { result < 2 ^ 63 }
    {
        self.places.len()
    }

    /// Returns whether the list is empty.
    pub fn is_empty(&self) -> bool
        ensures { result ≡ (length self.now == 0) }
    {
        self.places.is_empty()
    }

    /// Returns the number of octets of the first `count` records.
    pub fn octets_before(&self, count: usize) -> usize
        requires { count ≤ length self.now }
        ensures { result ≡ length (flat_map record_octets (take count self.now)) }
    {
        if count < self.places.len() {
            self.places[count]
        } else {
            self.octets.len()
        }
    }

    /// Returns the octets of the records from index `first` up to index `end`, one record after another.
    pub fn octets_between(&self, first: usize, end: usize) -> &[u8]
        requires ordered { first ≤ end }
        requires within { end ≤ length self.now }
        ensures { result.now ≡ flat_map record_octets (take (end - first) (drop first self.now)) }
    {
        let start = self.octets_before(first);
        let end = self.octets_before(end);
        &self.octets.as_slice()[start..end]
    }

    /// Returns the octets of the record at `index`.
    pub fn octets_at(&self, index: usize) -> &[u8]
        requires { index < length self.now }
        ensures octets { (r : spec.Record) → slice_get self.now index ≡ Some r → result.now ≡ record_octets r }
        ensures known { (r : spec.Record) → slice_get self.now index ≡ Some r → IsRecord r }
    {
        let start = self.places[index];
        let octets = self.octets.as_slice();
        if index + 1 < self.places.len() {
            &octets[start..self.places[index + 1]]
        } else {
            &octets[start..]
        }
    }

    /// Returns the record at `index`.
    pub fn record_at(&self, index: usize) -> Record<'_>
        requires { index < length self.now }
        ensures { slice_get self.now index ≡ Some result }
    {
        Record::from_octets(self.octets_at(index))
    }
}
