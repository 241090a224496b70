//! Lists of records that are compared.
ghost use Rattle.std.specs.Prelude.{◌≡◌, [], List, OnOk};
ghost use Rattle.std.specs.List.{push};
ghost use Rattle.zone_records.specs.Record as spec;
ghost use Rattle.zone_canonical.specs.Canonical.{HasCanonicalForm};
ghost use Rattle.zone_tool.specs.RecordWriter.{Holds};
ghost use Rattle.zone_tool.specs.Selected.{compared_of};

use crate::selection::Selection;
use std::alloc::{AllocError, Global};
use zone_records::record::Record;
use zone_records::record_list::RecordList;

/// A list of records to which more are appended.
#[derive(Drop)]
pub(crate) struct RecordWriter {
    /// The records, one after another.
    octets: Vec<u8>,
    /// The offset in the octets at which each record begins.
    places: Vec<usize>,
}

impl RecordWriter {
    /// Returns a writer of an empty list.
    pub(crate) fn new(alloc: Global) -> RecordWriter
        ensures { Holds result [] }
    {
        RecordWriter {
            octets: Vec::new(alloc),
            places: Vec::new(alloc),
        }
    }

    /// Appends a record as it is compared. Fails if out of memory, and the writer then means nothing.
    pub(crate) fn push(
        &mut self,
        record: &Record<'_>,
        selection: &Selection,
    ) -> Result<(), AllocError>
        requires { HasCanonicalForm «record».now }
        ensures { OnOk result ((records : List spec.Record) → Holds self.old records
            → Holds self.new (push records (compared_of selection.now «record».now))) }
    {
        self.places.push(self.octets.len())?;
        let octets = &mut self.octets;
        octets.extend_from_slice(record.owner().as_slice())?;
        octets.extend_from_slice(&record.rtype().to_int().to_be_bytes())?;
        octets.extend_from_slice(&record.class().to_int().to_be_bytes())?;
        octets.extend_from_slice(&selection.ttl_of(record).to_be_bytes())?;
        octets.extend_from_slice(&(record.data().len() as u16).to_be_bytes())?;
        selection.append_data(record, octets)
    }

    /// Returns the list.
    pub(crate) fn into_list(self) -> RecordList
        requires { (records : List spec.Record) × Holds self records }
        ensures { (records : List spec.Record) → Holds self records → result ≡ records }
    {
        let RecordWriter { octets, places } = self;
        RecordList::from_octets(octets, places)
    }
}
