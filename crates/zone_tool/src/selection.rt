//! Which records of zones are compared, and which of their fields.
ghost use Rattle.std.specs.Prelude.{◌≡◌, ◌==◌, ◌&&◌, ◌++◌, length, IfOk, OnOk};
ghost use Rattle.std.specs.List.{AllByRecursion};
ghost use Rattle.zone_records.specs.MessageRecord.{record_octets};
ghost use Rattle.zone_records.specs.Zone.{soa_type};
ghost use Rattle.zone_canonical.specs.Canonical.{HasCanonicalForm};
ghost use Rattle.zone_tool.specs.Selected.{compared_data, compared_of, is_compared, selected_of};

use crate::record_writer::RecordWriter;
use dns_name::Rtype;
use std::alloc::{AllocError, Global};
use zone_records::record::Record;
use zone_records::record_list::RecordList;

/// The length of the numbers of an SOA, which are at its end, and of those after its serial (RFC 1035 3.3.13).
const NUMBERS_OCTETS: usize = 20;

const NUMBERS_AFTER_SERIAL_OCTETS: usize = 16;

/// Which records are compared, and which of their fields.
#[derive(Debug, Drop)]
pub struct Selection {
    /// The types of records that are left out.
    pub without: Vec<Rtype>,
    /// Whether TTLs are ignored.
    pub ignore_ttl: bool,
    /// Whether the SOA's serial is ignored.
    pub ignore_serial: bool,
}

impl Selection {
    /// Returns whether records of the type are compared.
    pub(crate) fn has(&self, rtype: Rtype) -> bool
        ensures { result ≡ is_compared self.now rtype }
    {
        !self.without.contains(&rtype)
    }

    /// Returns the TTL of a record for the comparison: 0 if TTLs are ignored.
    pub(crate) fn ttl_of(&self, record: &Record<'_>) -> u32
        ensures { result ≡ (compared_of self.now «record».now).ttl }
    {
        if self.ignore_ttl {
            0
        } else {
            record.ttl().as_secs()
        }
    }

    /// Returns whether the record's data has a serial that is ignored.
    fn ignores_serial_of(&self, record: &Record<'_>) -> bool
        ensures { result ≡ (self.now.ignore_serial && («record».now.rtype == soa_type)) }
    {
        self.ignore_serial && record.is_soa()
    }

    /// Appends the record's data for the comparison: an SOA's with the serial 0 if serials are ignored. Fails if out of
    /// memory.
    pub(crate) fn append_data(
        &self,
        record: &Record<'_>,
        octets: &mut Vec<u8>,
    ) -> Result<(), AllocError>
        requires { HasCanonicalForm «record».now }
        ensures { OnOk result (octets.new.items ≡ octets.old.items ++ compared_data self.now «record».now) }
    {
        let data = record.data();
        if !self.ignores_serial_of(record) {
            octets.extend_from_slice(data)?;
            return Ok(());
        }
        octets.extend_from_slice(&data[..data.len() - NUMBERS_OCTETS])?;
        octets.extend_from_slice(&[0; 4])?;
        octets.extend_from_slice(&data[data.len() - NUMBERS_AFTER_SERIAL_OCTETS..])?;
        Ok(())
    }
}

/// Returns the records that are compared, in order, with those of their fields that are not as 0. Fails if out of
/// memory.
pub(crate) fn selected(
    alloc: Global,
    records: &RecordList,
    selection: &Selection,
) -> Result<RecordList, AllocError>
    requires { AllByRecursion HasCanonicalForm records.now }
    ensures selected { IfOk result (λ list. list ≡ selected_of selection.now records.now) }
    ensures lawful { IfOk result (AllByRecursion HasCanonicalForm) }
{
    let mut writer = RecordWriter::new(alloc);
    for index in 0..records.len() {
        let record = records.record_at(index);
        if selection.has(record.rtype()) {
            writer.push(&record, selection)?;
        }
    }
    Ok(writer.into_list())
}
