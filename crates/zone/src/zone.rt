//! A zone: its records, in order.
ghost use Rattle.std.specs.Prelude.{◌≡◌, ◌≢◌, List, length, option_copied, IfOk, IfErr};
ghost use Rattle.dns_text.specs.Layout.{layout_of};
ghost use Rattle.zone_canonical.specs.Canonical.{IsCanonical};
ghost use Rattle.zone_records.specs.Record.{Record};
ghost use Rattle.zone_records.specs.Records.{AreRecordsOf};
ghost use Rattle.zone.specs.Printed.{IsPrinted};
ghost use Rattle.zone.specs.ZoneText.{IsZoneFault, IsZoneText};
ghost use Rattle.zone_records.specs.Zone.{any_class};
ghost use Rattle.zone.specs.View.{IsZoneOf, apex_of};

use crate::ZoneError;
use crate::print::print_records;
use crate::read::{count_records, read_records};
use crate::records::ZoneRecords;
use dns_name::{Class, Name};
use dns_text::DisplayKind;
use std::alloc::{AllocError, Global};
use std::marker::Model;
use zone_records::record::ANY;
use zone_records::record_list::RecordList;

/// A zone: one SOA record, then the others of its class, all at or under the SOA's owner (RFC 1035 5.2).
#[derive(Debug, Drop)]
pub struct Zone {
    records: RecordList,
    class: Class,
}

impl Model for Zone {
    ghost use Rattle.zone.specs.View.{Contents, IsZoneOf};

    ghost Value = { Contents };

    ghost view = { λ zone. record { records = zone.records; class = zone.class } };

    ghost invariant = { λ zone. IsZoneOf zone.class zone.records };
}

impl Zone {
    /// Reads the zone of this class from the text of its zone file (RFC 1035 5). Names are relative to the origin, if
    /// there is one.
    ///
    /// Fails with the first rule that is broken, as `ZoneError` orders them, or with `OutOfMemory` if out of memory.
    pub fn read(
        alloc: Global,
        text: &[u8],
        origin: Option<&Name<&[u8]>>,
        class: Class,
    ) -> Result<Zone, ZoneError>
        ensures ok { IfOk result (λ zone. IsZoneText text.now (option_copied origin.entry) class zone.records) }
        ensures class_is { IfOk result (λ zone. zone.class ≡ class) }
        ensures err { IfErr result (IsZoneFault text.now (option_copied origin.entry) class) }
    {
        if class.to_int() == ANY {
            return Err(ZoneError::ClassAny);
        }
        Zone::from_text(alloc, Vec::from_slice(alloc, text)?, origin, class)
    }

    /// Reads the zone as `read` does, from an owned text. Nothing of it is copied.
    pub fn from_text(
        alloc: Global,
        text: Vec<u8>,
        origin: Option<&Name<&[u8]>>,
        class: Class,
    ) -> Result<Zone, ZoneError>
        ensures ok { IfOk result (λ zone. IsZoneText text.items (option_copied origin.entry) class zone.records) }
        ensures class_is { IfOk result (λ zone. zone.class ≡ class) }
        ensures err { IfErr result (IsZoneFault text.items (option_copied origin.entry) class) }
    {
        if class.to_int() == ANY {
            return Err(ZoneError::ClassAny);
        }
        let records = read_records(alloc, text, origin, class)?;
        Ok(Zone { records, class })
    }

    /// Returns the number of records in the zone that `from_text` reads from this text. Keeps only the first of them,
    /// the SOA.
    ///
    /// Fails as `from_text` does.
    pub fn count_records(
        alloc: Global,
        text: Vec<u8>,
        origin: Option<&Name<&[u8]>>,
        class: Class,
    ) -> Result<usize, ZoneError>
        ensures ok { IfOk result (λ count. (records : List Record) × IsZoneText text.items (option_copied origin.entry) class records
            × (count ≡ length records)) }
        ensures err { IfErr result (IsZoneFault text.items (option_copied origin.entry) class) }
    {
        if class.to_int() == ANY {
            return Err(ZoneError::ClassAny);
        }
        count_records(alloc, text, origin, class)
    }

    /// Returns the records in order. The SOA is the first.
    #[tactic(auto, using(crate::proofs::ZoneForms::zone_data))]
    pub fn records(&self) -> ZoneRecords<'_>
        ensures records { result ≡ self.now.records }
        ensures known { AreRecordsOf self.now.class self.now.records }
    {
        ZoneRecords::of_list(&self.records)
    }

    /// Returns the zone's apex: the owner of its SOA.
    pub fn apex(&self) -> Name<&[u8]>
        ensures { result ≡ apex_of self.now.records }
    {
        self.records.record_at(0).owner()
    }

    /// Returns the class of all records. It is not ANY.
    pub fn class(&self) -> Class
        ensures class { result ≡ self.now.class }
        ensures known { self.now.class ≢ any_class }
    {
        self.class
    }

    /// Returns the canonical octets of the records (RFC 4034 6): the distinct ones in canonical form, in canonical
    /// order. Two zones have the same canonical octets exactly if they have the same records, up to ASCII case in
    /// names.
    ///
    /// Fails if out of memory.
    #[tactic(auto, using(crate::proofs::ZoneForms::zone_forms))]
    pub fn canonical(&self, alloc: Global) -> Result<Vec<u8>, AllocError>
        ensures { IfOk result (λ octets. IsCanonical self.now.records octets.items) }
    {
        zone_canonical::canonical(alloc, &self.records)
    }

    /// Returns the text of the records, in order, each on its own lines with its TTL and class (RFC 1035 5.1). Fails if
    /// out of memory.
    #[tactic(auto, using(crate::proofs::ZoneForms::zone_data))]
    pub fn print(&self, alloc: Global, kind: DisplayKind) -> Result<Vec<u8>, AllocError>
        ensures { IfOk result (λ text. IsPrinted (layout_of kind) self.now.records text.items) }
    {
        print_records(alloc, &self.records, kind)
    }
}

/// Returns the zone with these records. The caller guarantees that they are a zone of the class.
pub fn zone_of(records: RecordList, class: Class) -> Zone
    requires { IsZoneOf class records }
    ensures { result ≡ record { records = records; class = class } }
{
    Zone { records, class }
}

/// Returns the list of the zone's records.
pub fn records_of(zone: &Zone) -> &RecordList
    ensures records { result.now ≡ zone.now.records }
    ensures known { AreRecordsOf zone.now.class zone.now.records }
{
    &zone.records
}
