//! Records in canonical form, as a list of records.
ghost use Rattle.std.specs.Prelude.{◌≡◌, [], List, map, IfOk, OnOk};
ghost use Rattle.std.specs.List.{AllByRecursion, push};
ghost use Rattle.zone_records.specs.Record.{Record};
ghost use Rattle.zone_canonical.specs.Canonical.{AreFormsOf, HasCanonicalForm};
ghost use Rattle.zone_canonical.specs.FormWriter.{Holds};
ghost use Rattle.zone_canonical.specs.Keyed.{form_in};

use crate::entries::{apex_of, sorted_entries};
use crate::entry::Entry;
use std::alloc::{AllocError, Global};
use zone_records::record_list::RecordList;

/// Returns the distinct records in canonical form, in canonical order (RFC 4034 6). Fails if out of memory.
pub fn canonical_forms(alloc: Global, records: &RecordList) -> Result<RecordList, AllocError>
    requires { AllByRecursion HasCanonicalForm records.now }
    ensures forms { IfOk result (AreFormsOf records.now) }
    ensures lawful { IfOk result (AllByRecursion HasCanonicalForm) }
{
    let entries = sorted_entries(alloc, records, &apex_of(records))?;
    list_of(alloc, entries.as_slice())
}

/// Returns the list of the entries in canonical form, in order. Fails if out of memory.
fn list_of(alloc: Global, entries: &[Entry<'_>]) -> Result<RecordList, AllocError>
    ensures { IfOk result (λ forms. forms ≡ map form_in entries.now) }
{
    let mut writer = FormWriter::new(alloc);
    for entry in entries {
        writer.push(entry)?;
    }
    Ok(writer.into_list())
}

/// A list of records in canonical form to which more are appended.
#[derive(Drop)]
pub(crate) struct FormWriter {
    /// The records, one after another.
    octets: Vec<u8>,
    /// The offset in the octets at which each record begins.
    places: Vec<usize>,
}

impl FormWriter {
    /// Returns a writer of an empty list.
    pub(crate) fn new(alloc: Global) -> FormWriter
        ensures { Holds result [] }
    {
        FormWriter {
            octets: Vec::new(alloc),
            places: Vec::new(alloc),
        }
    }

    /// Appends an entry in canonical form. Fails if out of memory, and the writer then means nothing.
    pub(crate) fn push(&mut self, entry: &Entry<'_>) -> Result<(), AllocError>
        ensures { OnOk result ((forms : List Record) → Holds self.old forms → Holds self.new (push forms entry.now.form)) }
    {
        self.places.push(self.octets.len())?;
        entry.append_to(&mut self.octets)
    }

    /// Returns the list.
    pub(crate) fn into_list(self) -> RecordList
        requires { (forms : List Record) × Holds self forms }
        ensures { (forms : List Record) → Holds self forms → result ≡ forms }
    {
        let FormWriter { octets, places } = self;
        RecordList::from_octets(octets, places)
    }
}
