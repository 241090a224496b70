//! The canonical octets of records.
ghost use Rattle.std.specs.Prelude.{◌≡◌, IfOk, flat_map};
ghost use Rattle.std.specs.List.{AllByRecursion};
ghost use Rattle.zone_canonical.specs.Canonical.{HasCanonicalForm, IsCanonical};
ghost use Rattle.zone_canonical.specs.Keyed.{form_octets};

use crate::entries::{apex_of, sorted_entries};
use crate::entry::Entry;
use std::alloc::{AllocError, Global};
use zone_records::record_list::RecordList;

/// Returns the canonical octets of the records (RFC 4034 6): the distinct ones in canonical form, in canonical order.
/// Two lists of records have the same canonical octets exactly if they have the same records, up to ASCII case in
/// names.
///
/// Fails if out of memory.
pub fn canonical(alloc: Global, records: &RecordList) -> Result<Vec<u8>, AllocError>
    requires { AllByRecursion HasCanonicalForm records.now }
    ensures { IfOk result (λ octets. IsCanonical records.now octets.items) }
{
    let entries = sorted_entries(alloc, records, &apex_of(records))?;
    octets_of(alloc, entries.as_slice())
}

/// Returns the octets of the entries in canonical form, one after another. Fails if out of memory.
fn octets_of(alloc: Global, entries: &[Entry<'_>]) -> Result<Vec<u8>, AllocError>
    ensures { IfOk result (λ octets. octets.items ≡ flat_map form_octets entries.now) }
{
    let mut octets = Vec::with_capacity(alloc, octets_in(entries))?;
    for entry in entries {
        entry.append_to(&mut octets)?;
    }
    Ok(octets)
}

/// Returns the length of the entries in octets. It only decides how much memory is reserved.
fn octets_in(entries: &[Entry<'_>]) -> usize {
    let mut count: usize = 0;
    for entry in entries {
        count = count.saturating_add(entry.len());
    }
    count
}
