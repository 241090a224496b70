//! The entries of lists of records.
ghost use Rattle.std.specs.Prelude.{◌≡◌, ◌<◌, length, map, slice_get, Some, IfOk};
ghost use Rattle.std.specs.List.{AllByRecursion};
ghost use Rattle.std.specs.List.Sorted.{IsNonDecreasingBy, IsPermutation, IsSorted};
ghost use Rattle.zone_records.specs.Record as spec;
ghost use Rattle.zone_canonical.specs.Canonical.{HasCanonicalForm};
ghost use Rattle.zone_canonical.specs.Keyed.{AreEntriesOf, EndsTie, Keyed, keyed, keyed_cmp};

use crate::entry::Entry;
use crate::owner_key::owner_key;
use dns_name::Name;
use std::alloc::{AllocError, Global};
use zone_records::record_list::RecordList;

/// Returns the owner of the first record, or the root if there is none. A zone's first record is its SOA, at the apex.
/// Keys are fastest relative to the apex of most of the records, and right relative to any name.
pub(crate) fn apex_of(records: &RecordList) -> Name<&[u8]> {
    if records.is_empty() {
        return Name::root_ref();
    }
    records.record_at(0).owner()
}

/// Returns the entries of the records in canonical form, each once, in canonical order. Their keys are relative to the
/// apex. Fails if out of memory.
pub(crate) fn sorted_entries<'a>(
    alloc: Global,
    records: &'a RecordList,
    apex: &Name<&[u8]>,
) -> Result<Vec<Entry<'a>>, AllocError>
    requires { AllByRecursion HasCanonicalForm records.now }
    ensures { IfOk result (λ entries. AreEntriesOf apex.now records.now entries.items) }
{
    let mut entries = entries_of(alloc, records, apex)?;
    sort(&mut entries);
    entries.dedup();
    Ok(entries)
}

/// Sorts the entries. Those of most zones are in order already, which one pass over them shows.
fn sort(entries: &mut Vec<Entry<'_>>)
    ensures permutation { IsPermutation entries.old.items entries.new.items }
    ensures sorted { IsSorted keyed_cmp entries.new.items }
{
    if entries.is_sorted() {
        return;
    }
    entries.sort_unstable_by_key(|entry: &Entry<'_>| entry.key());
    sort_ties(entries.as_mut_slice());
}

/// Sorts entries whose keys ascend already: those of each key by the whole order. In most zones few owners have equal
/// keys and several records.
fn sort_ties(entries: &mut [Entry<'_>])
    requires { IsNonDecreasingBy (λ (entry : Keyed). entry.key) entries.old }
    ensures permutation { IsPermutation entries.old entries.new }
    ensures sorted { IsSorted keyed_cmp entries.new }
{
    let mut start = 0;
    while start < entries.len() {
        let end = end_of_tie(entries, start);
        if end - start > 1 {
            entries[start..end].sort_unstable();
        }
        start = end;
    }
}

/// Returns where the entries end that have the key of the one at `start`.
#[inline(always)]
fn end_of_tie(entries: &[Entry<'_>], start: usize) -> usize
    requires { start < length entries.now }
    ensures { EndsTie entries.now start result }
{
    let key = entries[start].key();
    let mut end = start + 1;
    while end < entries.len() && entries[end].key() == key {
        end += 1;
    }
    end
}

/// Returns the entries of the records, in the order of the list, with keys relative to the apex. Fails if out of memory.
fn entries_of<'a>(
    alloc: Global,
    records: &'a RecordList,
    apex: &Name<&[u8]>,
) -> Result<Vec<Entry<'a>>, AllocError>
    requires { AllByRecursion HasCanonicalForm records.now }
    ensures { IfOk result (λ entries. entries.items ≡ map (keyed apex.now) records.now) }
{
    let mut entries = Vec::with_capacity(alloc, records.len())?;
    for index in 0..records.len() {
        entries.push(entry_at(records, index, apex))?;
    }
    Ok(entries)
}

/// Returns the entry of the record at `index`.
fn entry_at<'a>(records: &'a RecordList, index: usize, apex: &Name<&[u8]>) -> Entry<'a>
    requires index { index < length records.now }
    requires has { (r : spec.Record) → slice_get records.now index ≡ Some r → HasCanonicalForm r }
    ensures { (r : spec.Record) → slice_get records.now index ≡ Some r → result ≡ keyed apex.now r }
{
    let record = records.record_at(index);
    Entry::new(owner_key(&record.owner(), apex), &record)
}
