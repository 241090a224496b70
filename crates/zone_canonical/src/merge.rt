//! What differs between two lists of records (RFC 4034 6).
ghost use Rattle.std.specs.Prelude.{◌≡◌, IfOk};
ghost use Rattle.std.specs.List.{AllByRecursion};
ghost use Rattle.zone_canonical.specs.Canonical.{HasCanonicalForm};
ghost use Rattle.zone_canonical.specs.Changes.{AreChanges, ChangesForm};
ghost use Rattle.zone_canonical.specs.Keyed.{form_in, keyed_cmp};
ghost use Rattle.zone_canonical.specs.Merge.{first_cmp, merged};

use crate::change_list::{ChangeList, ChangeWriter};
use crate::entries::{apex_of, sorted_entries};
use crate::entry::Entry;
use std::alloc::{AllocError, Global};
use std::cmp::Ordering;
use zone_records::record_list::RecordList;

/// Returns what differs between two lists of records, in canonical order: the records in canonical form that only one
/// of the lists has, each once.
///
/// Fails if out of memory.
pub fn changes(alloc: Global, old: &RecordList, new: &RecordList) -> Result<ChangeList, AllocError>
    requires old { AllByRecursion HasCanonicalForm old.now }
    requires new { AllByRecursion HasCanonicalForm «new».now }
    ensures changes { IfOk result (AreChanges old.now «new».now) }
    ensures lawful { IfOk result (AllByRecursion ChangesForm) }
{
    let apex = apex_of(if old.is_empty() { new } else { old });
    let old_entries = sorted_entries(alloc, old, &apex)?;
    let new_entries = sorted_entries(alloc, new, &apex)?;
    merge(alloc, old_entries.as_slice(), new_entries.as_slice())
}

/// Returns what differs between entries in ascending order. Fails if out of memory.
fn merge(alloc: Global, old: &[Entry<'_>], new: &[Entry<'_>]) -> Result<ChangeList, AllocError>
    ensures { IfOk result (λ changes. changes ≡ merged keyed_cmp form_in old.now «new».now) }
{
    let mut writer = ChangeWriter::new(alloc);
    let mut old_index = 0;
    let mut new_index = 0;
    while old_index < old.len() {
        let removed = &old[old_index];
        match cmp_first(removed, &new[new_index..]) {
            Ordering::Less => {
                writer.push_removed(removed)?;
                old_index += 1;
            }
            Ordering::Equal => {
                old_index += 1;
                new_index += 1;
            }
            Ordering::Greater => {
                writer.push_added(&new[new_index])?;
                new_index += 1;
            }
        }
    }
    for added in &new[new_index..] {
        writer.push_added(added)?;
    }
    Ok(writer.into_list())
}

/// Compares an entry with the first of others. It comes first if there are none.
fn cmp_first(entry: &Entry<'_>, others: &[Entry<'_>]) -> Ordering
    ensures { result ≡ first_cmp keyed_cmp entry.now others.now }
{
    match others.first() {
        Some(other) => entry.cmp(other),
        None => Ordering::Less,
    }
}
