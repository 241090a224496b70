//! What changed between two zones, as lines of text.
ghost use Rattle.std.specs.Prelude.{◌≡◌, ◌∷◌, [], IfOk, OnOk, string_bytes};
ghost use Rattle.std.specs.List.{AllByRecursion};
ghost use Rattle.zone_canonical.specs.Changes.{AreChanges, ChangesForm};
ghost use Rattle.zone_canonical.specs.declared.change_list.Change.{Change as ChangeOf};
ghost use Rattle.zone_tool.specs.Differences.{AddsChange, IsDifference, IsChangeText};
ghost use Rattle.zone_tool.specs.Selected.{selected_of};

use crate::selection::{Selection, selected};
use dns_text::DisplayKind;
use std::alloc::{AllocError, Global};
use zone::zone::records_of;
use zone::{Zone, print_record};
use zone_canonical::{Change, ChangeList, changes};

/// Returns what changed between two zones (RFC 4034 6): a line for each record in canonical form that only one of them
/// has, in canonical order. A line begins with `-` if the old zone has the record, and with `+` if the new one has it.
/// Nothing is returned exactly if the zones have the same records, of those that are compared.
///
/// Fails if out of memory.
pub fn difference(
    alloc: Global,
    old: &Zone,
    new: &Zone,
    selection: &Selection,
) -> Result<Vec<u8>, AllocError>
    ensures { IfOk result (λ text. IsDifference selection.now old.now.records «new».now.records text.items) }
{
    let changes = changes_between(alloc, old, new, selection)?;
    change_text(alloc, &changes)
}

/// Returns the changes between the records of two zones that are compared. Fails if out of memory.
#[tactic(auto, using(zone::proofs::ZoneForms::zone_forms))]
fn changes_between(
    alloc: Global,
    old: &Zone,
    new: &Zone,
    selection: &Selection,
) -> Result<ChangeList, AllocError>
    ensures changes { IfOk result (AreChanges (selected_of selection.now old.now.records) (selected_of selection.now «new».now.records)) }
    ensures lawful { IfOk result (AllByRecursion ChangesForm) }
{
    let old_records = selected(alloc, records_of(old), selection)?;
    let new_records = selected(alloc, records_of(new), selection)?;
    changes(alloc, &old_records, &new_records)
}

/// Returns the lines of the changes, in order. Fails if out of memory.
fn change_text(alloc: Global, changes: &ChangeList) -> Result<Vec<u8>, AllocError>
    requires { AllByRecursion ChangesForm changes.now }
    ensures { IfOk result (λ text. IsChangeText changes.now text.items) }
{
    let mut text = String::new(alloc);
    for index in 0..changes.len() {
        print_change(&mut text, &changes.change_at(index))?;
    }
    Ok(text.into_bytes())
}

/// Appends the line of a change. Fails if out of memory.
fn print_change(text: &mut String, change: &Change<'_>) -> Result<(), AllocError>
    requires { ChangesForm change.now }
    ensures { OnOk result (AddsChange change.now (string_bytes text.old) (string_bytes text.new)) }
{
    match change {
        Change::Removed(record) => {
            text.push('-')?;
            print_record(text, record, DisplayKind::Simple)
        }
        Change::Added(record) => {
            text.push('+')?;
            print_record(text, record, DisplayKind::Simple)
        }
    }
}
