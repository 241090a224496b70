//! What was removed from a list of records, and what was added to it.
ghost use Rattle.std.specs.Prelude.{◌≡◌, ◌==◌, ◌<◌, [], List, length, slice_get, Some, OnOk, true, false};
ghost use Rattle.std.specs.List.{push};
ghost use Rattle.zone_canonical.specs.ChangeWriter.{HoldsChanges};
ghost use Rattle.zone_canonical.specs.declared.change_list.Change.{Change};
ghost use Rattle.zone_canonical.specs.declared.change_list.Change.TheVariants.{Added, Removed};

use crate::entry::Entry;
use crate::form_list::FormWriter;
use std::alloc::{AllocError, Global};
use std::marker::Model;
use zone_records::record::Record;
use zone_records::record_list::RecordList;

/// A record that one of two lists has and the other has not, in canonical form (RFC 4034 6.2).
#[derive(Debug, Drop)]
pub enum Change<'a> {
    /// Only the old list has it.
    Removed(Record<'a>),
    /// Only the new list has it.
    Added(Record<'a>),
}

/// Changes in order.
#[derive(Debug, Drop)]
pub struct ChangeList {
    /// The removed and the added records.
    records: RecordList,
    /// Whether each is added.
    are_added: Vec<bool>,
}

impl Model for ChangeList {
    ghost use Rattle.std.specs.Prelude.{◌≡◌, List, length};
    ghost use Rattle.zone_canonical.specs.declared.change_list.Change.{Change};
    ghost use Rattle.zone_canonical.specs.ChangesSeen.{changes_in};

    ghost Value = { List Change };

    ghost view = { λ list. changes_in list.are_added.items list.records };

    ghost invariant = { λ list. length list.are_added.items ≡ length list.records };
}

impl ChangeList {
    /// Returns the number of changes.
    pub fn len(&self) -> usize
        ensures { result ≡ length self.now }
    {
        self.records.len()
    }

    /// Returns whether nothing changed.
    pub fn is_empty(&self) -> bool
        ensures { result ≡ (length self.now == 0) }
    {
        self.records.is_empty()
    }

    /// Returns the change at `index`.
    pub fn change_at(&self, index: usize) -> Change<'_>
        requires { index < length self.now }
        ensures { slice_get self.now index ≡ Some result }
    {
        let record = self.records.record_at(index);
        if self.are_added[index] {
            Change::Added(record)
        } else {
            Change::Removed(record)
        }
    }
}

/// A list of changes to which more are appended.
#[derive(Drop)]
pub(crate) struct ChangeWriter {
    forms: FormWriter,
    are_added: Vec<bool>,
}

impl ChangeWriter {
    /// Returns a writer of an empty list.
    pub(crate) fn new(alloc: Global) -> ChangeWriter
        ensures { HoldsChanges result [] }
    {
        ChangeWriter {
            forms: FormWriter::new(alloc),
            are_added: Vec::new(alloc),
        }
    }

    /// Appends the removal of an entry. Fails if out of memory, and the writer then means nothing.
    pub(crate) fn push_removed(&mut self, entry: &Entry<'_>) -> Result<(), AllocError>
        ensures { OnOk result ((changes : List Change) → HoldsChanges self.old changes
            → HoldsChanges self.new (push changes (Removed entry.now.form))) }
    {
        self.forms.push(entry)?;
        self.are_added.push(false)?;
        Ok(())
    }

    /// Appends the addition of an entry. Fails if out of memory, and the writer then means nothing.
    pub(crate) fn push_added(&mut self, entry: &Entry<'_>) -> Result<(), AllocError>
        ensures { OnOk result ((changes : List Change) → HoldsChanges self.old changes
            → HoldsChanges self.new (push changes (Added entry.now.form))) }
    {
        self.forms.push(entry)?;
        self.are_added.push(true)?;
        Ok(())
    }

    /// Returns the list.
    pub(crate) fn into_list(self) -> ChangeList
        requires { (changes : List Change) × HoldsChanges self changes }
        ensures { (changes : List Change) → HoldsChanges self changes → result ≡ changes }
    {
        let ChangeWriter { forms, are_added } = self;
        ChangeList {
            records: forms.into_list(),
            are_added,
        }
    }
}
