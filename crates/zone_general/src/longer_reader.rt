//! Reading rows by the table that has the further types too.
ghost use Rattle.std.specs.Prelude.{◌≡◌, ◌↔◌, ◌+◌, ◌++◌, ℕ, List, Some, false, drop, option_copied, IfErr, IfNone, IfOk, IfSome, IsSome, IsTrue, OnErr, OnOk};
ghost use Rattle.dns_entry_scanner.specs.EntryError.{is_memory};
ghost use Rattle.dns_entry_scanner.specs.NameInText.{SpellsUnder};
ghost use Rattle.dns_scan.specs.Token.{Token};
ghost use Rattle.dns_field_texts.specs.Appended.{GoesOn};
ghost use Rattle.dns_zonefile.specs.Entry as spec;
ghost use Rattle.dns_zonefile.specs.Entry.{at_start};
ghost use Rattle.zone_general.specs.LongerEntries.{IsLongerEntry};
ghost use Rattle.zone_general.specs.LongerRow.{HasType, ScansLonger, Stands, known_word as spec_known_word};
ghost use Rattle.zone_general.specs.Rewritten.{GoesGeneral};
ghost use Rattle.zone_general.specs.Seen.{HasTypeAt, IsFound, WritesGeneral, context_in, octets_in, row_in, tokens_in};

use crate::found_row::FoundRow;
use crate::rewriting::append_in_general_form;
use crate::row_data::{is_marked, scan_found_data};
use crate::stated_type::{RowType, row_type};
use dns_fields_more::forms_of;
use dns_name::{Class, Name, Rtype, ToName};
use dns_zonefile::{EntryError, EntryReader};
use itoa::Buffer;
use std::alloc::{AllocError, Global};

/// Reads the entries of rows, data of further types included, in the context that those before them leave.
#[derive(Drop)]
pub struct LongerReader {
    alloc: Global,
    entries: EntryReader,
    /// The octets of the last record, or of its owner. This and the others are kept from row to row only to reuse the memory.
    record: Vec<u8>,
    /// The word for the type of the last row whose own word is not known.
    word: Vec<u8>,
    /// The octets of the data of the last row that was read by its general row.
    data: Vec<u8>,
}

impl LongerReader {
    /// Returns a reader at the start of a file of the class.
    pub fn new(
        alloc: Global,
        origin: Option<&Name<&[u8]>>,
        class: Class,
    ) -> Result<Self, AllocError>
        ensures { IfOk result (λ reader. context_in reader ≡ at_start (option_copied origin.entry) (Some class)) }
    {
        let mut entries = EntryReader::new(alloc);
        if let Some(origin) = origin {
            entries.set_origin(origin.to_vec(alloc)?);
        }
        entries.set_default_class(class);
        Ok(LongerReader {
            alloc,
            entries,
            record: Vec::new(alloc),
            word: Vec::new(alloc),
            data: Vec::new(alloc),
        })
    }

    /// Returns the origin of the names in the rows that are not yet read, if there is one.
    pub fn origin(&self) -> Option<&Name<Vec<u8>>>
        ensures { option_copied result ≡ (context_in self.now).origin }
    {
        self.entries.origin()
    }

    /// Reads the entry of the row, and appends its general row, which is the row itself if it reads as it stands.
    ///
    /// Fails with an error other than `OutOfMemory` only if the row is no entry. Nothing is then appended.
    pub fn read_entry(&mut self, row: FoundRow<'_>, out: &mut Vec<u8>) -> Result<(), EntryError>
        requires { IsFound row }
        ensures ok { OnOk result ((entry : spec.Entry) × (new : List ℕ)
            × GoesGeneral (context_in self.old) (row_in row.entry) (octets_in row.entry) new entry (context_in self.new)
            × (out.new.items ≡ out.old.items ++ new)) }
        ensures err { IfErr result (λ error. is_memory error ≡ false → (entry : spec.Entry) (after : spec.Context)
            → IsLongerEntry (context_in self.old) (row_in row.entry) entry after → ⊥) }
        ensures same { OnErr result (context_in self.new ≡ context_in self.old) }
        ensures kept { IfErr result (λ error. is_memory error ≡ false → out.new.items ≡ out.old.items) }
    {
        let len = out.len();
        match self.append_row(row, out) {
            Ok(()) => Ok(()),
            Err(error) => {
                out.truncate(len);
                Err(error)
            }
        }
    }

    /// The same, but it may have appended the general row if it fails with an error other than `OutOfMemory`.
    fn append_row(&mut self, row: FoundRow<'_>, out: &mut Vec<u8>) -> Result<(), EntryError>
        requires { IsFound row }
        ensures ok { OnOk result ((entry : spec.Entry) × (new : List ℕ)
            × GoesGeneral (context_in self.old) (row_in row.entry) (octets_in row.entry) new entry (context_in self.new)
            × (out.new.items ≡ out.old.items ++ new)) }
        ensures err { IfErr result (λ error. is_memory error ≡ false → (entry : spec.Entry) (after : spec.Context)
            → IsLongerEntry (context_in self.old) (row_in row.entry) entry after → ⊥) }
        ensures same { OnErr result (context_in self.new ≡ context_in self.old) }
        ensures more { IfErr result (λ error. is_memory error ≡ false → GoesOn out.old.items out.new.items) }
    {
        match further_type(row) {
            Some(kind) => self.read_further(row, kind, out),
            None => self.read_standing(row, out),
        }
    }

    /// Appends the row, which reads as it stands, and reads its entry. It has appended the row if it fails with an error other than
    /// `OutOfMemory`.
    fn read_standing(&mut self, row: FoundRow<'_>, out: &mut Vec<u8>) -> Result<(), EntryError>
        requires found { IsFound row }
        requires stands { Stands (row_in row) }
        ensures ok { OnOk result ((entry : spec.Entry) × (new : List ℕ)
            × GoesGeneral (context_in self.old) (row_in row.entry) (octets_in row.entry) new entry (context_in self.new)
            × (out.new.items ≡ out.old.items ++ new)) }
        ensures err { IfErr result (λ error. is_memory error ≡ false → (entry : spec.Entry) (after : spec.Context)
            → IsLongerEntry (context_in self.old) (row_in row.entry) entry after → ⊥) }
        ensures same { OnErr result (context_in self.new ≡ context_in self.old) }
        ensures more { IfErr result (λ error. is_memory error ≡ false → GoesOn out.old.items out.new.items) }
    {
        out.extend_from_slice(row.octets())?;
        self.record.clear();
        self.entries.read_entry(
            row.text,
            row.place,
            row.spans,
            row.blank_led,
            &mut self.record,
        )?;
        Ok(())
    }

    /// Appends the general row of a row that does not stand, and reads the entry. It may have appended the general row if it fails.
    #[inline(always)]
    fn read_further(
        &mut self,
        row: FoundRow<'_>,
        kind: RowType,
        out: &mut Vec<u8>,
    ) -> Result<(), EntryError>
        requires found { IsFound row }
        requires has { HasTypeAt (row_in row) kind }
        requires not { Stands (row_in row) → ⊥ }
        ensures ok { OnOk result ((entry : spec.Entry) × (new : List ℕ)
            × GoesGeneral (context_in self.old) (row_in row.entry) (octets_in row.entry) new entry (context_in self.new)
            × (out.new.items ≡ out.old.items ++ new)) }
        ensures err { IfErr result (λ error. is_memory error ≡ false → (entry : spec.Entry) (after : spec.Context)
            → IsLongerEntry (context_in self.old) (row_in row.entry) entry after → ⊥) }
        ensures same { OnErr result (context_in self.new ≡ context_in self.old) }
        ensures more { IfErr result (λ error. is_memory error ≡ false → GoesOn out.old.items out.new.items) }
    {
        self.append_general(row, kind, out)?;
        self.record.clear();
        self.entries.read_front(
            row.text,
            row.place,
            row.spans,
            row.blank_led,
            kind.index,
            &mut self.record,
        )
    }

    /// Appends the general row of a row that does not stand.
    ///
    /// Fails with an error other than `OutOfMemory` only if there is none. Nothing is then appended.
    pub(crate) fn append_general(
        &mut self,
        row: FoundRow<'_>,
        kind: RowType,
        out: &mut Vec<u8>,
    ) -> Result<(), EntryError>
        requires found { IsFound row }
        requires has { HasTypeAt (row_in row) kind }
        ensures ok { OnOk result ((new : List ℕ) × WritesGeneral (SpellsUnder (context_in self.old).origin) row.entry kind new
            × (out.new.items ≡ out.old.items ++ new)) }
        ensures err { IfErr result (λ error. is_memory error ≡ false → (content : List ℕ)
            → ScansLonger (SpellsUnder (context_in self.old).origin) kind.rtype (drop (kind.index + 1) (tokens_in row.entry)) content → ⊥) }
        ensures same { context_in self.new ≡ context_in self.old }
        ensures kept { IfErr result (λ error. is_memory error ≡ false → out.new.items ≡ out.old.items) }
    {
        let word = known_word(row, kind, &mut self.word)?;
        self.data.clear();
        scan_found_data(self.alloc, row, kind, self.entries.origin(), &mut self.data)?;
        append_in_general_form(row, kind.index, word, &self.data, out)?;
        Ok(())
    }
}

/// Returns the type of the row if it does not read as it stands.
#[inline(always)]
pub(crate) fn further_type(row: FoundRow<'_>) -> Option<RowType>
    ensures some { IfSome result (HasTypeAt (row_in row.entry)) }
    ensures further { IsSome result → Stands (row_in row.entry) → ⊥ }
    ensures none { IfNone result (Stands (row_in row.entry)) }
{
    let kind = row_type(row)?;
    if stands(row, kind) {
        return None;
    }
    Some(kind)
}

/// Returns whether the row reads as it stands: the word of its type is known, and its data is in general form or of a type that
/// is no further one.
fn stands(row: FoundRow<'_>, kind: RowType) -> bool
    requires { HasTypeAt (row_in row) kind }
    ensures { IsTrue result ↔ Stands (row_in row.entry) }
{
    kind.known && (is_marked(row, kind.index) || forms_of(Rtype::from_int(kind.rtype)).is_none())
}

/// Returns the word for the type of the general row: the row's own, or if that is not known, `TYPE` and the number, which `made` gets.
///
/// Fails if out of memory.
fn known_word<'w>(
    row: FoundRow<'w>,
    kind: RowType,
    made: &'w mut Vec<u8>,
) -> Result<&'w [u8], AllocError>
    requires { HasTypeAt (row_in row) kind }
    ensures { IfOk result (λ known. (front : List Token) (word : Token) (rtype : ℕ) (others : List Token)
        → HasType (row_in row.entry) front word rtype others → known.now ≡ spec_known_word word rtype) }
{
    if kind.known {
        return Ok(row.token(kind.index));
    }
    made.clear();
    made.extend_from_slice(b"TYPE")?;
    made.extend_from_slice(Buffer::new().format(kind.rtype).as_bytes())?;
    Ok(made.as_slice())
}
