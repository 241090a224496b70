//! The forms of further data in a text.
ghost use Rattle.std.specs.Prelude.{◌≡◌, ◌≢◌, ◌++◌, [], List, ℕ, false, IfErr, OnOk, OnErr};
ghost use Rattle.dns_entry_scanner.specs.EntryError.{is_memory};
ghost use Rattle.dns_text.specs.Document.{Layout};
ghost use Rattle.dns_text.specs.Document.Layout.{Simple};
ghost use Rattle.dns_text.specs.Rows.{TokenRow};
ghost use Rattle.dns_zonefile.specs.Entry as spec;
ghost use Rattle.zone_general.specs.LongerEntries.{IsLongerEntry};
ghost use Rattle.zone_general.specs.Rewritten.{GoesGeneral};
ghost use Rattle.zone_general.specs.Seen.{IsFound, context_in, octets_in, row_in, tokens_in};

use dns_zonefile::EntryError;
use zone_general::{FoundRow, LongerReader};

/// A form of further data in a text.
///
/// `goes` relates the octets of a row to those in the form, in a layout, and to its entry.
pub(crate) trait TextForm {
    ghost layout: { Self → Layout };

    ghost goes: { Layout → spec.Context → TokenRow → List ℕ → List ℕ → spec.Entry → spec.Context → Type 0 };

    /// Reads the entry of the row, and appends the row in the form.
    ///
    /// Fails with an error other than `OutOfMemory` only if the row is no entry.
    fn append_row(
        &mut self,
        reader: &mut LongerReader,
        row: FoundRow<'_>,
        out: &mut Vec<u8>,
    ) -> Result<(), EntryError>
        requires found { IsFound row }
        requires some { tokens_in row ≢ [] }
        ensures ok { OnOk result ((entry : spec.Entry) × (new : List ℕ)
            × IsLongerEntry (context_in reader.old) (row_in row.entry) entry (context_in reader.new)
            × goes (layout self.old) (context_in reader.old) (row_in row.entry) (octets_in row.entry) new entry (context_in reader.new)
            × (out.new.items ≡ out.old.items ++ new)) }
        ensures err { IfErr result (λ error. is_memory error ≡ false → (entry : spec.Entry) (after : spec.Context)
            → IsLongerEntry (context_in reader.old) (row_in row.entry) entry after → ⊥) }
        ensures kept { layout self.new ≡ layout self.old };
}

/// The general form (RFC 3597 5).
#[derive(Drop)]
pub(crate) struct GeneralForm;

impl TextForm for GeneralForm {
    ghost layout = { λ _. Simple };

    ghost goes = { λ _. GoesGeneral };

    fn append_row(
        &mut self,
        reader: &mut LongerReader,
        row: FoundRow<'_>,
        out: &mut Vec<u8>,
    ) -> Result<(), EntryError> {
        reader.read_entry(row, out)
    }
}
