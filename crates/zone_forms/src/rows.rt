//! The rows of a text in another form, one after another.
ghost use Rattle.std.specs.Prelude.{◌≡◌, ◌≢◌, ◌+◌, ◌^◌, ◌<◌, ◌≤◌, ◌++◌, [], List, ℕ, drop, false, length, true, IfErr, IfOk, OnOk};
ghost use Rattle.dns_entry_scanner.specs.EntryError.{is_memory};
ghost use Rattle.dns_entry_scanner.specs.RowFound.{NoRow};
ghost use Rattle.dns_text.specs.Tokens.{is_end};
ghost use Rattle.dns_zonefile.specs.Entry as spec;
ghost use Rattle.dns_entry_scanner.specs.Lines.{line_at};
ghost use Rattle.zone_general.specs.LongerEntries.{IsLongerEntry};
ghost use Rattle.zone_forms.specs.Going.{FailsBehind, GoesUpTo, RowGoes};
ghost use Rattle.zone_general.specs.Seen.{IsFound, context_in, octets_in, row_in, tokens_in};
ghost use Rattle.zone_forms.specs.declared.error.FormError.TheVariants.{Line, OutOfMemory};

use crate::FormError;
use crate::text_form::TextForm;
use dns_zonefile::{EntryError, LineMark, RowFound, TokenSpan, read_row};
use zone_general::{FoundRow, LongerReader};

/// Where a text is cut into no further row.
#[derive(Clone, Copy, Debug)]
pub(crate) struct RowsEnd {
    /// The place after the last row.
    pub(crate) place: usize,
    /// Whether the text ends there, perhaps after white space and a comment.
    pub(crate) is_end: bool,
}

/// Appends the rows of the text in the form, and returns where there is no further row. `feeds` line feeds are before the text.
///
/// Fails with `Line` exactly if a row is no entry, and with `OutOfMemory` if out of memory.
pub(crate) fn append_rows<F: TextForm>(
    form: &mut F,
    reader: &mut LongerReader,
    text: &[u8],
    feeds: usize,
    spans: &mut Vec<TokenSpan>,
    out: &mut Vec<u8>,
) -> Result<RowsEnd, FormError>
    ensures goes { IfOk result (λ end. GoesUpTo (F.goes (F.layout form.old)) (context_in reader.old) text.now end.place (context_in reader.new)
        out.old.items out.new.items) }
    ensures end { IfOk result (λ end. is_end (drop end.place text.now) ≡ end.is_end) }
    ensures no_row { IfOk result (λ end. NoRow (drop end.place text.now)) }
    ensures err { IfErr result (λ error. (line : ℕ) → error ≡ Line line → (rest : List ℕ)
        → FailsBehind (F.goes (F.layout form.old)) (context_in reader.old) feeds (length text.now) (text.now ++ rest) line) }
{
    let mut place = 0;
    loop {
        match read_row(text, place, spans) {
            Ok(RowFound::Row { next, blank_led }) => {
                let row = FoundRow {
                    text,
                    place,
                    next,
                    spans: spans.as_slice(),
                    blank_led,
                };
                match append_row(form, reader, row, out) {
                    Ok(()) => place = next,
                    Err(error) => return Err(form_error(error, feeds, text, place)),
                }
            }
            Ok(RowFound::End) => {
                return Ok(RowsEnd {
                    place,
                    is_end: true,
                });
            }
            Ok(RowFound::Broken) => {
                return Ok(RowsEnd {
                    place,
                    is_end: false,
                });
            }
            Err(_) => return Err(FormError::OutOfMemory),
        }
    }
}

/// Appends the row in the form. A row without tokens stays as it is.
fn append_row<F: TextForm>(
    form: &mut F,
    reader: &mut LongerReader,
    row: FoundRow<'_>,
    out: &mut Vec<u8>,
) -> Result<(), EntryError>
    requires { IsFound row }
    ensures ok { OnOk result ((new : List ℕ) × RowGoes (F.goes (F.layout form.old)) (context_in reader.old) (row_in row.entry) (octets_in row.entry)
        new (context_in reader.new) × (out.new.items ≡ out.old.items ++ new)) }
    ensures err { IfErr result (λ error. is_memory error ≡ false → (tokens_in row.entry ≢ []) × ((entry : spec.Entry) (after : spec.Context)
        → IsLongerEntry (context_in reader.old) (row_in row.entry) entry after → ⊥)) }
    ensures kept { F.layout form.new ≡ F.layout form.old }
{
    if row.spans.is_empty() {
        return Ok(out.extend_from_slice(row.octets())?);
    }
    form.append_row(reader, row, out)
}

/// Returns the error of the row at the place.
fn form_error(error: EntryError, feeds: usize, text: &[u8], place: usize) -> FormError
    ensures line { is_memory error ≡ false → feeds + line_at text.now place < 2 ^ 64 → result ≡ Line (feeds + line_at text.now place) }
    ensures memory { is_memory error ≡ true → result ≡ OutOfMemory }
{
    if error == EntryError::OutOfMemory {
        return FormError::OutOfMemory;
    }
    error_at(feeds, text, place)
}

/// Returns the error for the line of the place in a text that has that number of line feeds before it.
pub(crate) fn error_at(feeds: usize, text: &[u8], place: usize) -> FormError
    ensures { feeds + line_at text.now place < 2 ^ 64 → result ≡ Line (feeds + line_at text.now place) }
{
    FormError::Line(feeds_at(feeds, text, place).saturating_add(1))
}

/// Returns the number of line feeds before the place in a text that has `feeds` of them before it.
pub(crate) fn feeds_at(feeds: usize, text: &[u8], place: usize) -> usize
    ensures { feeds + line_at text.now place ≤ 2 ^ 64 → result + 1 ≡ feeds + line_at text.now place }
{
    let line = LineMark::start().line_of(text, place);
    feeds.saturating_add(line.saturating_sub(1))
}
