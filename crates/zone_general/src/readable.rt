//! Texts in which every row has its general form that has one, and the other rows stay.
ghost use Rattle.std.specs.Prelude.{◌≡◌, Some, option_copied, IfOk, OnOk};
ghost use Rattle.dns_entry_scanner.specs.EntryError.{is_memory};
ghost use Rattle.dns_zonefile.specs.Entry.{at_start};
ghost use Rattle.zone_general.specs.Readable.{AppendsReadable, AppendsRefused, IsNoEntry, IsReadableOf};
ghost use Rattle.zone_general.specs.Seen.{IsFound, context_in, octets_in, row_in};

use crate::found_row::FoundRow;
use crate::longer_reader::{LongerReader, further_type};
use dns_name::{Class, Name};
use dns_zonefile::{EntryError, RowFound, next_line, read_row};
use std::alloc::{AllocError, Global};

/// Returns the text with the data of further types in general form (RFC 3597 5), as `general` does, but of any text: a row
/// whose data does not read stays as it is. Where the text is cut into no row, its line stays, and the rows go on behind it.
///
/// Lines and entries keep their numbers. A row that is no entry changes nothing for those after it. The entries are those of
/// a file of the class; names are relative to the origin, if there is one.
///
/// Fails if out of memory.
pub fn general_rows(
    alloc: Global,
    text: &[u8],
    origin: Option<&Name<&[u8]>>,
    class: Class,
) -> Result<Vec<u8>, AllocError>
    ensures { IfOk result (λ new. IsReadableOf (at_start (option_copied origin.entry) (Some class)) text.now new.items) }
{
    let mut reader = LongerReader::new(alloc, origin, class)?;
    let mut out = Vec::new(alloc);
    let mut spans = Vec::new(alloc);
    let mut place = 0;
    loop {
        match read_row(text, place, &mut spans) {
            Ok(RowFound::Row { next, blank_led }) => {
                let row = FoundRow {
                    text,
                    place,
                    next,
                    spans: &spans,
                    blank_led,
                };
                append_row(&mut reader, row, &mut out)?;
                place = next;
            }
            Ok(RowFound::Broken) => {
                let next = next_line(text, place);
                out.extend_from_slice(&text[place..next])?;
                place = next;
            }
            Ok(RowFound::End) => {
                out.extend_from_slice(&text[place..])?;
                return Ok(out);
            }
            Err(_) => return Err(AllocError),
        }
    }
}

/// Appends the general row of the row, or the row itself if it has none. Fails if out of memory.
fn append_row(
    reader: &mut LongerReader,
    row: FoundRow<'_>,
    out: &mut Vec<u8>,
) -> Result<(), AllocError>
    requires { IsFound row }
    ensures { OnOk result (AppendsReadable (context_in reader.old) (row_in row.entry) (octets_in row.entry) (context_in reader.new)
        out.old.items out.new.items) }
{
    if row.spans.is_empty() {
        return out.extend_from_slice(row.octets());
    }
    match reader.read_entry(row, out) {
        Ok(()) => Ok(()),
        Err(error) => {
            if is_want_of_memory(error) {
                return Err(AllocError);
            }
            append_refused(reader, row, out)
        },
    }
}

/// Appends the general row of a row that is no entry, or the row itself if it has none. Fails if out of memory.
fn append_refused(
    reader: &mut LongerReader,
    row: FoundRow<'_>,
    out: &mut Vec<u8>,
) -> Result<(), AllocError>
    requires found { IsFound row }
    requires refused { IsNoEntry (context_in reader.old) (row_in row) }
    ensures goes { OnOk result (AppendsRefused (context_in reader.old) (row_in row.entry) (octets_in row.entry) out.old.items out.new.items) }
    ensures same { context_in reader.new ≡ context_in reader.old }
{
    let Some(kind) = further_type(row) else {
        return out.extend_from_slice(row.octets());
    };
    match reader.append_general(row, kind, out) {
        Ok(()) => Ok(()),
        Err(error) => {
            if is_want_of_memory(error) {
                return Err(AllocError);
            }
            out.extend_from_slice(row.octets())
        },
    }
}

/// Returns whether the error is out of memory.
pub fn is_want_of_memory(error: EntryError) -> bool
    ensures { result ≡ is_memory error }
{
    matches!(error, EntryError::OutOfMemory)
}
