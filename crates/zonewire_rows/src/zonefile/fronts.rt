//! The tokens of records before their types, read alone.
use dns_name::Class;
use dns_zonefile::{EntryReader, RowFound, TokenSpan, read_row};
use rows::{Answer, Row, RowError};
use std::alloc::Global;

/// Answers the owners of the rows of a text, of each of which so many tokens are read, or why they are refused. Then it answers the
/// octets of a record without an owner, a TTL and a class of its own. Entries are of class IN.
pub fn answer(alloc: Global, row: &mut Row<'_>, out: &mut Answer) -> Result<(), RowError> {
    let count = row.value()?;
    let text = row.text_octets(alloc)?;
    let mut reader = EntryReader::new(alloc);
    reader.set_default_class(Class::IN);
    let mut spans = Vec::new(alloc);
    let mut place = 0;
    for _ in 0..u32::MAX {
        let RowFound::Row { next, blank_led } = read_row(&text, place, &mut spans)? else {
            break;
        };
        let mut owner = Vec::new(alloc);
        let count = spans.len().min(count);
        match reader.read_front(&text, place, &spans, blank_led, count, &mut owner) {
            Ok(()) => out.octets(owner.as_slice())?,
            Err(error) => out.refused(&error)?,
        }
        place = next;
    }
    show_last(alloc, &mut reader, &mut spans, out)
}

/// Writes the octets of a record whose row states its data alone.
fn show_last(
    alloc: Global,
    reader: &mut EntryReader,
    spans: &mut Vec<TokenSpan>,
    out: &mut Answer,
) -> Result<(), RowError> {
    let last = b" A 192.0.2.1\n";
    let RowFound::Row { blank_led, .. } = read_row(last, 0, spans)? else {
        return Err(RowError::BadWord);
    };
    let mut octets = Vec::new(alloc);
    match reader.read_entry(last, 0, spans, blank_led, &mut octets) {
        Ok(_) => out.octets(octets.as_slice()),
        Err(error) => out.refused(&error),
    }
}
