//! Calls of `dns_zonefile`: readers of a zone file's text, and its lines.
mod entries;
mod fronts;
mod lines;

use rows::{Answer, Row, RowError};
use std::alloc::Global;

/// Answers a call of a reader or of lines.
pub fn answer(alloc: Global, row: &mut Row<'_>, out: &mut Answer) -> Result<(), RowError> {
    match row.call() {
        "Zonefile::new" => entries::answer(alloc, row, out),
        "Zonefile::with_capacity" => entries::answer_with_capacity(alloc, row, out),
        "Zonefile::from_vec" => entries::answer_of_text(alloc, row, out),
        "Zonefile::count" => entries::answer_count(alloc, row, out),
        "Zonefile::count_octets" => entries::answer_count_octets(alloc, row, out),
        "Zonefile::octets" => entries::answer_octets(alloc, row, out),
        "EntryReader::read_front" => fronts::answer(alloc, row, out),
        "line_ends" => lines::answer_ends(alloc, row, out),
        "LineMark::line_of" => lines::answer_line_of(alloc, row, out),
        _ => Err(RowError::UnknownCall),
    }
}
