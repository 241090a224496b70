//! Lines of a text, and where they end.
use dns_zonefile::{LineMark, line_end, next_line};
use rows::{Answer, Row, RowError};
use std::alloc::Global;

/// Answers where the line of a place ends, and where the next one begins.
pub fn answer_ends(alloc: Global, row: &mut Row<'_>, out: &mut Answer) -> Result<(), RowError> {
    let text = row.text_octets(alloc)?;
    let place: usize = row.value()?;
    if place > text.len() {
        return Err(RowError::BadWord);
    }
    out.shown(&line_end(&text, place))?;
    out.shown(&next_line(&text, place))
}

/// Answers the number of the line of an offset, which may be past the text's end.
pub fn answer_line_of(alloc: Global, row: &mut Row<'_>, out: &mut Answer) -> Result<(), RowError> {
    let text = row.text_octets(alloc)?;
    let offset = row.value()?;
    out.shown(&LineMark::start().line_of(&text, offset))
}
