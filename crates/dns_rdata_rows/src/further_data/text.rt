//! Data as text: scanned from a row of a zone file, and printed.
use crate::further_data::data::{Owned, octets_or};
use crate::further_data::types::name;
use dns_entry_scanner::{EntryError, RowFound, RowScanner, ScannedName, read_row};
use dns_name::Name;
use dns_rdata_more::FurtherData;
use dns_rr_data::DataType;
use dns_text::{DisplayKind, Scanner, ZonefileFmt};
use rows::{Answer, Row, RowError};
use std::alloc::Global;

/// Data that was scanned or why there is none, and whether tokens are left.
type Scanned<T> = (Result<Owned<T>, EntryError>, bool);

/// Scans data from a text and its line feed, which have to be a row.
fn scanned<T: DataType + Drop>(
    alloc: Global,
    text: &mut Vec<u8>,
    origin: Option<&Name<Vec<u8>>>,
) -> Result<Scanned<T>, RowError> {
    text.push(b'\n')?;
    let text = text.as_slice();
    let mut spans = Vec::new(alloc);
    let RowFound::Row { .. } = read_row(text, 0, &mut spans)? else {
        return Err(RowError::BadWord);
    };
    let mut scanner: RowScanner<'_, ScannedName> = RowScanner::new(
        alloc,
        text,
        0,
        spans.as_slice(),
        origin,
    );
    let data = FurtherData::scan(alloc, &mut scanner);
    Ok((data, scanner.continues()))
}

/// Scans data from the text that the row gives, under the origin whose octets follow, if some do.
fn given<T: DataType + Drop>(alloc: Global, row: &mut Row<'_>) -> Result<Scanned<T>, RowError> {
    let mut text = row.text_octets(alloc)?;
    if !row.has_more() {
        return scanned(alloc, &mut text, None);
    }
    let origin = name(alloc, row)?;
    scanned(alloc, &mut text, Some(&origin))
}

/// Answers the octets of the data that a text spells, and then `..` if tokens are left; or why there is none.
pub fn answer_scan<T: DataType + Drop>(
    alloc: Global,
    row: &mut Row<'_>,
    out: &mut Answer,
) -> Result<(), RowError> {
    let (data, is_more) = given::<T>(alloc, row)?;
    let is_more = is_more && data.is_ok();
    octets_or(data, out)?;
    if is_more {
        return out.shown(&"..");
    }
    Ok(())
}

/// Answers the text of the data that a text spells, as a literal, and whether each layout of it spells the same data.
pub fn answer_round<T: DataType + Drop>(
    alloc: Global,
    row: &mut Row<'_>,
    out: &mut Answer,
) -> Result<(), RowError> {
    let data = match given::<T>(alloc, row)? {
        (Ok(data), _) => data,
        (Err(error), _) => return out.refused(&error),
    };
    let simple = data.display_zonefile(DisplayKind::Simple).to_string(alloc)?;
    out.named(&simple.as_str())?;
    for kind in [
        DisplayKind::Simple,
        DisplayKind::Tabbed,
        DisplayKind::Multiline,
    ] {
        let shown = data.display_zonefile(kind).to_string(alloc)?;
        match scanned::<T>(alloc, &mut shown.into_bytes(), None)? {
            (Ok(again), false) => out.shown(&(again == data))?,
            (Ok(_), true) => out.shown(&"..")?,
            (Err(error), _) => return out.refused(&error),
        }
    }
    Ok(())
}
