//! Suffixes and slices of absolute names, which begin where a label does.
use dns_name::Name;
use rows::{Answer, Row, RowError};

pub fn answer(name: &Name<&[u8]>, row: &mut Row<'_>, out: &mut Answer) -> Result<(), RowError> {
    let place: usize = row.value()?;
    if row.method() == "is_label_start" {
        return out.shown(&name.is_label_start(place));
    }
    if !name.is_label_start(place) {
        return Err(RowError::BadWord);
    }
    match row.method() {
        "slice_from" => out.octets(name.slice_from(place).as_slice()),
        "split" => {
            let (start, end) = name.split(place);
            out.octets(start.as_slice())?;
            out.octets(end.as_slice())
        }
        _ => {
            let end: usize = row.value()?;
            if end < place || !name.is_label_start(end) {
                return Err(RowError::BadWord);
            }
            if row.method() == "slice" {
                out.octets(name.slice(place, end).as_slice())
            } else {
                out.octets(name.range(place, end).as_slice())
            }
        }
    }
}

/// Writes the name and each of its parents.
pub fn write_suffixes(name: &Name<&[u8]>, out: &mut Answer) -> Result<(), RowError> {
    for suffix in name.iter_suffixes() {
        out.octets(suffix.as_slice())?;
    }
    Ok(())
}

/// Writes the first label and the parent.
pub fn split_first(name: &Name<&[u8]>, out: &mut Answer) -> Result<(), RowError> {
    match name.split_first() {
        Some((label, parent)) => {
            out.octets(label.as_slice())?;
            out.octets(parent.as_slice())
        }
        None => out.shown(&"none"),
    }
}
