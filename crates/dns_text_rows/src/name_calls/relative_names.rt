//! Relative names in flat octets.
use crate::name_calls::read::{relative, write_label, write_octets, write_target, write_vec};
use dns_name::{RelativeFromStrError, RelativeName, ToLabelIter, ToRelativeName};
use rows::{Answer, Row, RowError};
use std::alloc::Global;

pub fn answer(alloc: Global, row: &mut Row<'_>, out: &mut Answer) -> Result<(), RowError> {
    match row.method() {
        "empty_ref" => out.octets(RelativeName::empty_ref().as_slice()),
        "empty_slice" => out.octets(RelativeName::empty_slice().as_slice()),
        "empty_vec" => out.octets(RelativeName::empty_vec(alloc)?.as_slice()),
        "wildcard_ref" => out.octets(RelativeName::wildcard_ref().as_slice()),
        "wildcard_slice" => out.octets(RelativeName::wildcard_slice().as_slice()),
        "wildcard_vec" => out.octets(RelativeName::wildcard_vec(alloc)?.as_slice()),
        "vec_from_str" | "from_str" | "from_chars" => answer_text(alloc, row, out),
        _ => {
            let octets = row.octets(alloc)?;
            answer_octets(alloc, octets.as_slice(), row, out)
        }
    }
}

fn answer_text(alloc: Global, row: &mut Row<'_>, out: &mut Answer) -> Result<(), RowError> {
    let text = row.text(alloc)?;
    let made = match row.method() {
        "vec_from_str" => RelativeName::vec_from_str(alloc, text.as_str()),
        "from_str" => RelativeName::from_str(alloc, text.as_str()),
        _ => RelativeName::from_chars(alloc, text.chars()),
    };
    write_vec(octets_of(made), out)
}

fn octets_of(
    made: Result<RelativeName<Vec<u8>>, RelativeFromStrError>,
) -> Result<Vec<u8>, RelativeFromStrError> {
    match made {
        Ok(name) => Ok(name.into_octets()),
        Err(error) => Err(error),
    }
}

fn answer_octets(
    alloc: Global,
    octets: &[u8],
    row: &mut Row<'_>,
    out: &mut Answer,
) -> Result<(), RowError> {
    match row.method() {
        "from_slice" => match RelativeName::from_slice(octets) {
            Ok(name) => out.octets(name.as_slice()),
            Err(error) => out.refused(&error),
        },
        "make_canonical" | "truncate" | "into_absolute" | "strip_suffix" => {
            changed(alloc, octets, row, out)
        }
        _ => answer_of(alloc, &relative(octets)?, row, out),
    }
}

/// Answers a call that changes a name in place, or converts it.
fn changed(
    alloc: Global,
    octets: &[u8],
    row: &mut Row<'_>,
    out: &mut Answer,
) -> Result<(), RowError> {
    let Ok(mut name) = RelativeName::from_octets(Vec::from_slice(alloc, octets)?) else {
        return Err(RowError::BadWord);
    };
    match row.method() {
        "make_canonical" => name.make_canonical(),
        "truncate" => {
            let place: usize = row.value()?;
            if !name.is_label_start(place) {
                return Err(RowError::BadWord);
            }
            name.truncate(place);
        }
        "strip_suffix" => {
            let base = row.octets(alloc)?;
            if let Err(error) = name.strip_suffix(&relative(base.as_slice())?) {
                out.refused(&error)?;
            }
        }
        _ => {
            return match name.into_absolute() {
                Ok(name) => out.octets(name.as_slice()),
                Err(error) => out.refused(&error),
            };
        }
    }
    out.octets(name.as_slice())
}

fn answer_of(
    alloc: Global,
    name: &RelativeName<&[u8]>,
    row: &mut Row<'_>,
    out: &mut Answer,
) -> Result<(), RowError> {
    match row.method() {
        "len" => out.shown(&name.len()),
        "is_empty" => out.shown(&name.is_empty()),
        "label_count" => out.shown(&name.label_count()),
        "to_string" => out.shown(name),
        "first" => write_label(name.first(), out),
        "last" => write_label(name.last(), out),
        "split_first" => match name.split_first() {
            Some((label, parent)) => {
                out.octets(label.as_slice())?;
                out.octets(parent.as_slice())
            }
            None => out.shown(&"none"),
        },
        "parent" => match name.parent() {
            Some(parent) => out.octets(parent.as_slice()),
            None => out.shown(&"none"),
        },
        "is_label_start" | "slice" | "range" | "split" => answer_part(name, row, out),
        "eq" | "lt" | "cmp" | "hash" => compare_flat(name, row.octets(alloc)?.as_slice(), row, out),
        _ => answer_any(alloc, name, row, out),
    }
}

fn compare_flat(
    name: &RelativeName<&[u8]>,
    octets: &[u8],
    row: &Row<'_>,
    out: &mut Answer,
) -> Result<(), RowError> {
    let other = relative(octets)?;
    match row.method() {
        "eq" => out.shown(&(*name == other)),
        "lt" => out.shown(&(*name < other)),
        "cmp" => out.named(&name.cmp(&other)),
        _ => out.shown(&crate::name_calls::labels::are_hashed_alike(name, &other)),
    }
}

fn answer_part(
    name: &RelativeName<&[u8]>,
    row: &mut Row<'_>,
    out: &mut Answer,
) -> Result<(), RowError> {
    let place: usize = row.value()?;
    if row.method() == "is_label_start" {
        return out.shown(&name.is_label_start(place));
    }
    if !name.is_label_start(place) {
        return Err(RowError::BadWord);
    }
    if row.method() == "split" {
        let (start, end) = name.split(place);
        out.octets(start.as_slice())?;
        return out.octets(end.as_slice());
    }
    let end: usize = row.value()?;
    if end < place || !name.is_label_start(end) {
        return Err(RowError::BadWord);
    }
    if row.method() == "slice" {
        out.octets(name.slice(place, end).as_slice())
    } else {
        out.octets(name.range(place, end).as_slice())
    }
}

/// Answers the methods of every relative name, whatever its type.
pub fn answer_any<N: ToRelativeName>(
    alloc: Global,
    name: &N,
    row: &mut Row<'_>,
    out: &mut Answer,
) -> Result<(), RowError> {
    let mut target = Vec::new(alloc);
    match row.method() {
        "compose_len" => out.shown(&name.compose_len()),
        "label" => write_label(name.label(row.value()?), out),
        "is_empty" => out.shown(&ToRelativeName::is_empty(name)),
        "as_flat_slice" => write_octets(name.as_flat_slice(), out),
        "to_vec" => out.octets(name.to_vec(alloc)?.as_slice()),
        "to_cow" => out.octets(name.to_cow(alloc)?.as_slice()),
        "compose" => {
            let appended = name.compose(&mut target);
            write_target(appended, &target, out)
        }
        "compose_canonical" => {
            let appended = name.compose_canonical(&mut target);
            write_target(appended, &target, out)
        }
        _ => compare(name, row.octets(alloc)?.as_slice(), row, out),
    }
}

fn compare<N: ToRelativeName>(
    name: &N,
    octets: &[u8],
    row: &Row<'_>,
    out: &mut Answer,
) -> Result<(), RowError> {
    let other = relative(octets)?;
    match row.method() {
        "name_eq" => out.shown(&name.name_eq(&other)),
        "name_cmp" => out.named(&name.name_cmp(&other)),
        "starts_with" => out.shown(&name.starts_with(&other)),
        "ends_with" => out.shown(&name.ends_with(&other)),
        _ => Err(RowError::UnknownCall),
    }
}
