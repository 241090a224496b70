//! Labels.
use crate::name_calls::read::write_target;
use dns_name::{Label, LabelMut};
use rows::{Answer, Row, RowError};
use std::alloc::Global;
use std::hash::{FoldHasher, Hash, Hasher};

/// The octets are the first argument of all calls but two.
pub fn answer(alloc: Global, row: &mut Row<'_>, out: &mut Answer) -> Result<(), RowError> {
    match row.method() {
        "root" => return out.octets(Label::root().as_slice()),
        "wildcard" => return out.octets(Label::wildcard().as_slice()),
        _ => {}
    }
    let octets = row.octets(alloc)?;
    match row.method() {
        "from_slice" => from_slice(octets.as_slice(), out),
        "split_from" => split_from(octets.as_slice(), out),
        "iter_slice" => iter_slice(octets.as_slice(), row.value()?, out),
        "make_canonical" => make_canonical(octets, out),
        _ => answer_of(alloc, label(octets.as_slice())?, row, out),
    }
}

/// Returns the label of these octets.
pub fn label(octets: &[u8]) -> Result<Label<'_>, RowError> {
    match Label::from_slice(octets) {
        Ok(label) => Ok(label),
        Err(_) => Err(RowError::BadWord),
    }
}

fn from_slice(octets: &[u8], out: &mut Answer) -> Result<(), RowError> {
    match Label::from_slice(octets) {
        Ok(label) => out.octets(label.as_slice()),
        Err(error) => out.refused(&error),
    }
}

fn split_from(octets: &[u8], out: &mut Answer) -> Result<(), RowError> {
    match Label::split_from(octets) {
        Ok((label, rest)) => {
            out.octets(label.as_slice())?;
            out.octets(rest)
        }
        Err(error) => out.refused(&error),
    }
}

/// Writes the labels one after another, then `end`, and `more` if one follows the end.
fn iter_slice(octets: &[u8], place: usize, out: &mut Answer) -> Result<(), RowError> {
    let mut labels = Label::iter_slice(octets, place);
    for _ in 0..300 {
        match labels.next() {
            Some(label) => out.octets(label.as_slice())?,
            None => break,
        }
    }
    out.shown(&"end")?;
    match labels.next() {
        Some(_) => out.shown(&"more"),
        None => Ok(()),
    }
}

/// Answers `LabelMut::make_canonical`, which changes the octets in place.
fn make_canonical(mut octets: Vec<u8>, out: &mut Answer) -> Result<(), RowError> {
    match LabelMut::from_slice(octets.as_mut_slice()) {
        Ok(mut label) => label.make_canonical(),
        Err(error) => return out.refused(&error),
    }
    out.octets(octets.as_slice())
}

fn answer_of(
    alloc: Global,
    label: Label<'_>,
    row: &mut Row<'_>,
    out: &mut Answer,
) -> Result<(), RowError> {
    let mut target = Vec::new(alloc);
    match row.method() {
        "len" => out.shown(&label.len()),
        "is_empty" => out.shown(&label.is_empty()),
        "is_root" => out.shown(&label.is_root()),
        "is_wildcard" => out.shown(&label.is_wildcard()),
        "compose_len" => out.shown(&label.compose_len()),
        "to_string" => out.shown(&label),
        "plain_text" => match label.plain_text() {
            Some(text) => out.shown(&text),
            None => out.shown(&"none"),
        },
        "compose" => {
            let appended = label.compose(&mut target);
            write_target(appended, &target, out)
        }
        "compose_canonical" => {
            let appended = label.compose_canonical(&mut target);
            write_target(appended, &target, out)
        }
        _ => compare(label, row.octets(alloc)?.as_slice(), row, out),
    }
}

fn compare(
    left: Label<'_>,
    octets: &[u8],
    row: &Row<'_>,
    out: &mut Answer,
) -> Result<(), RowError> {
    let right = label(octets)?;
    match row.method() {
        "eq" => out.shown(&(left == right)),
        "lt" => out.shown(&(left < right)),
        "cmp" => out.named(&left.cmp(&right)),
        "composed_cmp" => out.named(&left.composed_cmp(&right)),
        "lowercase_composed_cmp" => out.named(&left.lowercase_composed_cmp(&right)),
        "hash" => out.shown(&are_hashed_alike(&left, &right)),
        _ => Err(RowError::UnknownCall),
    }
}

/// Returns whether two values have the same hash.
pub fn are_hashed_alike<T: Hash>(left: &T, right: &T) -> bool {
    hash_of(left) == hash_of(right)
}

fn hash_of<T: Hash>(value: &T) -> u64 {
    let mut state = FoldHasher::default();
    value.hash(&mut state);
    state.finish()
}
