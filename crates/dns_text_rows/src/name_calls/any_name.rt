//! The methods of every absolute name, whatever its type.
use crate::name_calls::read::{flat, parsed, write_octets, write_target};
use dns_name::ToName;
use rows::{Answer, Row, RowError};
use std::alloc::Global;
use std::hash::{FoldHasher, Hasher};

pub fn answer<N: ToName>(
    alloc: Global,
    name: &N,
    row: &mut Row<'_>,
    out: &mut Answer,
) -> Result<(), RowError> {
    let mut target = Vec::new(alloc);
    match row.method() {
        "compose_len" => out.shown(&name.compose_len()),
        "iter_labels" => write_labels(name, out),
        "rrsig_label_count" => out.shown(&name.rrsig_label_count()),
        "fmt_with_dot" => out.shown(&name.fmt_with_dot()),
        "as_flat_slice" => write_octets(name.as_flat_slice(), out),
        "to_vec" => out.octets(name.to_vec(alloc)?.as_slice()),
        "to_cow" => out.octets(name.to_cow(alloc)?.as_slice()),
        "compose" => {
            let appended = name.compose(&mut target);
            write_target(appended, &target, out)
        }
        "compose_canonical" => {
            let appended = name.compose_canonical(&mut target);
            write_target(appended, &target, out)
        }
        _ => answer_two(alloc, name, row, out),
    }
}

/// Writes the length and the octets of a name.
pub fn answer_chain<N: ToName>(alloc: Global, name: &N, out: &mut Answer) -> Result<(), RowError> {
    out.shown(&name.compose_len())?;
    out.octets(name.to_vec(alloc)?.as_slice())
}

/// Writes the octets of each label, and the number of labels.
fn write_labels<N: ToName>(name: &N, out: &mut Answer) -> Result<(), RowError> {
    for index in 0..128usize {
        match name.label(index) {
            Some(label) => out.octets(label.as_slice())?,
            None => break,
        }
    }
    out.shown(&name.iter_labels().count())
}

/// Answers a call of two names. The other name is given by its octets, or by a message and a place.
fn answer_two<N: ToName>(
    alloc: Global,
    name: &N,
    row: &mut Row<'_>,
    out: &mut Answer,
) -> Result<(), RowError> {
    let octets = row.octets(alloc)?;
    if row.has_more() {
        let other = parsed(octets.as_slice(), row.value()?)?;
        return compare(row.method(), name, &other, out);
    }
    compare(row.method(), name, &flat(octets.as_slice())?, out)
}

fn compare<L: ToName, R: ToName>(
    method: &str,
    left: &L,
    right: &R,
    out: &mut Answer,
) -> Result<(), RowError> {
    match method {
        "name_eq" => out.shown(&left.name_eq(right)),
        "name_cmp" => out.named(&left.name_cmp(right)),
        "composed_cmp" => out.named(&left.composed_cmp(right)),
        "lowercase_composed_cmp" => out.named(&left.lowercase_composed_cmp(right)),
        "name_hash" => out.shown(&(name_hash(left) == name_hash(right))),
        "starts_with" => out.shown(&left.starts_with(right)),
        "ends_with" => out.shown(&left.ends_with(right)),
        _ => Err(RowError::UnknownCall),
    }
}

fn name_hash<N: ToName>(name: &N) -> u64 {
    let mut state = FoldHasher::default();
    name.name_hash(&mut state);
    state.finish()
}
