//! Absolute names in flat octets.
use crate::name_calls::read::{flat, parser_at, write_unread, write_vec};
use crate::name_calls::{any_name, parts, read, text};
use arrayvec::ArrayVec;
use dns_name::{Name, PushError};
use rows::{Answer, Row, RowError};
use std::alloc::Global;
use std::net::IpAddr;

pub fn answer(alloc: Global, row: &mut Row<'_>, out: &mut Answer) -> Result<(), RowError> {
    match row.method() {
        "root_ref" => out.octets(Name::root_ref().as_slice()),
        "root_slice" => out.octets(Name::root_slice().as_slice()),
        "root_vec" => out.octets(Name::root_vec(alloc)?.as_slice()),
        "root" => write_vec(octets_of(Name::root(alloc)), out),
        "reverse_from_addr" => reverse(Name::reverse_from_addr(alloc, row.value()?), out),
        "reverse_from_addr_in_73" => reverse_in_73(alloc, row.value()?, out),
        "from_symbols" => text::answer_symbols(alloc, row, out),
        "vec_from_str" | "from_str" | "from_chars" | "absolute_from_text" => {
            text::answer_absolute(alloc, row, out)
        }
        "append_absolute_text" => text::append_absolute(row.octets(alloc)?, alloc, row, out),
        _ => {
            let octets = row.octets(alloc)?;
            answer_octets(alloc, octets.as_slice(), row, out)
        }
    }
}

/// Returns the octets of a name, or why there is none.
pub fn octets_of<E>(made: Result<Name<Vec<u8>>, E>) -> Result<Vec<u8>, E> {
    match made {
        Ok(name) => Ok(name.into_octets()),
        Err(error) => Err(error),
    }
}

/// Writes the length and the text of an address's name.
fn reverse(made: Result<Name<Vec<u8>>, PushError>, out: &mut Answer) -> Result<(), RowError> {
    match made {
        Ok(name) => {
            out.shown(&name.len())?;
            out.shown(&name)
        }
        Err(error) => out.refused(&error),
    }
}

/// Writes the name of an address, built in 73 octets of room.
fn reverse_in_73(alloc: Global, address: IpAddr, out: &mut Answer) -> Result<(), RowError> {
    match Name::<ArrayVec<u8, 73>>::reverse_from_addr(alloc, address) {
        Ok(name) => out.shown(&name),
        Err(error) => out.refused(&error),
    }
}

fn answer_octets(
    alloc: Global,
    octets: &[u8],
    row: &mut Row<'_>,
    out: &mut Answer,
) -> Result<(), RowError> {
    match row.method() {
        "from_slice" => match Name::from_slice(octets) {
            Ok(name) => out.octets(name.as_slice()),
            Err(error) => out.refused(&error),
        },
        "from_octets" => from_octets(Vec::from_slice(alloc, octets)?, out),
        "parse" => parse(octets, row.value()?, out),
        "make_canonical" | "into_relative" => changed(alloc, octets, row, out),
        "truncate" | "strip_suffix" => cut(alloc, octets, row, out),
        _ => answer_of(alloc, &flat(octets)?, row, out),
    }
}

fn from_octets(octets: Vec<u8>, out: &mut Answer) -> Result<(), RowError> {
    match Name::from_octets(octets) {
        Ok(name) => out.octets(name.into_octets().as_slice()),
        Err(error) => out.refused(&error),
    }
}

/// Writes the name at a place of a message, and the place after it.
fn parse(message: &[u8], place: usize, out: &mut Answer) -> Result<(), RowError> {
    let mut parser = parser_at(message, place)?;
    match Name::parse(&mut parser) {
        Ok(name) => out.octets(name.as_slice())?,
        Err(error) => write_unread(error, out)?,
    }
    out.shown(&parser.pos())
}

fn owned(alloc: Global, octets: &[u8]) -> Result<Name<Vec<u8>>, RowError> {
    match Name::from_octets(Vec::from_slice(alloc, octets)?) {
        Ok(name) => Ok(name),
        Err(_) => Err(RowError::BadWord),
    }
}

fn changed(
    alloc: Global,
    octets: &[u8],
    row: &mut Row<'_>,
    out: &mut Answer,
) -> Result<(), RowError> {
    let mut name = owned(alloc, octets)?;
    if row.method() == "into_relative" {
        return out.octets(name.into_relative().as_slice());
    }
    name.make_canonical();
    out.octets(name.as_slice())
}

fn cut(alloc: Global, octets: &[u8], row: &mut Row<'_>, out: &mut Answer) -> Result<(), RowError> {
    let name = owned(alloc, octets)?;
    if row.method() == "truncate" {
        let place: usize = row.value()?;
        if !name.is_label_start(place) {
            return Err(RowError::BadWord);
        }
        return out.octets(name.truncate(place).as_slice());
    }
    let base = row.octets(alloc)?;
    match name.strip_suffix(&flat(base.as_slice())?) {
        Ok(start) => out.octets(start.as_slice()),
        Err(name) => {
            out.shown(&"kept")?;
            out.octets(name.as_slice())
        }
    }
}

fn answer_of(
    alloc: Global,
    name: &Name<&[u8]>,
    row: &mut Row<'_>,
    out: &mut Answer,
) -> Result<(), RowError> {
    match row.method() {
        "len" => out.shown(&name.len()),
        "is_root" => out.shown(&name.is_root()),
        "label_count" => out.shown(&name.label_count()),
        "to_string" => out.shown(name),
        "first" => out.octets(name.first().as_slice()),
        "last" => out.octets(name.last().as_slice()),
        "iter_suffixes" => parts::write_suffixes(name, out),
        "split_first" => parts::split_first(name, out),
        "parent" => match name.parent() {
            Some(parent) => out.octets(parent.as_slice()),
            None => out.shown(&"none"),
        },
        "is_label_start" | "slice" | "range" | "slice_from" | "split" => {
            parts::answer(name, row, out)
        }
        "eq" | "cmp" | "hash" => compare(name, row.octets(alloc)?.as_slice(), row, out),
        "canonical_lt" | "canonical_cmp" | "canonical_le" | "canonical_gt" | "canonical_ge" => {
            let other = row.octets(alloc)?;
            crate::name_calls::values::compare(row.method(), name, &flat(other.as_slice())?, out)
        }
        _ => any_name::answer(alloc, name, row, out),
    }
}

fn compare(
    name: &Name<&[u8]>,
    octets: &[u8],
    row: &Row<'_>,
    out: &mut Answer,
) -> Result<(), RowError> {
    let other = read::flat(octets)?;
    match row.method() {
        "eq" => out.shown(&(*name == other)),
        "cmp" => out.named(&name.cmp(&other)),
        _ => out.shown(&crate::name_calls::labels::are_hashed_alike(name, &other)),
    }
}
