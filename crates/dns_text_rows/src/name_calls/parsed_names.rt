//! Names in messages, with pointers or without.
use crate::name_calls::any_name;
use crate::name_calls::labels::are_hashed_alike;
use crate::name_calls::read::{parsed, parser_at, write_unread};
use dns_name::{ParsedName, ToLabelIter};
use rows::{Answer, Row, RowError};
use std::alloc::Global;

/// A message and a place are the first arguments of each call.
pub fn answer(alloc: Global, row: &mut Row<'_>, out: &mut Answer) -> Result<(), RowError> {
    let octets = row.octets(alloc)?;
    let message = octets.as_slice();
    let place: usize = row.value()?;
    match row.method() {
        "parse" => parse(message, place, out),
        "skip" => skip(message, place, out),
        "split_first" => split_firsts(parsed(message, place)?, out),
        "parent" => parents(parsed(message, place)?, out),
        "eq" => out.shown(&(parsed(message, place)? == parsed(message, row.value()?)?)),
        "lt" => out.shown(&(parsed(message, place)? < parsed(message, row.value()?)?)),
        "cmp" => out.named(&parsed(message, place)?.cmp(&parsed(message, row.value()?)?)),
        "hash" => {
            let other = parsed(message, row.value()?)?;
            out.shown(&are_hashed_alike(&parsed(message, place)?, &other))
        }
        _ => answer_of(alloc, &parsed(message, place)?, row, out),
    }
}

/// Writes the length of the name, the number of its labels, and the place after it.
fn parse(message: &[u8], place: usize, out: &mut Answer) -> Result<(), RowError> {
    let mut parser = parser_at(message, place)?;
    match ParsedName::parse(&mut parser) {
        Ok(name) => {
            out.shown(&name.compose_len())?;
            out.shown(&name.label_count())?;
        }
        Err(error) => write_unread(error, out)?,
    }
    out.shown(&parser.pos())
}

/// Writes the place after the name.
fn skip(message: &[u8], place: usize, out: &mut Answer) -> Result<(), RowError> {
    let mut parser = parser_at(message, place)?;
    if let Err(error) = ParsedName::skip(&mut parser) {
        write_unread(error, out)?;
    }
    out.shown(&parser.pos())
}

/// Writes each label that is split off, up to the root.
fn split_firsts(mut name: ParsedName<&[u8]>, out: &mut Answer) -> Result<(), RowError> {
    for _ in 0..130 {
        match name.split_first() {
            Some(label) => out.octets(label.as_slice())?,
            None => break,
        }
    }
    out.shown(&name.is_root())
}

/// Writes the first label of each parent, and whether the parent is compressed, up to the root.
fn parents(mut name: ParsedName<&[u8]>, out: &mut Answer) -> Result<(), RowError> {
    for _ in 0..130 {
        match name.parent() {
            Some(()) => {
                out.octets(name.first().as_slice())?;
                out.shown(&name.is_compressed())?;
            }
            None => break,
        }
    }
    out.shown(&name.is_root())
}

fn answer_of(
    alloc: Global,
    name: &ParsedName<&[u8]>,
    row: &mut Row<'_>,
    out: &mut Answer,
) -> Result<(), RowError> {
    match row.method() {
        "is_root" => out.shown(&name.is_root()),
        "is_compressed" => out.shown(&name.is_compressed()),
        "label_count" => out.shown(&name.label_count()),
        "first" => out.octets(name.first().as_slice()),
        "last" => out.octets(name.last().as_slice()),
        "to_string" => out.shown(name),
        "ref_octets" => out.shown(&name.ref_octets()),
        "deref_octets" => out.shown(&name.deref_octets()),
        "iter_suffixes" => write_suffixes(name, out),
        _ => any_name::answer(alloc, name, row, out),
    }
}

/// Writes the text of the name and of each of its parents.
fn write_suffixes(name: &ParsedName<&[u8]>, out: &mut Answer) -> Result<(), RowError> {
    for suffix in name.iter_suffixes() {
        out.shown(&suffix)?;
    }
    Ok(())
}
