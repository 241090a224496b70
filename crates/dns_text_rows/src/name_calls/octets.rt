//! Numbers and addresses, parsed from octets and composed in network order.
use crate::name_calls::read::{write_target, write_unread};
use dns_name::{Compose, Parse, Parser};
use rows::{Answer, Row, RowError};
use std::alloc::Global;
use std::fmt::{Debug, Display};
use std::net::{Ipv4Addr, Ipv6Addr};
use std::str::FromStr;

/// Answers `Parse::TYPE` of octets: the value at their start, and the place after it.
pub fn answer_parse(alloc: Global, row: &mut Row<'_>, out: &mut Answer) -> Result<(), RowError> {
    let octets = row.octets(alloc)?;
    let octets = octets.as_slice();
    match row.method() {
        "u8" => parse::<u8>(octets, out),
        "u16" => parse::<u16>(octets, out),
        "u32" => parse::<u32>(octets, out),
        "u64" => parse::<u64>(octets, out),
        "i8" => parse::<i8>(octets, out),
        "i16" => parse::<i16>(octets, out),
        "i32" => parse::<i32>(octets, out),
        "i64" => parse::<i64>(octets, out),
        "[u8;3]" => parse::<[u8; 3]>(octets, out),
        "Ipv4Addr" => parse::<Ipv4Addr>(octets, out),
        "Ipv6Addr" => parse::<Ipv6Addr>(octets, out),
        _ => Err(RowError::UnknownCall),
    }
}

fn parse<'a, T: Parse<'a> + Debug + Drop>(
    octets: &'a [u8],
    out: &mut Answer,
) -> Result<(), RowError> {
    let mut parser = Parser::from_ref(octets);
    match T::parse(&mut parser) {
        Ok(value) => out.named(&value)?,
        Err(error) => write_unread(error, out)?,
    }
    out.shown(&parser.pos())
}

/// Answers `Compose::TYPE` of a value: its octets.
pub fn answer_compose(alloc: Global, row: &mut Row<'_>, out: &mut Answer) -> Result<(), RowError> {
    match row.method() {
        "u8" => compose::<u8>(alloc, row, out),
        "u16" => compose::<u16>(alloc, row, out),
        "u32" => compose::<u32>(alloc, row, out),
        "u64" => compose::<u64>(alloc, row, out),
        "i8" => compose::<i8>(alloc, row, out),
        "i16" => compose::<i16>(alloc, row, out),
        "i32" => compose::<i32>(alloc, row, out),
        "i64" => compose::<i64>(alloc, row, out),
        "Ipv4Addr" => compose::<Ipv4Addr>(alloc, row, out),
        "Ipv6Addr" => compose::<Ipv6Addr>(alloc, row, out),
        _ => Err(RowError::UnknownCall),
    }
}

fn compose<T: Compose + FromStr + Drop>(
    alloc: Global,
    row: &mut Row<'_>,
    out: &mut Answer,
) -> Result<(), RowError>
where
    T::Err: Drop,
{
    let value: T = row.value()?;
    composed(alloc, &value, out)
}

/// Writes the octets of a value.
pub fn composed<T: Compose>(alloc: Global, value: &T, out: &mut Answer) -> Result<(), RowError> {
    let mut target = Vec::new(alloc);
    let appended = value.compose(&mut target);
    write_target(appended, &target, out)
}

/// Writes a value by its `Display`, and its octets.
pub fn shown_and_composed<T: Compose + Display>(
    alloc: Global,
    value: &T,
    out: &mut Answer,
) -> Result<(), RowError> {
    out.shown(value)?;
    composed(alloc, value, out)
}
