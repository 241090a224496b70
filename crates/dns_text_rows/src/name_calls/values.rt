//! Numbers that a message carries.
use crate::name_calls::octets::{composed, shown_and_composed};
use crate::name_calls::read::write_unread;
use dns_name::{
    CanonicalOrd, Class, Compose, Opcode, OptRcode, OptionCode, ParseError, Parser, Rcode, Rtype,
    Serial,
};
use jiff::Timestamp;
use rows::{Answer, Row, RowError};
use std::alloc::Global;
use std::error::Error;
use std::fmt::Display;

/// Answers calls of classes and types: each by its `Display`, and its octets.
pub fn answer_words(alloc: Global, row: &mut Row<'_>, out: &mut Answer) -> Result<(), RowError> {
    match row.call() {
        "Class::from_int" => shown_and_composed(alloc, &Class::from_int(row.value()?), out),
        "Rtype::from_int" => shown_and_composed(alloc, &Rtype::from_int(row.value()?), out),
        "Class::to_int" => out.shown(&row.value::<Class>()?.to_int()),
        "Rtype::to_int" => out.shown(&row.value::<Rtype>()?.to_int()),
        "Rtype::cmp" => out.named(&row.value::<Rtype>()?.cmp(&row.value()?)),
        "Class::parse" | "Rtype::parse" => {
            let octets = row.octets(alloc)?;
            answer_parsed(row.call(), octets.as_slice(), out)
        }
        _ => answer_texts(alloc, row, out),
    }
}

fn answer_texts(alloc: Global, row: &mut Row<'_>, out: &mut Answer) -> Result<(), RowError> {
    let octets = row.text_octets(alloc)?;
    let text = str::from_utf8(octets.as_slice()).unwrap_or("");
    let octets = octets.as_slice();
    match row.call() {
        "Class::from_str" => write_read(alloc, text.parse::<Class>(), out),
        "Rtype::from_str" => write_read(alloc, text.parse::<Rtype>(), out),
        "Class::from_bytes" => write_found(alloc, Class::from_bytes(octets), out),
        "Rtype::from_bytes" => write_found(alloc, Rtype::from_bytes(octets), out),
        _ => Err(RowError::UnknownCall),
    }
}

fn write_read<T: Compose + Display + Drop, E: Error>(
    alloc: Global,
    read: Result<T, E>,
    out: &mut Answer,
) -> Result<(), RowError> {
    match read {
        Ok(value) => shown_and_composed(alloc, &value, out),
        Err(error) => out.refused(&error),
    }
}

fn write_found<T: Compose + Display + Drop>(
    alloc: Global,
    found: Option<T>,
    out: &mut Answer,
) -> Result<(), RowError> {
    match found {
        Some(value) => shown_and_composed(alloc, &value, out),
        None => out.shown(&"none"),
    }
}

/// Answers calls of option codes, opcodes and response codes: each as a number.
pub fn answer_codes(alloc: Global, row: &mut Row<'_>, out: &mut Answer) -> Result<(), RowError> {
    match row.call() {
        "Opcode::from_int" => out.shown(&Opcode::from_int(row.value()?).to_int()),
        "Rcode::masked_from_int" => out.shown(&Rcode::masked_from_int(row.value()?).to_int()),
        "OptRcode::masked_from_int" => out.shown(&OptRcode::masked_from_int(row.value()?).to_int()),
        "OptRcode::rcode" => out.shown(&OptRcode::masked_from_int(row.value()?).rcode().to_int()),
        "OptionCode::from_int" => out.shown(&OptionCode::from_int(row.value()?).to_int()),
        "OptionCode::compose" => composed(alloc, &OptionCode::from_int(row.value()?), out),
        "OptionCode::parse" => {
            let octets = row.octets(alloc)?;
            answer_parsed(row.call(), octets.as_slice(), out)
        }
        "Opcode::constants" => write_opcodes(out),
        "Rcode::constants" => write_rcodes(out),
        _ => Err(RowError::UnknownCall),
    }
}

/// Writes QUERY, IQUERY, STATUS, NOTIFY, UPDATE.
fn write_opcodes(out: &mut Answer) -> Result<(), RowError> {
    for code in [
        Opcode::QUERY,
        Opcode::IQUERY,
        Opcode::STATUS,
        Opcode::NOTIFY,
        Opcode::UPDATE,
    ] {
        out.shown(&code.to_int())?;
    }
    Ok(())
}

/// Writes NOERROR, FORMERR, SERVFAIL, NXDOMAIN, NOTIMP, REFUSED.
fn write_rcodes(out: &mut Answer) -> Result<(), RowError> {
    for code in [
        Rcode::NOERROR,
        Rcode::FORMERR,
        Rcode::SERVFAIL,
        Rcode::NXDOMAIN,
        Rcode::NOTIMP,
        Rcode::REFUSED,
    ] {
        out.shown(&code.to_int())?;
    }
    Ok(())
}

/// Answers `TYPE::parse` of octets: the number at their start, and the place after it.
fn answer_parsed(call: &str, octets: &[u8], out: &mut Answer) -> Result<(), RowError> {
    let mut parser = Parser::from_ref(octets);
    match call {
        "Class::parse" => write_parsed(Class::parse(&mut parser), out)?,
        "Rtype::parse" => write_parsed(Rtype::parse(&mut parser), out)?,
        "Serial::parse" => write_parsed(Serial::parse(&mut parser), out)?,
        "OptionCode::parse" => match OptionCode::parse(&mut parser) {
            Ok(code) => out.shown(&code.to_int())?,
            Err(error) => write_unread(error, out)?,
        },
        _ => return Err(RowError::UnknownCall),
    }
    out.shown(&parser.pos())
}

fn write_parsed<T: Display + Drop>(
    parsed: Result<T, ParseError>,
    out: &mut Answer,
) -> Result<(), RowError> {
    match parsed {
        Ok(value) => out.shown(&value),
        Err(error) => write_unread(error, out),
    }
}

/// Answers calls of serial numbers.
pub fn answer_serial(alloc: Global, row: &mut Row<'_>, out: &mut Answer) -> Result<(), RowError> {
    match row.method() {
        "from_str" => write_read(alloc, row.text(alloc)?.parse::<Serial>(), out),
        "parse" => {
            let octets = row.octets(alloc)?;
            answer_parsed(row.call(), octets.as_slice(), out)
        }
        "from_timestamp" => match Timestamp::from_second(row.value()?) {
            Ok(instant) => out.shown(&Serial::from(instant)),
            Err(_) => Err(RowError::BadWord),
        },
        "from_be_bytes" => match row.octets(alloc)?.as_slice() {
            [a, b, c, d] => out.shown(&Serial::from_be_bytes([*a, *b, *c, *d])),
            _ => Err(RowError::BadWord),
        },
        _ => answer_of(alloc, Serial::from(row.value::<u32>()?), row, out),
    }
}

fn answer_of(
    alloc: Global,
    serial: Serial,
    row: &mut Row<'_>,
    out: &mut Answer,
) -> Result<(), RowError> {
    match row.method() {
        "into_int" => out.shown(&serial.into_int()),
        "compose" => composed(alloc, &serial, out),
        "partial_cmp" => out.named(&serial.partial_cmp(&Serial(row.value()?))),
        "add" => {
            let further: u32 = row.value()?;
            if further >= 1 << 31 {
                return Err(RowError::BadWord);
            }
            out.shown(&serial.add(further))
        }
        method => compare(method, &serial, &Serial(row.value()?), out),
    }
}

/// Writes the canonical order of two values.
pub fn compare<T: CanonicalOrd>(
    method: &str,
    left: &T,
    right: &T,
    out: &mut Answer,
) -> Result<(), RowError> {
    match method {
        "canonical_cmp" => out.named(&left.canonical_cmp(right)),
        "canonical_lt" => out.shown(&left.canonical_lt(right)),
        "canonical_le" => out.shown(&left.canonical_le(right)),
        "canonical_gt" => out.shown(&left.canonical_gt(right)),
        "canonical_ge" => out.shown(&left.canonical_ge(right)),
        _ => Err(RowError::UnknownCall),
    }
}
