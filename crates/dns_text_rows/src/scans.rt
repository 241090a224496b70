//! What a scanner of the words of a row takes, and what it leaves (RFC 1035 5.1, RFC 3597 5).
use dns_name::{Class, Octets, Rtype, Serial, Ttl, UnknownRecordData};
use dns_text::{CharStr, IterScanner, Scan, Scanner, scan_unknown_octets, scan_without_marker};
use rows::{Answer, Row, RowError};
use std::alloc::Global;
use std::error::Error;
use std::fmt::Display;

/// Writes `|` and the tokens that a scanner has left, if any.
pub fn rest(scanner: &mut IterScanner<'_>, out: &mut Answer) -> Result<(), RowError> {
    if scanner.continues() {
        out.shown(&"|")?;
    }
    for _ in 0..u32::MAX {
        let Ok(text) = scanner.peek_text() else {
            break;
        };
        out.shown(&str::from_utf8(text).unwrap_or("?"))?;
        scanner.skip_token();
    }
    Ok(())
}

/// Writes octets, or why there are none.
pub fn octets_or<O: Octets + Drop, E: Error>(
    out: &mut Answer,
    octets: Result<O, E>,
) -> Result<(), RowError> {
    match octets {
        Ok(octets) => out.octets(octets.octets()),
        Err(error) => out.refused(&error),
    }
}

/// Writes the octets of a string, or why there is none.
pub fn string_or<O: Octets + Drop, E: Error>(
    out: &mut Answer,
    string: Result<CharStr<O>, E>,
) -> Result<(), RowError> {
    match string {
        Ok(string) => out.octets(string.as_slice()),
        Err(error) => out.refused(&error),
    }
}

/// Writes a value, or why there is none.
fn shown_or<T: Display + Drop, E: Error>(
    out: &mut Answer,
    value: Result<T, E>,
) -> Result<(), RowError> {
    match value {
        Ok(value) => out.shown(&value),
        Err(error) => out.refused(&error),
    }
}

/// Writes that a call succeeds, or why it fails.
pub fn done_or<E: Error>(out: &mut Answer, outcome: Result<(), E>) -> Result<(), RowError> {
    match outcome {
        Ok(()) => out.shown(&"ok"),
        Err(error) => out.refused(&error),
    }
}

/// Writes the type and the octets of data, or why there is none.
fn data_or<E: Error>(
    out: &mut Answer,
    rdata: Result<UnknownRecordData<Vec<u8>>, E>,
) -> Result<(), RowError> {
    match rdata {
        Ok(rdata) => {
            out.shown(&rdata.rtype())?;
            out.octets(rdata.data().as_slice())
        }
        Err(error) => out.refused(&error),
    }
}

pub fn answer(alloc: Global, row: &mut Row<'_>, out: &mut Answer) -> Result<(), RowError> {
    let call = row.call();
    let words = row.lines(alloc)?;
    let mut scanner = IterScanner::new(alloc, words.as_str().lines())?;
    match row.family() {
        "u8" | "u16" | "u32" | "u64" | "u128" => answer_number(call, &mut scanner, out)?,
        "Serial" | "Ttl" | "Rtype" | "Class" => answer_value(call, &mut scanner, out)?,
        "scan_unknown_octets" | "scan_without_marker" | "UnknownRecordData" => {
            answer_data(call, &mut scanner, out)?;
        }
        _ => answer_token(call, &mut scanner, out)?,
    }
    rest(&mut scanner, out)
}

/// Answers `scan` of an integer.
fn answer_number(
    call: &str,
    scanner: &mut IterScanner<'_>,
    out: &mut Answer,
) -> Result<(), RowError> {
    match call {
        "u8::scan" => shown_or(out, u8::scan(scanner)),
        "u16::scan" => shown_or(out, u16::scan(scanner)),
        "u32::scan" => shown_or(out, u32::scan(scanner)),
        "u64::scan" => shown_or(out, u64::scan(scanner)),
        _ => shown_or(out, u128::scan(scanner)),
    }
}

/// Answers `scan` of a value in records.
fn answer_value(
    call: &str,
    scanner: &mut IterScanner<'_>,
    out: &mut Answer,
) -> Result<(), RowError> {
    match call {
        "Serial::scan" => match Serial::scan(scanner) {
            Ok(serial) => out.shown(&serial),
            Err(error) => out.refused(&error),
        },
        "Rtype::scan" => match Rtype::scan(scanner) {
            Ok(rtype) => out.shown(&rtype),
            Err(error) => out.refused(&error),
        },
        "Class::scan" => match Class::scan(scanner) {
            Ok(class) => out.shown(&class),
            Err(error) => out.refused(&error),
        },
        _ => match Ttl::scan(scanner) {
            Ok(ttl) => out.shown(&ttl.as_secs()),
            Err(error) => out.refused(&error),
        },
    }
}

/// Answers a call for data of an unknown type; `scan_without_marker` is called for type A.
fn answer_data(
    call: &str,
    scanner: &mut IterScanner<'_>,
    out: &mut Answer,
) -> Result<(), RowError> {
    match call {
        "scan_unknown_octets" => octets_or(out, scan_unknown_octets(scanner)),
        "scan_without_marker" => data_or(out, scan_without_marker(Rtype::A, scanner)),
        _ => data_or(out, UnknownRecordData::scan(scanner)),
    }
}

/// Answers a method of the scanner.
fn answer_token(
    call: &str,
    scanner: &mut IterScanner<'_>,
    out: &mut Answer,
) -> Result<(), RowError> {
    match call {
        "has_space" => out.shown(&scanner.has_space()),
        "continues" => out.shown(&scanner.continues()),
        "is_exhausted" => out.shown(&scanner.is_exhausted()),
        "peek_text" => octets_or(out, scanner.peek_text()),
        "skip_token" => {
            scanner.skip_token();
            out.shown(&"ok")
        }
        "scan_octets" => octets_or(out, scanner.scan_octets()),
        "scan_charstr" => string_or(out, scanner.scan_charstr()),
        "scan_charstr_entry" => octets_or(out, scanner.scan_charstr_entry()),
        "scan_opt_unknown_marker" => shown_or(out, scanner.scan_opt_unknown_marker()),
        "scan_name" => shown_or(out, scanner.scan_name()),
        "scan_string" => shown_or(out, scanner.scan_string()),
        "scan_ascii_entry" => shown_or(out, scanner.scan_ascii_entry()),
        "scan_ascii_str" => shown_or(out, scanner.scan_ascii_str(|word| Some(word.len()))),
        _ => Err(RowError::UnknownCall),
    }
}
