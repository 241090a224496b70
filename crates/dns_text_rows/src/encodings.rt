//! Base 16, 32 and 64 (RFC 4648).
use crate::scans::{octets_or, rest};
use dns_text::{IterScanner, Scanner, base16, base32, base64};
use rows::{Answer, Row, RowError};
use std::alloc::Global;

pub fn answer(alloc: Global, row: &mut Row<'_>, out: &mut Answer) -> Result<(), RowError> {
    match row.call() {
        "base16::decode" | "base32::decode" | "base64::decode" => decode(alloc, row, out),
        "base16::encode_string" | "base32::encode_string" | "base64::encode_string" => {
            encode_string(alloc, row, out)
        }
        "base16::display" | "base32::display" | "base64::display" => display(alloc, row, out),
        "base16::append" => append(alloc, row, out),
        "base16::Decoder" => push_all_16(alloc, row, out),
        "base32::Decoder" => push_all_32(alloc, row, out),
        "base64::Decoder" => push_all_64(alloc, row, out),
        _ => scan(alloc, row, out),
    }
}

fn decode(alloc: Global, row: &mut Row<'_>, out: &mut Answer) -> Result<(), RowError> {
    let text = row.text(alloc)?;
    let octets = match row.family() {
        "base16" => base16::decode::<Vec<u8>>(alloc, text.as_str()),
        "base32" => base32::decode(alloc, text.as_str()),
        _ => base64::decode(alloc, text.as_str()),
    };
    octets_or(out, octets)
}

fn encode_string(alloc: Global, row: &mut Row<'_>, out: &mut Answer) -> Result<(), RowError> {
    let octets = row.octets(alloc)?;
    let text = match row.family() {
        "base16" => base16::encode_string(alloc, octets.as_slice()),
        "base32" => base32::encode_string(alloc, octets.as_slice()),
        _ => base64::encode_string(alloc, octets.as_slice()),
    };
    out.shown(&text?)
}

fn display(alloc: Global, row: &mut Row<'_>, out: &mut Answer) -> Result<(), RowError> {
    let octets = row.octets(alloc)?;
    let shown = match row.family() {
        "base16" => base16::display(octets.as_slice()),
        "base32" => base32::display(octets.as_slice()),
        _ => base64::display(octets.as_slice()),
    };
    out.shown(&shown)
}

/// Appends the text of octets to another text.
fn append(alloc: Global, row: &mut Row<'_>, out: &mut Answer) -> Result<(), RowError> {
    let octets = row.octets(alloc)?;
    let mut text = Vec::from_slice(alloc, b"text ")?;
    base16::append(octets.as_slice(), &mut text)?;
    out.octets(text.as_slice())
}

/// Pushes each character of a text to a decoder, and then finalizes it. Writes the result of each
/// call.
macro_rules! push_all {
    ($base:ident, $alloc:expr, $row:expr, $out:expr) => {{
        let text = $row.text($alloc)?;
        let mut decoder: $base::Decoder<Vec<u8>> = $base::Decoder::new($alloc);
        for character in text.as_str().chars() {
            match decoder.push(character) {
                Ok(()) => $out.shown(&"ok")?,
                Err(error) => $out.refused(&error)?,
            }
        }
        octets_or($out, decoder.finalize())
    }};
}

fn push_all_16(alloc: Global, row: &mut Row<'_>, out: &mut Answer) -> Result<(), RowError> {
    push_all!(base16, alloc, row, out)
}

fn push_all_32(alloc: Global, row: &mut Row<'_>, out: &mut Answer) -> Result<(), RowError> {
    push_all!(base32, alloc, row, out)
}

fn push_all_64(alloc: Global, row: &mut Row<'_>, out: &mut Answer) -> Result<(), RowError> {
    push_all!(base64, alloc, row, out)
}

/// Answers a call that takes tokens.
fn scan(alloc: Global, row: &mut Row<'_>, out: &mut Answer) -> Result<(), RowError> {
    let words = row.lines(alloc)?;
    let mut scanner = IterScanner::new(alloc, words.as_str().lines())?;
    let octets = match row.call() {
        "base16::convert_token" => scanner.convert_token(base16::SymbolConverter::new()),
        "base32::convert_token" => scanner.convert_token(base32::SymbolConverter::new()),
        "base64::convert_token" => scanner.convert_token(base64::SymbolConverter::new()),
        "base16::convert_entry" => scanner.convert_entry(base16::SymbolConverter::new()),
        "base32::convert_entry" => scanner.convert_entry(base32::SymbolConverter::new()),
        "base64::convert_entry" => scanner.convert_entry(base64::SymbolConverter::new()),
        "base16::scan_entry" => base16::scan_entry(&mut scanner),
        "base32::scan_entry" => base32::scan_entry(&mut scanner),
        "base64::scan_entry" => base64::scan_entry(&mut scanner),
        _ => return Err(RowError::UnknownCall),
    };
    octets_or(out, octets)?;
    rest(&mut scanner, out)
}
