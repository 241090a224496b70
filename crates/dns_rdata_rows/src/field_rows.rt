//! Rows of fields as values of their types: a call's arguments are the kind of row and then its fields.
ghost use Rattle.dns_text.specs.Documents.{block_of};
ghost use Rattle.dns_rdata.specs.Shown.{row_pieces};

use crate::names::name;
use crate::zone_data::left;
use dns_name::{AppendError, Name, ParseError, ParsedName, Parser};
use dns_rdata::rows::{
    Compressible, Last, ReadError, Rest16, RestText, Row as FieldRow, RowOctetsOrd, ShowRow,
    Strings, Tag, Uncompressed, canonical_row_cmp_octets, compose_canonical_row, compose_row,
    parse_row, row_len, scan_row, show_row,
};
use dns_text::{CharStr, DisplayKind, Formatter, IterScanner, ZonefileFmt};
use rows::{Answer, Row, RowError};
use std::alloc::Global;
use std::fmt;
use std::net::Ipv4Addr;

/// Writes the octets of a row of fields, composed.
fn octets<R: FieldRow>(alloc: Global, row: &R, out: &mut Answer) -> Result<(), RowError> {
    let mut target = Vec::new(alloc);
    let outcome = compose_row(row, &mut target);
    written(outcome, &target, out)
}

/// Writes the octets of a target, or why there are none.
fn written(
    outcome: Result<(), AppendError>,
    target: &Vec<u8>,
    out: &mut Answer,
) -> Result<(), RowError> {
    match outcome {
        Ok(()) => out.octets(target.as_slice()),
        Err(error) => out.refused(&error),
    }
}

/// Answers how a row is composed that has a name that may be compressed and one that may not.
pub fn answer_composed(alloc: Global, row: &mut Row<'_>, out: &mut Answer) -> Result<(), RowError> {
    let one = row.octets(alloc)?;
    let other = row.octets(alloc)?;
    let both = (
        Compressible(name(one.as_slice())?),
        (Uncompressed(name(other.as_slice())?), ()),
    );
    match row.method() {
        "compose_row" => octets(alloc, &both, out),
        "compose_canonical_row" => {
            let mut target = Vec::new(alloc);
            let outcome = compose_canonical_row(&both, &mut target);
            written(outcome, &target, out)
        }
        _ => {
            out.named(&row_len(&both, false))?;
            out.named(&row_len(&both, true))
        }
    }
}

/// Answers how many octets a row takes.
pub fn answer_len(alloc: Global, row: &mut Row<'_>, out: &mut Answer) -> Result<(), RowError> {
    match row.word()? {
        "names" => answer_composed(alloc, row, out),
        _ => answer_rest_len(alloc, row, out),
    }
}

/// Answers how many octets a rest takes, and how many a row of a number and the rest.
fn answer_rest_len(alloc: Global, row: &mut Row<'_>, out: &mut Answer) -> Result<(), RowError> {
    let rest = row.octets(alloc)?;
    out.named(&row_len(&Last(Rest16(rest.as_slice())), false))?;
    out.named(&row_len(&(1u8, Last(Rest16(rest.as_slice()))), false))
}

/// The row of A data. The rows of NS and CAA data in a message follow.
type Address = (Ipv4Addr, ());

type Host<'a> = (Compressible<ParsedName<&'a [u8]>>, ());

type Property<'a> = (u8, (Tag<&'a [u8]>, Last<RestText<&'a [u8]>>));

/// Answers how a row is parsed: its octets when it is composed again, or why there is no row, and then the parser's
/// place.
pub fn answer_parsed(alloc: Global, row: &mut Row<'_>, out: &mut Answer) -> Result<(), RowError> {
    let kind = row.word()?;
    let message = row.octets(alloc)?;
    let mut parser = Parser::from_ref(message.as_slice());
    match kind {
        "A" => parsed(alloc, parse_row::<Address, 1>(&mut parser), out)?,
        "NS" => parsed(alloc, parse_row::<Host<'_>, 2>(&mut parser), out)?,
        "CAA" => parsed(alloc, parse_row::<Property<'_>, 257>(&mut parser), out)?,
        _ => return Err(RowError::BadWord),
    }
    out.shown(&parser.pos())
}

/// Writes the octets of a row, or why there is none and whether this error is `ShortInput` as an error of data of any
/// type.
fn parsed<R: FieldRow + Drop>(
    alloc: Global,
    row: Result<R, ReadError>,
    out: &mut Answer,
) -> Result<(), RowError> {
    match row {
        Ok(row) => octets(alloc, &row, out),
        Err(error) => {
            out.refused(&error)?;
            out.shown(&(ParseError::from(error) == ParseError::ShortInput))
        }
    }
}

/// Answers how the row of MX data is scanned: its octets when it is composed, and the words that are left.
pub fn answer_scanned(alloc: Global, row: &mut Row<'_>, out: &mut Answer) -> Result<(), RowError> {
    let words = row.lines(alloc)?;
    let mut scanner = IterScanner::new(alloc, words.as_str().lines())?;
    match scan_row::<_, (u16, (Compressible<Name<Vec<u8>>>, ())), 15>(&mut scanner) {
        Ok(mx) => octets(alloc, &mx, out)?,
        Err(error) => out.refused(&error)?,
    }
    left(&mut scanner, out)
}

/// Answers how octets are read as strings: these octets, and the number of strings.
pub fn answer_strings(alloc: Global, row: &mut Row<'_>, out: &mut Answer) -> Result<(), RowError> {
    let octets = row.octets(alloc)?;
    let Some(strings) = Strings::from_octets(octets.as_slice()) else {
        return out.shown(&"None");
    };
    out.octets(strings.as_slice())?;
    let mut count = 0u32;
    for _ in strings.iter() {
        count = count.saturating_add(1);
    }
    out.shown(&count)
}

/// Answers how the canonical form of a row compares to octets.
pub fn answer_beside(alloc: Global, row: &mut Row<'_>, out: &mut Answer) -> Result<(), RowError> {
    let octets = row.octets(alloc)?;
    let octets = octets.as_slice();
    match row.word()? {
        "()" => beside(&(), octets, out),
        "tag" => {
            let tag = row.octets(alloc)?;
            match CharStr::from_slice(tag.as_slice()) {
                Ok(tag) => beside(&(Tag(tag), ()), octets, out),
                Err(_) => Err(RowError::BadWord),
            }
        }
        "numbers" => {
            let numbers: (u8, (u16, (u32, ()))) = (
                row.value()?,
                (row.value()?, (row.value()?, ())),
            );
            beside(&numbers, octets, out)
        }
        _ => {
            let rest = row.octets(alloc)?;
            beside(&Last(Rest16(rest.as_slice())), octets, out)
        }
    }
}

/// Writes how the canonical form of a row compares to octets.
fn beside<R: RowOctetsOrd>(row: &R, octets: &[u8], out: &mut Answer) -> Result<(), RowError> {
    out.named(&canonical_row_cmp_octets(row, octets))
}

/// A row with a document.
#[derive(Drop)]
struct Shown<R>(R);

impl<R: ShowRow> ZonefileFmt for Shown<R> {
    ghost document = { λ shown. block_of (row_pieces (R.fields shown.0)) };

    fn fmt<F: Formatter>(&self, formatter: &mut F) -> fmt::Result {
        show_row(0, &self.0, formatter)
    }
}

/// Writes the text of a row, as a literal.
fn literal<R: ShowRow + Drop>(alloc: Global, row: R, out: &mut Answer) -> Result<(), RowError> {
    let shown = Shown(row);
    let text = shown
        .display_zonefile(DisplayKind::Simple)
        .to_string(alloc)?;
    out.named(&text.as_str())
}

/// Answers the text of a row, as a literal.
pub fn answer_shown(alloc: Global, row: &mut Row<'_>, out: &mut Answer) -> Result<(), RowError> {
    match row.word()? {
        "()" => literal(alloc, (), out),
        _ => {
            let number: u8 = row.value()?;
            let rest = row.octets(alloc)?;
            literal(alloc, (number, Last(Rest16(rest.as_slice()))), out)
        }
    }
}
