//! Data of any type: scanned, parsed, composed and printed.
use crate::fields;
use crate::given::Read;
use dns_name::{
    ComposeRecordData, FlattenInto, Name, Octets, OctetsFrom, ParseAnyRecordData, ParseRecordData,
    Parser, Rtype, ToName,
};
use dns_rdata::ZoneRecordData;
use dns_text::{DisplayKind, IterScanner, Scanner};
use rows::{Answer, Row, RowError};
use std::alloc::Global;
use std::error::Error;

/// Data that owns its octets.
type Owned = ZoneRecordData<Vec<u8>, Name<Vec<u8>>>;

/// Writes the octets and the text of data.
pub fn shown<Octs: Octets, N: ToName>(
    alloc: Global,
    rdata: &ZoneRecordData<Octs, N>,
    out: &mut Answer,
) -> Result<(), RowError> {
    let mut target = Vec::new(alloc);
    match rdata.compose_rdata(&mut target) {
        Ok(()) => {
            out.octets(target.as_slice())?;
            out.shown(rdata)
        }
        Err(error) => out.refused(&error),
    }
}

/// Writes the octets and the text of data, or why there is none.
fn shown_or<Octs: Octets + Drop, N: ToName + Drop, E: Error + Drop>(
    alloc: Global,
    rdata: Result<ZoneRecordData<Octs, N>, E>,
    out: &mut Answer,
) -> Result<(), RowError> {
    match rdata {
        Ok(rdata) => shown(alloc, &rdata, out),
        Err(error) => out.refused(&error),
    }
}

/// Answers a method of data.
pub fn answer_method(
    alloc: Global,
    call: &str,
    rdata: &Read<'_>,
    out: &mut Answer,
) -> Result<(), RowError> {
    match call {
        "fields" => fields::answer(rdata, out),
        "rdlen" => {
            out.named(&rdata.rdlen(false))?;
            out.named(&rdata.rdlen(true))
        }
        _ => composed(alloc, call, rdata, out),
    }
}

/// Writes the octets that a method of data appends.
fn composed(alloc: Global, call: &str, rdata: &Read<'_>, out: &mut Answer) -> Result<(), RowError> {
    let mut target = Vec::new(alloc);
    let outcome = match call {
        "compose_rdata" => rdata.compose_rdata(&mut target),
        "compose_canonical_rdata" => rdata.compose_canonical_rdata(&mut target),
        "compose_len_rdata" => rdata.compose_len_rdata(&mut target),
        "compose_canonical_len_rdata" => rdata.compose_canonical_len_rdata(&mut target),
        _ => return Err(RowError::UnknownCall),
    };
    match outcome {
        Ok(()) => out.octets(target.as_slice()),
        Err(error) => out.refused(&error),
    }
}

/// Takes a layout.
pub fn layout_of(row: &mut Row<'_>) -> Result<DisplayKind, RowError> {
    match row.word()? {
        "Simple" => Ok(DisplayKind::Simple),
        "Tabbed" => Ok(DisplayKind::Tabbed),
        "Multiline" => Ok(DisplayKind::Multiline),
        _ => Err(RowError::BadWord),
    }
}

/// Answers the data that the words spell, and the words that are left, after `|`.
pub fn answer_scan(alloc: Global, row: &mut Row<'_>, out: &mut Answer) -> Result<(), RowError> {
    let rtype = row.value()?;
    let words = row.lines(alloc)?;
    let mut scanner = IterScanner::new(alloc, words.as_str().lines())?;
    let rdata: Result<Owned, _> = ZoneRecordData::scan(rtype, &mut scanner);
    shown_or(alloc, rdata, out)?;
    left(&mut scanner, out)
}

/// Writes `|` and the words that are left.
pub fn left<S: Scanner>(scanner: &mut S, out: &mut Answer) -> Result<(), RowError>
where
    S::Error: Drop,
{
    if scanner.continues() {
        out.shown(&"|")?;
    }
    for _ in 0..u32::MAX {
        let Ok(text) = scanner.peek_text() else {
            break;
        };
        out.shown(&str::from_utf8(text).unwrap_or("?"))?;
        scanner.skip_token();
    }
    Ok(())
}

/// Takes a type, a place and a message.
pub fn placed(alloc: Global, row: &mut Row<'_>) -> Result<(Rtype, usize, Vec<u8>), RowError> {
    Ok((row.value()?, row.value()?, row.octets(alloc)?))
}

/// Returns a parser of a message at a place.
pub fn parser_at(message: &[u8], place: usize) -> Result<Parser<'_>, RowError> {
    let mut parser = Parser::from_ref(message);
    match parser.advance(place) {
        Ok(()) => Ok(parser),
        Err(_) => Err(RowError::BadWord),
    }
}

/// Answers the data at a place of a message, and then the parser's place.
pub fn answer_parse(alloc: Global, row: &mut Row<'_>, out: &mut Answer) -> Result<(), RowError> {
    let (rtype, place, message) = placed(alloc, row)?;
    let mut parser = parser_at(message.as_slice(), place)?;
    let rdata: Result<Read<'_>, _> = ZoneRecordData::parse_any_rdata(rtype, &mut parser);
    shown_or(alloc, rdata, out)?;
    out.shown(&parser.pos())
}

/// The same for the call that takes only data of some types.
pub fn answer_taken(alloc: Global, row: &mut Row<'_>, out: &mut Answer) -> Result<(), RowError> {
    let (rtype, place, message) = placed(alloc, row)?;
    let mut parser = parser_at(message.as_slice(), place)?;
    let rdata: Result<Option<Read<'_>>, _> = ZoneRecordData::parse_rdata(rtype, &mut parser);
    match rdata.transpose() {
        Some(rdata) => shown_or(alloc, rdata, out)?,
        None => out.shown(&"None")?,
    }
    out.shown(&parser.pos())
}

/// Answers the data at a place of a message, converted so that it owns its octets.
pub fn answer_owned(alloc: Global, row: &mut Row<'_>, out: &mut Answer) -> Result<(), RowError> {
    let (rtype, place, message) = placed(alloc, row)?;
    let mut parser = parser_at(message.as_slice(), place)?;
    let rdata: Read<'_> = match ZoneRecordData::parse_any_rdata(rtype, &mut parser) {
        Ok(rdata) => rdata,
        Err(error) => return out.refused(&error),
    };
    let owned: Result<Owned, _> = if row.call() == "ZoneRecordData::flatten_into" {
        rdata.flatten_into(alloc)
    } else {
        Owned::try_octets_from(alloc, rdata)
    };
    shown_or(alloc, owned, out)
}
