//! Records in messages: headers, and data that is parsed at once or later (RFC 1035 4.1.3).
use crate::records::hash_of;
use dns_message::{ParsedRecord, Record, RecordHeader};
use dns_name::{FromStrError, Name, ParseError, ParsedName, Parser, ToName, Ttl};
use dns_rdata::ZoneRecordData;
use rows::{Answer, Row, RowError};
use std::alloc::Global;
use std::fmt::Display;

/// A record whose name and data are in a message.
type Read<'a> = Record<ParsedName<&'a [u8]>, ZoneRecordData<&'a [u8], ParsedName<&'a [u8]>>>;

/// Returns the name of a text.
pub fn name_of(alloc: Global, row: &mut Row<'_>) -> Result<Name<Vec<u8>>, RowError> {
    let text = row.text(alloc)?;
    match Name::vec_from_str(alloc, text.as_str()) {
        Ok(name) => Ok(name),
        Err(FromStrError::ShortBuf) => Err(RowError::OutOfMemory),
        Err(_) => Err(RowError::BadWord),
    }
}

/// Returns a parser of a message at a place.
pub fn at_place(message: &[u8], place: usize) -> Result<Parser<'_>, RowError> {
    let mut parser = Parser::from_ref(message);
    match parser.advance(place) {
        Ok(()) => Ok(parser),
        Err(_) => Err(RowError::BadWord),
    }
}

/// Writes the fields of a record header.
fn head<N: ToName + Display>(header: &RecordHeader<N>, out: &mut Answer) -> Result<(), RowError> {
    out.shown(header.owner())?;
    out.shown(&header.ttl().as_secs())?;
    out.shown(&header.class())?;
    out.shown(&header.rtype())?;
    out.shown(&header.rdlen())
}

/// Writes a record, or why there is none.
pub fn record_or(out: &mut Answer, rr: Result<Read<'_>, ParseError>) -> Result<(), RowError> {
    match rr {
        Ok(rr) => out.shown(&rr),
        Err(error) => out.refused(&error),
    }
}

/// Writes a record, or `None` if its data is of another type, or why there is no record.
fn maybe_record_or(
    out: &mut Answer,
    found: Result<Option<Read<'_>>, ParseError>,
) -> Result<(), RowError> {
    match found {
        Ok(Some(rr)) => out.shown(&rr),
        Ok(None) => out.shown(&"None"),
        Err(error) => out.refused(&error),
    }
}

/// Answers a call of record headers.
pub fn answer_header(alloc: Global, row: &mut Row<'_>, out: &mut Answer) -> Result<(), RowError> {
    match row.call() {
        "RecordHeader::compose" | "RecordHeader::compose_canonical" => {
            return answer_composed(alloc, row, out);
        }
        "RecordHeader::eq" | "RecordHeader::cmp" => return answer_compared(alloc, row, out),
        _ => {}
    }
    let place = row.value()?;
    let message = row.octets(alloc)?;
    let mut parser = at_place(message.as_slice(), place)?;
    let header = match row.call() {
        "RecordHeader::parse_ref" => RecordHeader::parse_ref(&mut parser),
        "RecordHeader::parse_and_skip" => RecordHeader::parse_and_skip(&mut parser),
        _ => RecordHeader::parse(&mut parser),
    };
    match header {
        Ok(header) => answer_data(row.call(), header, &mut parser, out)?,
        Err(error) => out.refused(&error)?,
    }
    out.shown(&parser.pos())
}

/// Answers the record header, or the record with the data after it.
fn answer_data<'a>(
    call: &str,
    header: RecordHeader<ParsedName<&'a [u8]>>,
    parser: &mut Parser<'a>,
    out: &mut Answer,
) -> Result<(), RowError> {
    match call {
        "RecordHeader::parse" | "RecordHeader::parse_ref" | "RecordHeader::parse_and_skip" => {
            head(&header, out)
        }
        "RecordHeader::parse_into_record" => {
            maybe_record_or(out, header.parse_into_record(parser))
        }
        "RecordHeader::parse_into_any_record" => {
            record_or(out, header.parse_into_any_record(parser))
        }
        _ => Err(RowError::UnknownCall),
    }
}

/// Returns the record header of an owner, a TTL, a class, a type and a length of data.
fn header_of(alloc: Global, row: &mut Row<'_>) -> Result<RecordHeader<Name<Vec<u8>>>, RowError> {
    let owner = name_of(alloc, row)?;
    let ttl = Ttl::from_secs(row.value()?);
    let class = row.value()?;
    Ok(RecordHeader::new(owner, row.value()?, class, ttl, row.value()?))
}

/// Answers how two record headers compare: whether they are equal and have the same hash, or their order.
fn answer_compared(alloc: Global, row: &mut Row<'_>, out: &mut Answer) -> Result<(), RowError> {
    let header = header_of(alloc, row)?;
    let other = header_of(alloc, row)?;
    if row.call() == "RecordHeader::cmp" {
        return out.named(&header.cmp(&other));
    }
    out.shown(&(header == other))?;
    out.shown(&(hash_of(&header) == hash_of(&other)))
}

/// Answers the octets of a record header.
fn answer_composed(alloc: Global, row: &mut Row<'_>, out: &mut Answer) -> Result<(), RowError> {
    let header = header_of(alloc, row)?;
    let mut target = Vec::new(alloc);
    let outcome = if row.call() == "RecordHeader::compose" {
        header.compose(&mut target)
    } else {
        header.compose_canonical(&mut target)
    };
    match outcome {
        Ok(()) => out.octets(target.as_slice()),
        Err(error) => out.refused(&error),
    }
}

/// Answers a call of records whose data is parsed later.
pub fn answer(alloc: Global, row: &mut Row<'_>, out: &mut Answer) -> Result<(), RowError> {
    let place = row.value()?;
    let message = row.octets(alloc)?;
    let mut parser = at_place(message.as_slice(), place)?;
    if row.call() == "ParsedRecord::skip" {
        match ParsedRecord::skip(&mut parser) {
            Ok(()) => out.shown(&"ok")?,
            Err(error) => out.refused(&error)?,
        }
        return out.shown(&parser.pos());
    }
    if row.call() == "ParsedRecord::eq" {
        let other = row.octets(alloc)?;
        let record = ParsedRecord::parse(&mut parser);
        let mut parser = Parser::from_ref(other.as_slice());
        return out.shown(&(record == ParsedRecord::parse(&mut parser)));
    }
    match ParsedRecord::parse(&mut parser) {
        Ok(parsed) => match row.call() {
            "ParsedRecord::parse" => {
                out.shown(&parsed.owner())?;
                out.shown(&parsed.ttl().as_secs())?;
                out.shown(&parsed.class())?;
                out.shown(&parsed.rtype())?;
                out.shown(&parsed.rdlen())?;
            }
            "ParsedRecord::to_record" => maybe_record_or(out, parsed.to_record())?,
            "ParsedRecord::to_any_record" => record_or(out, parsed.to_any_record())?,
            "ParsedRecord::into_record" => maybe_record_or(out, parsed.into_record())?,
            "ParsedRecord::into_any_record" => record_or(out, parsed.into_any_record())?,
            _ => return Err(RowError::UnknownCall),
        },
        Err(error) => out.refused(&error)?,
    }
    out.shown(&parser.pos())
}

/// Answers the record at a place of a message.
pub fn answer_record(alloc: Global, row: &mut Row<'_>, out: &mut Answer) -> Result<(), RowError> {
    let place = row.value()?;
    let message = row.octets(alloc)?;
    let mut parser = at_place(message.as_slice(), place)?;
    maybe_record_or(out, Record::parse(&mut parser))?;
    out.shown(&parser.pos())
}
