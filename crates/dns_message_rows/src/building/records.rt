//! Names and records as given in a row (RFC 1035 5.1).
use dns_header::Record;
use dns_name::{FromStrError, Name, Ttl, UnknownRecordData};
use dns_rdata::ZoneRecordData;
use dns_text::{IterScanner, StrError};
use rows::{Row, RowError};
use std::alloc::Global;

type OwnedName = Name<Vec<u8>>;

/// Takes the next argument as a name.
pub fn name_of(alloc: Global, row: &mut Row<'_>) -> Result<OwnedName, RowError> {
    name_of_text(alloc, row.word()?)
}

/// Returns the name of a text.
pub fn name_of_text(alloc: Global, text: &str) -> Result<OwnedName, RowError> {
    match Name::vec_from_str(alloc, text) {
        Ok(name) => Ok(name),
        Err(FromStrError::ShortBuf) => Err(RowError::OutOfMemory),
        Err(_) => Err(RowError::BadWord),
    }
}

/// Returns the record of an owner, a TTL, a class, a type, and the words of its data up to `|` or
/// the end.
pub fn record_of(
    alloc: Global,
    row: &mut Row<'_>,
) -> Result<Record<OwnedName, ZoneRecordData<Vec<u8>, OwnedName>>, RowError> {
    let owner = name_of(alloc, row)?;
    let ttl = Ttl::from_secs(row.value()?);
    let class = row.value()?;
    let rtype = row.value()?;
    let words = words_of(alloc, row)?;
    let mut scanner = IterScanner::new(alloc, words.as_str().lines())?;
    match ZoneRecordData::scan(rtype, &mut scanner) {
        Ok(rdata) if scanner.is_exhausted() => Ok(Record::new(owner, class, ttl, rdata)),
        Err(StrError::ShortBuf) => Err(RowError::OutOfMemory),
        _ => Err(RowError::BadWord),
    }
}

/// Returns the words up to `|` or the end, with a line feed after each.
fn words_of(alloc: Global, row: &mut Row<'_>) -> Result<String, RowError> {
    let mut words = String::new(alloc);
    for _ in 0..u32::MAX {
        if !row.has_more() {
            break;
        }
        let word = row.word()?;
        if word == "|" {
            break;
        }
        words.push_str(word)?;
        words.push('\n')?;
    }
    Ok(words)
}

/// Returns the record of an owner, a TTL, a class, a type, and the octets of its data.
pub fn record_of_octets(
    alloc: Global,
    row: &mut Row<'_>,
) -> Result<Record<OwnedName, UnknownRecordData<Vec<u8>>>, RowError> {
    let owner = name_of(alloc, row)?;
    let ttl = Ttl::from_secs(row.value()?);
    let class = row.value()?;
    let rtype = row.value()?;
    match UnknownRecordData::from_octets(rtype, row.octets(alloc)?) {
        Ok(rdata) => Ok(Record::new(owner, class, ttl, rdata)),
        Err(_) => Err(RowError::BadWord),
    }
}
