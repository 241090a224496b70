//! Records written as in a zone file: composed, compared and printed (RFC 1035 4.1.3 and 5.1).
use crate::parsed::{answer_record, name_of};
use dns_message::Record;
use dns_name::{CanonicalOrd, Name, Ttl};
use dns_rdata::ZoneRecordData;
use dns_text::{DisplayKind, IterScanner, StrError, ZonefileFmt};
use rows::{Answer, Row, RowError};
use std::alloc::Global;
use std::hash::{DefaultHasher, Hash, Hasher};

type Owned = Record<Name<Vec<u8>>, ZoneRecordData<Vec<u8>, Name<Vec<u8>>>>;

/// Returns the record of an owner, a TTL, a class, a type, and the words of its data up to `|` or
/// the end.
fn record_of(alloc: Global, row: &mut Row<'_>) -> Result<Owned, RowError> {
    let owner = name_of(alloc, row)?;
    let ttl = Ttl::from_secs(row.value()?);
    let class = row.value()?;
    let rtype = row.value()?;
    let words = words_of(alloc, row)?;
    let mut scanner = IterScanner::new(alloc, words.as_str().lines())?;
    match ZoneRecordData::scan(rtype, &mut scanner) {
        Ok(rdata) if scanner.is_exhausted() => Ok(Record::new(owner, class, ttl, rdata)),
        Err(StrError::ShortBuf) => Err(RowError::OutOfMemory),
        _ => Err(RowError::BadWord),
    }
}

/// Returns the words up to `|` or the end, with a line feed after each.
fn words_of(alloc: Global, row: &mut Row<'_>) -> Result<String, RowError> {
    let mut words = String::new(alloc);
    for _ in 0..u32::MAX {
        if !row.has_more() {
            break;
        }
        let word = row.text(alloc)?;
        if word.as_str() == "|" {
            break;
        }
        words.push_str(word.as_str())?;
        words.push('\n')?;
    }
    Ok(words)
}

/// Returns the hash of a value.
pub fn hash_of<T: Hash>(value: &T) -> u64 {
    let mut state = DefaultHasher::new();
    value.hash(&mut state);
    state.finish()
}

pub fn answer(alloc: Global, row: &mut Row<'_>, out: &mut Answer) -> Result<(), RowError> {
    match row.call() {
        "Record::parse" => return answer_record(alloc, row, out),
        "Record::display_zonefile" => {
            let kind = match row.word()? {
                "Simple" => DisplayKind::Simple,
                "Tabbed" => DisplayKind::Tabbed,
                "Multiline" => DisplayKind::Multiline,
                _ => return Err(RowError::BadWord),
            };
            let text = record_of(alloc, row)?
                .display_zonefile(kind)
                .to_string(alloc)?;
            return out.named(&text.as_str());
        }
        _ => {}
    }
    let rr = record_of(alloc, row)?;
    match row.call() {
        "Record::fmt" => out.shown(&rr),
        "Record::compose" => {
            let mut target = Vec::new(alloc);
            match rr.compose(&mut target) {
                Ok(()) => out.octets(target.as_slice()),
                Err(error) => out.refused(&error),
            }
        }
        "Record::compose_canonical" => {
            let mut target = Vec::new(alloc);
            match rr.compose_canonical(&mut target) {
                Ok(()) => out.octets(target.as_slice()),
                Err(error) => out.refused(&error),
            }
        }
        "Record::eq" => out.shown(&(rr == record_of(alloc, row)?)),
        "Record::hash" => out.shown(&(hash_of(&rr) == hash_of(&record_of(alloc, row)?))),
        "Record::cmp" => out.named(&rr.cmp(&record_of(alloc, row)?)),
        "Record::canonical_cmp" => out.named(&rr.canonical_cmp(&record_of(alloc, row)?)),
        _ => Err(RowError::UnknownCall),
    }
}
