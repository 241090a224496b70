//! Rivals of a sent stream: other streams of the same records, with names spelled freely and messages cut anywhere.
use crate::free::{Carried, Flaw, Transfer};
use crate::streams::received;
use crate::zones::zone_of;
use dns_name::ToName;
use rows::{Answer, Row, RowError};
use std::alloc::Global;
use zonewire::{Spelling, Zone, ZoneRecord, check_query, send};

/// Answers `rival MAX QUERY TEXT STREAM`: whether a receiver gets from the stream the records of the text's zone, octet
/// for octet (`same` or `other`); the number of free messages in the stream; the number of messages that are sent for
/// the zone under `tree`; whether the stream has fewer; and how many of its messages are shorter than the sent message
/// of the same records.
///
/// The answer ends early with the error if the zone is not sent, or with the flaw of a stream that is not free.
pub fn answer(alloc: Global, row: &mut Row<'_>, out: &mut Answer) -> Result<(), RowError> {
    let max = row.value()?;
    let query = row.octets(alloc)?;
    let text = row.text_octets(alloc)?;
    let stream = row.octets(alloc)?;
    let zone = zone_of(alloc, text.as_slice())?;
    match send(alloc, &zone, query.as_slice(), max, Spelling::Tree) {
        Ok(sent) => {
            show_received(alloc, query.as_slice(), stream.as_slice(), &zone, out)?;
            let streams = [stream.as_slice(), sent.as_slice()];
            show_messages(alloc, query.as_slice(), max, &zone, streams, out)
        }
        Err(error) => out.refused(&error),
    }
}

/// Writes whether the records that a receiver gets from the stream are the zone's.
fn show_received(
    alloc: Global,
    query: &[u8],
    stream: &[u8],
    zone: &Zone,
    out: &mut Answer,
) -> Result<(), RowError> {
    match received(alloc, query, stream) {
        Ok(other) if has_same_records(&other, zone) => out.shown(&"same"),
        Ok(_) => out.shown(&"other"),
        Err(error) => out.refused(&error),
    }
}

/// Returns whether both zones have the same records in order, octet for octet.
fn has_same_records(left: &Zone, right: &Zone) -> bool {
    let mut others = right.records();
    for record in left.records() {
        match others.next() {
            Some(other) if is_same(&record, &other) => {}
            _ => return false,
        }
    }
    others.next().is_none()
}

/// Returns whether both records are the same octet for octet.
fn is_same(left: &ZoneRecord<'_>, right: &ZoneRecord<'_>) -> bool {
    left.owner().as_slice() == right.owner().as_slice()
        && left.rtype() == right.rtype()
        && left.class() == right.class()
        && left.ttl() == right.ttl()
        && left.data() == right.data()
}

/// Compares the messages of the first stream, a rival's, with those of the second, which was sent.
fn show_messages(
    alloc: Global,
    query: &[u8],
    max: u16,
    zone: &Zone,
    streams: [&[u8]; 2],
    out: &mut Answer,
) -> Result<(), RowError> {
    let Ok(query) = check_query(query) else {
        return Err(RowError::BadWord);
    };
    let name = query.name().to_vec(alloc)?;
    let mut records = zone.records().collect::<Vec<ZoneRecord<'_>>>(alloc)?;
    for soa in zone.records().take(1) {
        records.push(soa)?;
    }
    let transfer = Transfer {
        id: query.id(),
        name: name.as_slice(),
        class: query.class(),
        records: records.as_slice(),
        max: usize::from(max),
    };
    let [rival, sent] = streams;
    let rival = match transfer.messages(alloc, rival) {
        Ok(rival) => rival,
        Err(flaw) => return show_flaw(flaw, out),
    };
    match transfer.messages(alloc, sent) {
        Ok(sent) => show_lengths(rival.as_slice(), sent.as_slice(), out),
        Err(Flaw::OutOfMemory) => Err(RowError::OutOfMemory),
        Err(_) => Err(RowError::BadWord),
    }
}

/// Writes why a stream is not free.
fn show_flaw(flaw: Flaw, out: &mut Answer) -> Result<(), RowError> {
    if flaw == Flaw::OutOfMemory {
        return Err(RowError::OutOfMemory);
    }
    out.named(&flaw)
}

/// Writes the numbers of messages, and how many of the rival's are shorter than a sent one of the same records.
fn show_lengths(rival: &[Carried], sent: &[Carried], out: &mut Answer) -> Result<(), RowError> {
    out.shown(&"free")?;
    out.shown(&rival.len())?;
    out.shown(&"sent")?;
    out.shown(&sent.len())?;
    out.shown(&"fewer")?;
    out.shown(&(rival.len() < sent.len()))?;
    out.shown(&"shorter")?;
    out.shown(&rival.iter().filter(|it| is_shorter(it, sent)).count())
}

/// Returns whether a sent message has the same records in more octets.
fn is_shorter(rival: &Carried, sent: &[Carried]) -> bool {
    sent.iter().any(|it| it.first == rival.first && it.count == rival.count && it.len > rival.len)
}
