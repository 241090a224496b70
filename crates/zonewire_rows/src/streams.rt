//! Streams that are sent and received.
use crate::receivers::fed;
use crate::zones::zone_of;
use rows::{Answer, Row, RowError};
use std::alloc::Global;
use zonewire::{DisplayKind, ReceiveError, Receiver, Spelling, Zone, send};

/// Answers `send TEXT QUERY MAX [SPELLING]`: the stream that answers the query for the zone of the text.
pub fn answer_send(alloc: Global, row: &mut Row<'_>, out: &mut Answer) -> Result<(), RowError> {
    let text = row.text_octets(alloc)?;
    let query = row.octets(alloc)?;
    let max = row.value()?;
    let spelling = if row.has_more() {
        spelling_of(row.word()?)?
    } else {
        Spelling::Plain
    };
    let zone = zone_of(alloc, text.as_slice())?;
    match send(alloc, &zone, query.as_slice(), max, spelling) {
        Ok(stream) => out.octets(stream.as_slice()),
        Err(error) => out.refused(&error),
    }
}

/// Answers `sent_again TEXT QUERY MAX SPELLING`: the stream that answers the query for the zone of the text, the
/// printed text of the zone that is received from it, and whether that zone is sent as the same octets.
pub fn answer_sent_again(
    alloc: Global,
    row: &mut Row<'_>,
    out: &mut Answer,
) -> Result<(), RowError> {
    let text = row.text_octets(alloc)?;
    let query = row.octets(alloc)?;
    let max = row.value()?;
    let spelling = spelling_of(row.word()?)?;
    let query = query.as_slice();
    let zone = zone_of(alloc, text.as_slice())?;
    let stream = match send(alloc, &zone, query, max, spelling) {
        Ok(stream) => stream,
        Err(error) => return out.refused(&error),
    };
    out.octets(stream.as_slice())?;
    let zone = match received(alloc, query, stream.as_slice()) {
        Ok(zone) => zone,
        Err(error) => return out.refused(&error),
    };
    out.text(zone.print(alloc, DisplayKind::Simple)?.as_slice())?;
    match send(alloc, &zone, query, max, spelling) {
        Ok(again) => out.shown(&(again.as_slice() == stream.as_slice())),
        Err(error) => out.refused(&error),
    }
}

/// Answers `Receiver::canonical QUERY STREAM`: the canonical octets of the zone that is received.
pub fn answer_received_canonical(
    alloc: Global,
    row: &mut Row<'_>,
    out: &mut Answer,
) -> Result<(), RowError> {
    let query = row.octets(alloc)?;
    let stream = row.octets(alloc)?;
    match received(alloc, query.as_slice(), stream.as_slice()) {
        Ok(zone) => out.octets(zone.canonical(alloc)?.as_slice()),
        Err(error) => out.refused(&error),
    }
}

/// Returns the zone that is received from a stream that is fed octet by octet.
pub fn received(alloc: Global, query: &[u8], stream: &[u8]) -> Result<Zone, ReceiveError> {
    let mut receiver = Receiver::new(alloc, query)?;
    fed(&mut receiver, stream, 0, 1)?;
    receiver.into_zone()
}

/// Returns the spelling of a word.
pub fn spelling_of(word: &str) -> Result<Spelling, RowError> {
    match word {
        "plain" => Ok(Spelling::Plain),
        "static" => Ok(Spelling::Static),
        "tree" => Ok(Spelling::Tree),
        "hash" => Ok(Spelling::Hash),
        _ => Err(RowError::BadWord),
    }
}
