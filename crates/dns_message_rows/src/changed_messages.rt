//! Messages that are changed, copied, and read whole (RFC 1035 4.1).
use crate::parsed::record_or;
use arrayvec::ArrayVec;
use dns_message::{Header, Message, Opt, OptRecord, ParsedRecord, Record};
use dns_name::{AppendError, Octets, OctetsFrom, ParsedName};
use dns_rdata::A;
use rows::{Answer, Row, RowError};
use std::alloc::Global;

/// Returns whether this module answers a method of messages.
pub fn answers(method: &str) -> bool {
    matches!(
        method,
        "set_header" | "remove_last_additional" | "get_last_additional" | "octets_from" | "repeated"
    )
}

pub fn answer(alloc: Global, row: &mut Row<'_>, out: &mut Answer) -> Result<(), RowError> {
    match row.method() {
        "set_header" => set_header(alloc, row, out),
        "remove_last_additional" => remove_last_additional(message_of(alloc, row)?, out),
        "get_last_additional" => get_last_additional(alloc, row, out),
        "octets_from" => octets_from(alloc, row, out),
        _ => repeated(alloc, row, out),
    }
}

fn message_of(alloc: Global, row: &mut Row<'_>) -> Result<Message<Vec<u8>>, RowError> {
    match Message::from_octets(row.octets(alloc)?) {
        Ok(message) => Ok(message),
        Err(_) => Err(RowError::BadWord),
    }
}

/// Writes a message after its header is replaced.
fn set_header(alloc: Global, row: &mut Row<'_>, out: &mut Answer) -> Result<(), RowError> {
    let octets = row.octets(alloc)?;
    if octets.len() < 4 {
        return Err(RowError::BadWord);
    }
    let mut message = message_of(alloc, row)?;
    message.set_header(Header::for_message_slice(octets.as_slice()));
    out.octets(message.as_slice())
}

/// Writes a message after its last additional record is removed. It must have one.
fn remove_last_additional(mut message: Message<Vec<u8>>, out: &mut Answer) -> Result<(), RowError> {
    if message.header_counts().arcount() == 0 {
        return Err(RowError::BadWord);
    }
    message.remove_last_additional();
    out.octets(message.as_slice())
}

/// Writes the last additional record, read as a type: an address, or the payload size and the octets of the options.
fn get_last_additional(alloc: Global, row: &mut Row<'_>, out: &mut Answer) -> Result<(), RowError> {
    let rtype = row.word()?;
    let message = message_of(alloc, row)?;
    match rtype {
        "A" => {
            let last: Option<Record<ParsedName<&[u8]>, A>> = message.get_last_additional();
            match last {
                Some(record) => out.shown(&record),
                None => out.shown(&"None"),
            }
        }
        "OPT" => {
            let last: Option<Record<ParsedName<&[u8]>, Opt<&[u8]>>> = message.get_last_additional();
            match last {
                Some(record) => {
                    let record = OptRecord::from_record(record);
                    out.shown(&record.udp_payload_size())?;
                    out.octets(record.opt().as_slice())
                }
                None => out.shown(&"None"),
            }
        }
        _ => Err(RowError::BadWord),
    }
}

/// Writes a copy of a message, in 16 octets or in any number of them.
fn octets_from(alloc: Global, row: &mut Row<'_>, out: &mut Answer) -> Result<(), RowError> {
    let room = row.word()?;
    let message = message_of(alloc, row)?;
    match room {
        "16" => octets_or(
            out,
            Message::<ArrayVec<u8, 16>>::try_octets_from(alloc, message),
        ),
        "any" => octets_or(out, Message::<Vec<u8>>::try_octets_from(alloc, message)),
        _ => Err(RowError::BadWord),
    }
}

/// Writes the octets of a message, or why there is none.
fn octets_or<Octs: Octets + Drop>(
    out: &mut Answer,
    message: Result<Message<Octs>, AppendError>,
) -> Result<(), RowError> {
    match message {
        Ok(message) => out.octets(message.as_slice()),
        Err(error) => out.refused(&error),
    }
}

/// Reads the answers of a message that is made of octets, a record repeated `count` times, and more octets. Writes the
/// number of octets and of answers, the last answer, and the place after it.
fn repeated(alloc: Global, row: &mut Row<'_>, out: &mut Answer) -> Result<(), RowError> {
    let mut octets = row.octets(alloc)?;
    let count: u16 = row.value()?;
    let record = row.octets(alloc)?;
    for _ in 0..count {
        octets.extend_from_slice(record.as_slice())?;
    }
    octets.extend_from_slice(row.octets(alloc)?.as_slice())?;
    out.shown(&octets.len())?;
    let message = match Message::from_slice(octets.as_slice()) {
        Ok(message) => message,
        Err(error) => return out.refused(&error),
    };
    let mut section = match message.answer() {
        Ok(section) => section,
        Err(error) => return out.refused(&error),
    };
    let mut answers: u32 = 0;
    let mut last: Option<ParsedRecord<'_>> = None;
    while let Some(record) = section.next() {
        match record {
            Ok(record) => {
                answers = answers.saturating_add(1);
                last = Some(record);
            }
            Err(error) => out.refused(&error)?,
        }
    }
    out.shown(&answers)?;
    if let Some(record) = last {
        record_or(out, record.into_any_record())?;
    }
    out.shown(&section.pos())
}
