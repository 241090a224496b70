//! Records that a message has too little room for, with one more octet of room each time.
use crate::building::opts::OptRow;
use crate::building::records::record_of;
use arrayvec::ArrayVec;
use dns_builder::{AdditionalBuilder, AnswerBuilder, MessageBuilder};
use dns_compress::{HashCompressor, StaticCompressor, TreeCompressor};
use dns_header::{HeaderCounts, Record};
use dns_name::{Class, Composer, Name, Rtype, Ttl, UnknownRecordData};
use dns_rdata::ZoneRecordData;
use dns_sections::PushError;
use rows::{Answer, Row, RowError};
use std::alloc::Global;

/// A target that holds sixty-four octets.
type Room = ArrayVec<u8, 64>;

type OwnedRecord = Record<Name<Vec<u8>>, ZoneRecordData<Vec<u8>, Name<Vec<u8>>>>;

/// Pushes a record into messages with room for none of its octets, for one, and so on, up to the first push that
/// succeeds. Writes the number of pushes that failed. Each of them must leave the message as it was.
pub fn refused_in_turn(alloc: Global, row: &mut Row<'_>, out: &mut Answer) -> Result<(), RowError> {
    let kind = row.word()?;
    let record = record_of(alloc, row)?;
    for room in 0..42 {
        let is_refused = match kind {
            "plain" => refuses(alloc, Room::new(), &record, room)?,
            "static" => refuses(alloc, StaticCompressor::new(Room::new()), &record, room)?,
            "tree" => refuses(
                alloc,
                TreeCompressor::new(alloc, Room::new()),
                &record,
                room,
            )?,
            "hash" => refuses(
                alloc,
                HashCompressor::new(alloc, Room::new()),
                &record,
                room,
            )?,
            _ => return Err(RowError::BadWord),
        };
        if !is_refused {
            return out.shown(&room);
        }
    }
    Err(RowError::BadWord)
}

/// Returns whether the push of a record fails in a message with this much room.
fn refuses<Target: Composer + Drop>(
    alloc: Global,
    target: Target,
    record: &OwnedRecord,
    room: usize,
) -> Result<bool, RowError> {
    let mut answer = filled(alloc, target, room)?;
    let before = Vec::from_slice(alloc, answer.as_slice())?;
    let counts = answer.counts();
    match answer.push_ref(record) {
        Ok(()) => Ok(false),
        Err(error) => {
            is_as_before(error, answer.as_slice(), &before, answer.counts(), counts)?;
            Ok(true)
        }
    }
}

/// Does the same as `refused_in_turn` with an OPT record.
pub fn opt_refused_in_turn(
    alloc: Global,
    row: &mut Row<'_>,
    out: &mut Answer,
) -> Result<(), RowError> {
    let opt_row = OptRow::read(alloc, row)?;
    for room in 0..42 {
        if !refuses_opt(alloc, &opt_row, room)? {
            return out.shown(&room);
        }
    }
    Err(RowError::BadWord)
}

/// Returns whether the push of an OPT record fails in a message with this much room.
fn refuses_opt(alloc: Global, opt_row: &OptRow, room: usize) -> Result<bool, RowError> {
    let mut additional: AdditionalBuilder<Room> = filled(alloc, Room::new(), room)?.additional();
    let before = Vec::from_slice(alloc, additional.as_slice())?;
    let counts = additional.counts();
    match additional.opt(|opt| opt_row.apply(opt)) {
        Ok(()) => Ok(false),
        Err(error) => {
            is_as_before(
                error,
                additional.as_slice(),
                &before,
                additional.counts(),
                counts,
            )?;
            Ok(true)
        }
    }
}

/// Returns a message with a record of the root, after which this much room is left.
fn filled<Target: Composer + Drop>(
    alloc: Global,
    target: Target,
    room: usize,
) -> Result<AnswerBuilder<Target>, RowError> {
    let Ok(builder) = MessageBuilder::from_target(target) else {
        return Err(RowError::OutOfMemory);
    };
    let mut octets = Vec::new(alloc);
    for _ in room..41 {
        octets.push(0)?;
    }
    let Ok(rdata) = UnknownRecordData::from_octets(Rtype::TXT, octets) else {
        return Err(RowError::BadWord);
    };
    let record = Record::new(Name::root_slice(), Class::IN, Ttl::from_secs(0), rdata);
    let mut answer = builder.answer();
    match answer.push_ref(&record) {
        Ok(()) => Ok(answer),
        Err(_) => Err(RowError::OutOfMemory),
    }
}

/// Fails unless the push failed for want of room or memory, and the message still has its octets and its counts.
fn is_as_before(
    error: PushError,
    now: &[u8],
    before: &[u8],
    counts: HeaderCounts,
    counts_before: HeaderCounts,
) -> Result<(), RowError> {
    if now != before || counts != counts_before {
        return Err(RowError::BadWord);
    }
    match error {
        PushError::ShortBuf => Ok(()),
        PushError::OutOfMemory => Err(RowError::OutOfMemory),
        _ => Err(RowError::BadWord),
    }
}
