//! Sending a zone as the stream of its transfer.
ghost use Rattle.std.specs.Prelude.{◌≡◌, ◌↔◌, ◌≤◌, [], length, IsTrue, IfOk, IfErr};
ghost use Rattle.std.specs.List.{AllByRecursion};
ghost use Rattle.zone_records.specs.Typed.{HasLawfulData};
ghost use Rattle.zone_core.specs.Asked.{asked_by};
ghost use Rattle.zone_core.specs.Query.{AxfrQuery};
ghost use Rattle.zone_send.specs.Sent.{AsksFor, IsSent};
ghost use Rattle.zone_send.specs.SentBy.{IsSentBy, IsSendFault, IsRefusedFor};
ghost use Rattle.zone_send.specs.Best.{FitsNoMessages, IfRecord, IsSentFor};
ghost use Rattle.zone_send.specs.Sending.{Holds, IsRefusedBy, IsRun};
ghost use Rattle.zone.specs.View.{apex_of};

mod error;
mod header;
mod opaque;
mod plain;
mod spelled;

use dns_message::{HashCompressor, StaticCompressor, StreamTarget, TreeCompressor};
use dns_name::{Name, ToName};
pub use error::SendError;
use plain::Sender;
use spelled::Answer;
use std::alloc::Global;
use zone::Zone;
use zone::zone::records_of;
use zone_core::{Query, Spelling, check_query};
use zone_records::record_list::RecordList;

/// Returns the stream that answers a query for the zone's transfer: its records in order and the SOA again, in messages
/// of at most `max` octets, each after its length in two octets (RFC 5936 2.2).
///
/// Each message has the query's ID, QR, AA and the query's RD, the query's question, and as many of the next records as
/// have room. Fails with the first rule of `SendError` that is broken, and with `OutOfMemory` only if the query asks
/// for the zone.
pub fn send(
    alloc: Global,
    zone: &Zone,
    query: &[u8],
    max: u16,
    spelling: Spelling,
) -> Result<Vec<u8>, SendError>
    ensures ok { IfOk result (λ stream. IsSentFor spelling zone.now.records zone.now.class query.now max stream.items) }
    ensures err { IfErr result (IsSendFault spelling zone.now.records (apex_of zone.now.records) zone.now.class query.now max) }

    // If a record has room in no message, no messages hold the records.
    ensures none { IfErr result (λ error. IfRecord error (FitsNoMessages spelling zone.now.records query.now max)) }
{
    let query = match check_query(query) {
        Ok(query) => query,
        Err(fault) => return Err(SendError::Query(fault)),
    };
    if !asks_for(&query, zone) {
        return Err(SendError::WrongZone);
    }
    let name = query.name().to_vec(alloc)?;
    send_by(alloc, &query, &name, records_of(zone), max, spelling)
}

/// Returns whether a query asks for the zone.
fn asks_for(query: &Query<'_>, zone: &Zone) -> bool
    ensures { IsTrue result ↔ AsksFor (asked_by query.now) (apex_of zone.now.records) zone.now.class }
{
    query.class() == zone.class() && query.name().name_eq(&zone.apex())
}

/// Returns the stream of these records and the first of them again, in answer to a query of this name. Fails if a
/// record has room in no message, or if out of memory.
fn send_by(
    alloc: Global,
    query: &Query<'_>,
    name: &Name<Vec<u8>>,
    records: &RecordList,
    max: u16,
    spelling: Spelling,
) -> Result<Vec<u8>, SendError>
    requires asked { name.now ≡ (asked_by query.now).name }
    requires lawful { AllByRecursion HasLawfulData records.now }
    ensures ok { IfOk result (λ stream. IsSentBy spelling records.now (asked_by query.now) max stream.items) }
    ensures err { IfErr result (IsRefusedFor spelling records.now (asked_by query.now) max) }
{
    let answer = Answer {
        query,
        name,
        records,
        max,
    };
    match spelling {
        Spelling::Plain => send_records(Sender::new(alloc, query, name, max)?, records),
        Spelling::Static => answer.send::<StaticCompressor<StreamTarget<Vec<u8>>>>(alloc),
        Spelling::Tree => answer.send::<TreeCompressor<StreamTarget<Vec<u8>>>>(alloc),
        Spelling::Hash => answer.send::<HashCompressor<StreamTarget<Vec<u8>>>>(alloc),
    }
}

/// Returns the stream of these records and the first of them again, every name written out. Fails if a record has room
/// in no message, or if out of memory.
fn send_records(mut sender: Sender, records: &RecordList) -> Result<Vec<u8>, SendError>
    requires { (query : AxfrQuery) × Holds sender query [] }
    ensures ok { IfOk result (λ stream. (query : AxfrQuery) → Holds sender query [] →
        IsSent records.now query sender.max stream.items) }
    ensures err { IfErr result (λ error. (query : AxfrQuery) → Holds sender query [] →
        IsRefusedBy query sender.max records.now error) }
{
    let room = sender.room();
    let mut start = 0;
    while start < records.len() {
        let end = run_end(records, start, room);
        if end == start {
            return Err(SendError::Record(start + 1));
        }
        sender.add_message(records.octets_between(start, end), (end - start) as u16)?;
        start = end;
    }
    if !records.is_empty() && !sender.put(records.octets_at(0))? {
        return Err(SendError::Record(records.len() + 1));
    }
    Ok(sender.into_stream())
}

/// Returns the index behind the most of the next records, from index `start` on, whose octets have this room.
fn run_end(records: &RecordList, start: usize, room: usize) -> usize
    requires { start ≤ length records.now }
    ensures { IsRun records.now start room result }
{
    let before = records.octets_before(start);
    for end in start..records.len() {
        if records.octets_before(end + 1) - before > room {
            return end;
        }
    }
    records.len()
}
