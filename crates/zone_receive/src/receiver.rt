//! Receiving a zone as the stream of its transfer.
ghost use Rattle.std.specs.Prelude.{◌≡◌, ◌≤◌, ◌↔◌, ℕ, List, [], None, Ok, Err, length, IsTrue, IfOk, IfErr, MatchResult};
ghost use Rattle.zone_receive.specs.Asked.{asked_of};
ghost use Rattle.zone_core.specs.Query.{IsQuery};
ghost use Rattle.zone_receive.specs.Receiving.{IsAfter, IsAskFault, IsNoZone, IsWholeTransfer, Refuses, Takes, refusal_in};
ghost use Rattle.zone_receive.specs.Receiving.Stage.{Ended, Fresh, Refused};
ghost use Rattle.zone_receive.specs.declared.error.ReceiveError.{ReceiveError};
ghost use Rattle.zone_core.specs.Transfer.{IsTransfer};

use crate::error::ReceiveError;
use crate::frame_buffer::FrameBuffer;
use crate::owned_query::OwnedQuery;
use std::alloc::Global;
use std::marker::Model;
use zone::Zone;
use zone::zone::zone_of;
use zone_core::check_query;

/// How far a stream has come.
#[derive(Clone, Copy, Debug)]
enum Progress {
    /// The last SOA has not come.
    Begun,
    /// The last SOA has come, and the zone's records are complete.
    Done,
    /// The stream failed.
    Refused(ReceiveError),
}

/// Receives the answers to a query for a zone's transfer, in pieces of any size (RFC 5936 2.2).
///
/// It holds the records that have come, and the octets of a message that is not complete: fewer than 65,537. A message
/// is judged once, when it is complete.
#[derive(Debug, Drop)]
pub struct Receiver {
    query: OwnedQuery,
    buffer: FrameBuffer,
    progress: Progress,
}

impl Model for Receiver {
    ghost use Rattle.zone_receive.specs.Receiving.{Heard};
    ghost use Rattle.zone_receive.specs.Received.{IsReceiver, heard_in};
    ghost use Rattle.zone_receive.specs.Asked.{asked_of};

    ghost Value = { Heard };

    ghost view = { λ r. heard_in r.progress r.buffer (asked_of r.query) };

    ghost invariant = { λ r. IsReceiver r.progress r.buffer (asked_of r.query) };
}

impl Receiver {
    /// Returns a receiver for the answers to the query in these octets. No octet has come yet.
    ///
    /// Fails with the first rule that the query breaks. Fails with `OutOfMemory` only if it breaks none.
    pub fn new(alloc: Global, query: &[u8]) -> Result<Receiver, ReceiveError>
        ensures ok { IfOk result (λ receiver. IsQuery query.now receiver.query) }
        ensures fresh { IfOk result (λ receiver. (receiver.stage ≡ Fresh) × IsAfter receiver []) }
        ensures err { IfErr result (IsAskFault query.now) }
    {
        let query = match check_query(query) {
            Ok(query) => query,
            Err(fault) => return Err(ReceiveError::Query(fault)),
        };
        Ok(Receiver {
            query: OwnedQuery::from_query(alloc, &query)?,
            buffer: FrameBuffer::new(alloc),
            progress: Progress::Begun,
        })
    }

    /// Takes the next piece of the stream, and returns the number of octets taken: all of them, or those up to the end
    /// of the transfer. After the end it takes none.
    ///
    /// Fails with the first rule that the first bad message breaks, or with `OutOfMemory`. Every later call then fails
    /// with the same error. An empty piece changes nothing, and fails only with an error that came before.
    pub fn feed(&mut self, piece: &[u8]) -> Result<usize, ReceiveError>
        ensures takes { (stream : List ℕ) → IsAfter self.old stream →
            MatchResult result (Takes self.old stream piece.now self.new) (Refuses self.old stream piece.now self.new) }

        // For any stream, an error is kept, and so is a complete transfer.
        ensures kept { (error : ReceiveError) → self.old.stage ≡ Refused error → (result ≡ Err error) × (self.new ≡ self.old) }
        ensures ended { self.old.stage ≡ Ended → (result ≡ Ok 0) × (self.new ≡ self.old) }

        // An empty piece changes nothing, and fails only with an error that is kept.
        ensures empty { piece.now ≡ [] → refusal_in self.old.stage ≡ None → (result ≡ Ok 0) × (self.new ≡ self.old) }

        // The open frame is no longer than a frame can be.
        ensures bounded { length self.new.open_frame ≤ 65537 }
    {
        match self.progress {
            Progress::Done => Ok(0),
            Progress::Refused(error) => Err(error),
            Progress::Begun if piece.is_empty() => Ok(0),
            Progress::Begun => match self.buffer.take(&self.query, piece) {
                Ok(None) => Ok(piece.len()),
                Ok(Some(count)) => {
                    self.progress = Progress::Done;
                    Ok(count)
                }
                Err(error) => {
                    self.progress = Progress::Refused(error);
                    Err(error)
                }
            },
        }
    }

    /// Returns whether the transfer is complete.
    pub fn is_done(&self) -> bool
        ensures stage { IsTrue result ↔ (self.now.stage ≡ Ended) }
        ensures whole { (stream : List ℕ) → IsAfter self.now stream →
            (IsTrue result ↔ ((refusal_in self.now.stage ≡ None) × IsWholeTransfer self.now.query stream)) }
    {
        matches!(self.progress, Progress::Done)
    }

    /// Returns the zone that was received. Fails with the error that is kept, otherwise with `Unfinished` if the
    /// transfer is not complete.
    pub fn into_zone(self) -> Result<Zone, ReceiveError>
        ensures ok { IfOk result (λ zone. (stream : List ℕ) → IsAfter self stream →
            (refusal_in self.stage ≡ None) × IsTransfer self.query stream zone.records) }
        ensures class_is { IfOk result (λ zone. zone.class ≡ self.query.class) }
        ensures err { IfErr result (λ error. (stream : List ℕ) → IsAfter self stream → IsNoZone self stream error) }

        // For any stream, an error is kept.
        ensures kept { (error : ReceiveError) → self.stage ≡ Refused error → result ≡ Err error }
    {
        let Receiver {
            query,
            buffer,
            progress,
        } = self;
        match progress {
            Progress::Done => Ok(zone_of(buffer.into_records(), query.class)),
            Progress::Begun => Err(ReceiveError::Unfinished),
            Progress::Refused(error) => Err(error),
        }
    }
}
