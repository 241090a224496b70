//! The open frame of a stream that arrives, and the records of its messages.
ghost use Rattle.std.specs.Prelude.{◌≤◌, length};

use crate::error::ReceiveError;
use crate::message::judge_message;
use crate::open_frame::missing;
use crate::owned_query::OwnedQuery;
use std::alloc::Global;
use zone_core::frames::LENGTH_OCTETS;
use zone_records::record_list::RecordList;

/// What is kept of a stream after its whole messages are judged.
#[derive(Debug, Drop)]
pub(crate) struct FrameBuffer {
    /// The octets of the open frame.
    open_frame: Vec<u8>,
    /// Whether no whole message has come.
    is_first: bool,
    /// The records of the messages, without the last SOA.
    records: RecordList,
    // A frame has a length of two octets, and at most 65,535 octets after it.
    ghost bounded: { length open_frame.items ≤ 65537 },
}

impl FrameBuffer {
    ghost use Rattle.std.specs.Prelude.{◌≡◌, ◌++◌, [], ℕ, List, take, true, IfOk, IfErr, IfSome, IfNone};
    ghost use Rattle.std.specs.Bool.{OnTrue, OnFalse};
    ghost use Rattle.zone_receive.specs.Asked.{asked_of};
    ghost use Rattle.zone_core.specs.Query.{AxfrQuery};
    ghost use Rattle.zone_receive.specs.Receiving.{IsHeard, IsStreamFault};
    ghost use Rattle.zone_receive.specs.FrameBuffer.{BreaksRule, EndsTransfer, GoesOn, IsFrame, IsWaiting, heard_by};

    /// Returns a buffer that has taken no octets.
    pub(crate) fn new(alloc: Global) -> FrameBuffer
        ensures first { result.is_first ≡ true }
        ensures heard { (query : AxfrQuery) → IsHeard (heard_by result query) [] }
        ensures waits { (query : AxfrQuery) → IsWaiting result query }
    {
        FrameBuffer {
            open_frame: Vec::new(alloc),
            is_first: true,
            records: RecordList::new(alloc),
        }
    }

    /// Takes a piece of the stream. If the transfer ends in it, returns the number of octets up to that end, and takes
    /// none after it. Otherwise takes all, and returns None. Fails with the first rule that the stream breaks with the
    /// piece, or if out of memory.
    pub(crate) fn take(
        &mut self,
        query: &OwnedQuery,
        piece: &[u8],
    ) -> Result<Option<usize>, ReceiveError>
        requires { IsWaiting self.old (asked_of query.now) }
        ensures ended { IfOk result (λ end. IfSome end (λ n. (n ≤ length piece.now)
            × EndsTransfer self.old (take n piece.now) self.new (asked_of query.now))) }
        ensures goes_on { IfOk result (λ end. IfNone end (GoesOn self.old piece.now self.new (asked_of query.now))) }
        ensures err { IfErr result (λ error. (stream : List ℕ) → IsHeard (heard_by self.old (asked_of query.now)) stream
            → IsStreamFault (asked_of query.now) (stream ++ piece.now) error) }
    {
        let mut taken = 0;
        while let Some(len) = missing(self.open_frame.as_slice(), &piece[taken..]) {
            let end = taken + len;
            if self.judge(query, &piece[taken..end])? {
                return Ok(Some(end));
            }
            taken = end;
        }
        self.open_frame.extend_from_slice(&piece[taken..])?;
        Ok(None)
    }

    /// Returns the records that have come.
    pub(crate) fn into_records(self) -> RecordList
        ensures { result ≡ self.records }
    {
        self.records
    }

    /// Judges the frame that these octets complete, and takes its records. Returns true if it ends the transfer. If the
    /// whole frame is in these octets, it is judged in place, without a copy. Fails with the first rule that the
    /// message breaks, or if out of memory.
    fn judge(&mut self, query: &OwnedQuery, rest: &[u8]) -> Result<bool, ReceiveError>
        requires waits { IsWaiting self.old (asked_of query.now) }
        requires framed { IsFrame (self.old.open_frame.items ++ rest.now) }
        ensures goes_on { IfOk result (λ ends. OnFalse ends (GoesOn self.old rest.now self.new (asked_of query.now))) }
        ensures ends { IfOk result (λ ends. OnTrue ends (EndsTransfer self.old rest.now self.new (asked_of query.now))) }
        ensures err { IfErr result (BreaksRule self.old rest.now (asked_of query.now)) }
    {
        let is_first = self.is_first;
        self.is_first = false;
        if self.open_frame.as_slice().is_empty() {
            return judge_message(query, is_first, &rest[LENGTH_OCTETS..], &mut self.records);
        }
        self.open_frame.extend_from_slice(rest)?;
        let message = &self.open_frame.as_slice()[LENGTH_OCTETS..];
        let ends = judge_message(query, is_first, message, &mut self.records)?;
        self.open_frame.clear();
        Ok(ends)
    }
}
