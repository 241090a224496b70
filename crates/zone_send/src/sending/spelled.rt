//! The stream of a transfer whose names are written with pointers (RFC 1035 4.1.4).
ghost use Rattle.std.specs.Prelude.{◌≡◌, ◌≢◌, ◌<◌, ◌≤◌, ◌^◌, [], ℕ, List, Some, length, slice_get, IsOk, IsErrAnd, IfOk, IfErr, MatchOption};
ghost use Rattle.std.specs.Bool.{OnTrue, OnFalse};
ghost use Rattle.std.specs.List.{AllByRecursion};
ghost use Rattle.dns_name.specs.Page.{Parts};
ghost use Rattle.dns_message.specs.PushError.TheVariants.{OutOfMemory};
ghost use Rattle.dns_builder.specs.Built.{IsDraftOf, nothing_built};
ghost use Rattle.dns_builder.specs.Seen.{draft_of};
ghost use Rattle.zone_records.specs.Record as spec;
ghost use Rattle.zone_records.specs.Typed.{HasLawfulData};
ghost use Rattle.zone_core.specs.Asked.{asked_by};
ghost use Rattle.zone_core.specs.Query.{AxfrQuery};
ghost use Rattle.zone_core.specs.Frames.{frame};
ghost use Rattle.zone_send.specs.Sent.{with_soa_again};
ghost use Rattle.zone_send.specs.Spelled.{spelled_size};
ghost use Rattle.zone_send.specs.SpelledSent.{IsSpelledSent};
ghost use Rattle.zone_send.specs.SpelledSending.{IsItem, AreItems, HoldsGroup, IsPushed, IsNextFrame, IsFrameFault, IsRefusedSpelled};

use super::error::SendError;
use super::header::header_of;
use super::opaque::{OpaqueRecord, may_have_pointer};
use dns_message::{
    AnswerBuilder, HashCompressor, MessageBuilder, PushError, StaticCompressor, StreamTarget,
    TreeCompressor,
};
use dns_name::{AppendError, Composer, Name, Rtype, ToName};
use std::alloc::{AllocError, Global};
use zone_core::Query;
use zone_records::record::Record;
use zone_records::record_list::RecordList;
use zone_records::typed::typed_record;

/// A target of one message after its length in two octets (RFC 1035 4.2.2). It writes names by one spelling.
pub(crate) trait FrameTarget: Composer + Drop {
    /// Returns an empty target that reuses the memory of the vector, whose octets it drops. Fails if out of memory.
    fn over(alloc: Global, frame: Vec<u8>) -> Result<Self, AllocError>
        ensures bound { IfOk result (λ target. Self.bound target ≡ Some 65535) };

    /// Returns the octets of the length and then the message.
    fn into_frame(self) -> Vec<u8>
        ensures { result.items ≡ frame (Self.list self) };
}

impl FrameTarget for StaticCompressor<StreamTarget<Vec<u8>>> {
    fn over(_alloc: Global, frame: Vec<u8>) -> Result<Self, AllocError> {
        Ok(StaticCompressor::new(stream_over(frame)?))
    }

    fn into_frame(self) -> Vec<u8> {
        self.into_target().into_target()
    }
}

impl FrameTarget for TreeCompressor<StreamTarget<Vec<u8>>> {
    fn over(alloc: Global, frame: Vec<u8>) -> Result<Self, AllocError> {
        Ok(TreeCompressor::new(alloc, stream_over(frame)?))
    }

    fn into_frame(self) -> Vec<u8> {
        self.into_target().into_target()
    }
}

impl FrameTarget for HashCompressor<StreamTarget<Vec<u8>>> {
    fn over(alloc: Global, frame: Vec<u8>) -> Result<Self, AllocError> {
        Ok(HashCompressor::new(alloc, stream_over(frame)?))
    }

    fn into_frame(self) -> Vec<u8> {
        self.into_target().into_target()
    }
}

/// The records to send, the query they answer, and the most octets that a message may have.
#[derive(Drop)]
pub(crate) struct Answer<'a> {
    pub(crate) query: &'a Query<'a>,
    /// The query's name.
    pub(crate) name: &'a Name<Vec<u8>>,
    pub(crate) records: &'a RecordList,
    pub(crate) max: u16,
    ghost asked: { name.now ≡ (asked_by query.now).name },
    ghost small: { max < 2 ^ 16 },
}

impl Answer<'_> {
    /// Returns the stream of the records and the first of them again. Fails if a record has room in no message, or if
    /// out of memory.
    pub(crate) fn send<Target: FrameTarget>(&self, alloc: Global) -> Result<Vec<u8>, SendError>
        requires { AllByRecursion HasLawfulData self.now.records.now }
        ensures ok { IfOk result (λ stream.
            IsSpelledSent Target.spelling self.now.records.now (asked_by self.now.query.now) self.now.max stream.items) }
        ensures err { IfErr result
            (IsRefusedSpelled Target.spelling self.now.records.now (asked_by self.now.query.now) self.now.max) }
    {
        let mut stream = Vec::new(alloc);
        let mut frame = Vec::new(alloc);
        let mut next = 0;
        while next < self.len() {
            let (octets, behind) = self.next_frame::<Target>(alloc, frame, next)?;
            stream.extend_from_slice(octets.as_slice())?;
            frame = octets;
            next = behind;
        }
        Ok(stream)
    }

    /// Returns the frame that begins with the record at index `start` and has as many of the next records as fit, and
    /// the index of the first record that does not. Reuses the memory of a vector. Fails if the first record has no
    /// room even alone, or if out of memory.
    fn next_frame<Target: FrameTarget>(
        &self,
        alloc: Global,
        frame: Vec<u8>,
        start: usize,
    ) -> Result<(Vec<u8>, usize), SendError>
        requires within { start < length (with_soa_again self.now.records.now) }
        requires lawful { AllByRecursion HasLawfulData self.now.records.now }
        ensures ok { IfOk result (λ found. (item : spec.Record → Parts) → AreItems item (with_soa_again self.now.records.now) →
            IsNextFrame Target.spelling (asked_by self.now.query.now) item self.now.max (with_soa_again self.now.records.now) start
            found.1 found.0.items) }
        ensures err { IfErr result (λ error. (item : spec.Record → Parts) → AreItems item (with_soa_again self.now.records.now) →
            IsFrameFault Target.spelling (asked_by self.now.query.now) item self.now.max (with_soa_again self.now.records.now) start error) }
    {
        let count = self.len();
        let begun = self.begin::<Target>(alloc, frame)?;
        let Some(mut builder) = begun else {
            return Err(SendError::Record(start + 1));
        };
        if !push_record(&mut builder, &self.record_at(start))? {
            return Err(SendError::Record(start + 1));
        }
        for next in start + 1..count {
            if !push_record(&mut builder, &self.record_at(next))? {
                return Ok((builder.into_target().into_frame(), next));
            }
        }
        Ok((builder.into_target().into_frame(), count))
    }

    /// Begins a message without answers: header and question. Returns None if these alone are larger than a message may
    /// be. Fails if out of memory.
    fn begin<Target: FrameTarget>(
        &self,
        alloc: Global,
        frame: Vec<u8>,
    ) -> Result<Option<AnswerBuilder<Target>>, AllocError>
        ensures { IfOk result (λ begun. (item : spec.Record → Parts) →
            MatchOption begun (self.now.max < spelled_size Target.spelling (asked_by self.now.query.now) item [])
            (λ builder. HoldsGroup Target.spelling (asked_by self.now.query.now) item self.now.max [] (draft_of builder))) }
    {
        let mut builder = builder_over(Target::over(alloc, frame)?)?.question();
        builder.set_push_limit(usize::from(self.max) + 1);
        builder.set_header(header_of(self.query));
        let question = (self.name.for_ref(), Rtype::AXFR, self.query.class());
        if !was_taken(builder.push(question))? {
            return Ok(None);
        }
        Ok(Some(builder.answer()))
    }

    /// Returns the number of records that are sent: those of the zone and the SOA again.
    fn len(&self) -> usize
        ensures count { result ≡ length (with_soa_again self.now.records.now) }
        ensures few { result ≤ 2 ^ 63 }
    {
        if self.records.is_empty() {
            0
        } else {
            self.records.len() + 1
        }
    }

    /// Returns the record at an index of those that are sent.
    fn record_at(&self, index: usize) -> Record<'_>
        requires within { index < length (with_soa_again self.now.records.now) }
        requires lawful { AllByRecursion HasLawfulData self.now.records.now }
        ensures there { slice_get (with_soa_again self.now.records.now) index ≡ Some result }
        ensures lawful { HasLawfulData result }
    {
        if index < self.records.len() {
            self.records.record_at(index)
        } else {
            self.records.record_at(0)
        }
    }
}

/// Returns an empty target of one message after its length, which reuses the memory of the vector. Fails if out of
/// memory.
fn stream_over(frame: Vec<u8>) -> Result<StreamTarget<Vec<u8>>, AllocError> {
    match StreamTarget::new(frame) {
        Ok(target) => Ok(target),
        Err(AppendError::OutOfMemory) => Err(AllocError),
        Err(AppendError::ShortBuf | AppendError::BadLength) => unreachable!(),
    }
}

/// Returns a builder of a message whose header is clear. Fails if out of memory.
fn builder_over<Target: FrameTarget>(target: Target) -> Result<MessageBuilder<Target>, AllocError>
    requires { Target.bound target ≡ Some 65535 }
    ensures built { IfOk result (λ builder. IsDraftOf Target.spelling nothing_built (draft_of builder)) }
    ensures bound { IfOk result (λ builder. (draft_of builder).bound ≡ Some 65535) }
{
    match MessageBuilder::from_target(target) {
        Ok(builder) => Ok(builder),
        Err(AppendError::OutOfMemory) => Err(AllocError),
        Err(AppendError::ShortBuf | AppendError::BadLength) => unreachable!(),
    }
}

/// Adds a record to a message, with its names written by the target's spelling. Returns false if it has no room. Fails
/// if out of memory.
fn push_record<Target: FrameTarget>(
    builder: &mut AnswerBuilder<Target>,
    next: &Record<'_>,
) -> Result<bool, AllocError>
    requires { HasLawfulData next.now }
    ensures { IfOk result (λ placed. (query : AxfrQuery) (item : spec.Record → Parts) (max : ℕ) (group : List spec.Record) →
        IsItem item next.now → HoldsGroup Target.spelling query item max group (draft_of builder.old) →
        IsPushed Target.spelling query item max group next.now placed (draft_of builder.new)) }
{
    if may_have_pointer(next.rtype()) {
        was_taken(builder.push_ref(&typed_record(next)))
    } else {
        was_taken(builder.push_ref(&OpaqueRecord { inner: next }))
    }
}

/// Returns whether a push succeeded. Fails if out of memory. So a lawful record is not taken only if it has no room.
fn was_taken(pushed: Result<(), PushError>) -> Result<bool, AllocError>
    ensures yes { IfOk result (λ taken. OnTrue taken (IsOk pushed)) }
    ensures no { IfOk result (λ taken. OnFalse taken (IsErrAnd pushed (λ error. error ≢ OutOfMemory))) }
{
    match pushed {
        Ok(()) => Ok(true),
        Err(PushError::OutOfMemory) => Err(AllocError),
        Err(_) => Ok(false),
    }
}
