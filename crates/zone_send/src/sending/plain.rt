//! The stream of a transfer while it grows.
ghost use Rattle.std.specs.Prelude.{◌≡◌, ◌+◌, ◌-◌, ◌≤◌, ◌<◌, ◌^◌, ◌++◌, [], ◌∷◌, ℕ, List, length, flat_map, IfOk, OnOk, MatchOption, Some};
ghost use Rattle.std.specs.Int.{to_be_bytes, w16};
ghost use Rattle.dns_label.specs.Name.{IsName};
ghost use Rattle.dns_message.specs.Record.{record_octets};
ghost use Rattle.zone_records.specs.Record as spec;
ghost use Rattle.zone_core.specs.Asked.{asked_by};
ghost use Rattle.zone_core.specs.Query.{AxfrQuery};
ghost use Rattle.zone_send.specs.Sent.{message};

use super::header::header_of;
use dns_name::Name;
use dns_octets::put_number;
use std::alloc::{AllocError, Global};
use zone_core::Query;
use zone_core::frames::LENGTH_OCTETS;
use zone_core::question::compose_opening;

/// The place of the count of answers in a message, in octets (RFC 1035 4.1.1).
const ANSWER_COUNT: usize = 6;

/// A stream of whole frames. Records are still added to its last message.
#[derive(Debug, Drop)]
pub(crate) struct Sender {
    stream: Vec<u8>,
    /// A message without answers: header and question.
    opening: Vec<u8>,
    max: usize,
    /// The place in the stream where the last message begins, after its length. None before the first message.
    last: Option<usize>,
    /// The number of answers in the last message.
    answers: u16,
}

impl Sender {
    ghost use Rattle.std.specs.Bool.{OnTrue, OnFalse};
    ghost use Rattle.std.specs.List.{push};
    ghost use Rattle.zone_send.specs.Sent.{size};
    ghost use Rattle.zone_send.specs.Sending.{Stands, StandsWhole, HoldsGroups, Holds, HasNoRoom, FitsNowhere};

    /// Returns a stream without a message, for the answers to a query of this name. Fails if out of memory.
    pub(crate) fn new(
        alloc: Global,
        query: &Query<'_>,
        name: &Name<Vec<u8>>,
        max: u16,
    ) -> Result<Sender, AllocError>
        requires { name.now ≡ (asked_by query.now).name }
        ensures holds { IfOk result (λ sender. Holds sender (asked_by query.now) []) }
        ensures max { IfOk result (λ sender. sender.max ≡ max) }
    {
        Ok(Sender {
            stream: Vec::new(alloc),
            opening: opening(alloc, query, name)?,
            max: usize::from(max),
            last: None,
            answers: 0,
        })
    }

    /// Adds a written record to the last message, or to a new one if it has no room there. Returns false if it has no
    /// room in a new message either. Fails if out of memory.
    pub(crate) fn put(&mut self, record: &[u8]) -> Result<bool, AllocError>
        requires holds { (query : AxfrQuery) × (records : List spec.Record) × Holds self.old query records }
        requires is_record { (r : spec.Record) × («record».now ≡ record_octets r) }
        ensures placed { IfOk result (λ placed. OnTrue placed ((query : AxfrQuery) (records : List spec.Record) (r : spec.Record) →
            «record».now ≡ record_octets r → Holds self.old query records → Holds self.new query (push records r))) }
        ensures refused { IfOk result (λ placed. OnFalse placed ((query : AxfrQuery) (records : List spec.Record) (r : spec.Record) →
            «record».now ≡ record_octets r → Holds self.old query records → FitsNowhere self.old query records r)) }
        ensures max { OnOk result (self.new.max ≡ self.old.max) }
    {
        let len = record.len();
        if let Some(start) = self.last_with_room(len) {
            self.append(start, record, 1)?;
            return Ok(true);
        }
        if self.opening.len() + len > self.max {
            return Ok(false);
        }
        let start = self.open()?;
        self.append(start, record, 1)?;
        Ok(true)
    }

    /// Returns how many octets the records of a message can have.
    pub(crate) fn room(&self) -> usize
        ensures { result ≡ self.now.max - length self.now.opening.items }
    {
        self.max.saturating_sub(self.opening.len())
    }

    /// Adds a message with so many written records, which have room in it. Fails if out of memory.
    pub(crate) fn add_message(&mut self, run: &[u8], count: u16) -> Result<(), AllocError>
        requires { (query : AxfrQuery) × (groups : List (List spec.Record)) × HoldsGroups self.old query groups ×
            (group : List spec.Record) × («run».now ≡ flat_map record_octets group) × (count ≡ length group) ×
            (size query group ≤ self.old.max) }
        ensures whole { OnOk result ((query : AxfrQuery) (groups : List (List spec.Record)) (group : List spec.Record) →
            «run».now ≡ flat_map record_octets group → count ≡ length group → HoldsGroups self.old query groups →
            HoldsGroups self.new query (push groups group)) }
        ensures max { OnOk result (self.new.max ≡ self.old.max) }
    {
        let start = self.open()?;
        self.append(start, run, count)?;
        Ok(())
    }

    /// Returns the octets of the stream.
    pub(crate) fn into_stream(self) -> Vec<u8>
        ensures { result.items ≡ self.stream.items }
    {
        self.stream
    }

    /// Returns the place where the last message begins, if there is one with room for `len` octets.
    fn last_with_room(&self, len: usize) -> Option<usize>
        requires holds { (query : AxfrQuery) × (records : List spec.Record) × Holds self.now query records }
        requires small { len < 2 ^ 63 + 2 ^ 16 }
        ensures { MatchOption result (HasNoRoom self.now self.now.last len)
            (λ start. (self.now.last ≡ Some start) × (length self.now.stream.items + len ≤ self.now.max + start)) }
    {
        let start = self.last?;
        if self.stream.len() - start + len <= self.max {
            Some(start)
        } else {
            None
        }
    }

    /// Begins a message, and returns the place where it begins. Fails if out of memory.
    fn open(&mut self) -> Result<usize, AllocError>
        ensures stands { IfOk result (λ start. (query : AxfrQuery) (groups : List (List spec.Record)) →
            HoldsGroups self.old query groups → Stands self.new query start groups [] (0 ∷ 0 ∷ []) (0 ∷ 0 ∷ [])) }
        ensures max { OnOk result (self.new.max ≡ self.old.max) }
    {
        let start = self.stream.len() + LENGTH_OCTETS;
        self.stream.extend_from_slice(&[0; LENGTH_OCTETS])?;
        self.stream.extend_from_slice(self.opening.as_slice())?;
        self.last = Some(start);
        self.answers = 0;
        Ok(start)
    }

    /// Adds so many written records to the last message, which begins at `start` and has room for them, and counts them.
    /// Fails if out of memory.
    fn append(&mut self, start: usize, run: &[u8], count: u16) -> Result<(), AllocError>
        requires { (query : AxfrQuery) × (front : List (List spec.Record)) × (group : List spec.Record) × (mark counted : List ℕ) ×
            Stands self.old query start front group mark counted × (size query group + length «run».now ≤ self.old.max) ×
            (more : List spec.Record) × («run».now ≡ flat_map record_octets more) × (count ≡ length more) }
        ensures whole { OnOk result ((query : AxfrQuery) (front : List (List spec.Record)) (group : List spec.Record) (mark counted : List ℕ)
            (more : List spec.Record) → «run».now ≡ flat_map record_octets more → count ≡ length more →
            Stands self.old query start front group mark counted → StandsWhole self.new query start front (group ++ more)) }
        ensures max { OnOk result (self.new.max ≡ self.old.max) }
    {
        self.stream.extend_from_slice(run)?;
        self.answers += count;
        let len = (self.stream.len() - start) as u16;
        put_number(&mut self.stream, start - LENGTH_OCTETS, len);
        put_number(&mut self.stream, start + ANSWER_COUNT, self.answers);
        Ok(())
    }
}

/// Composes the header and the question of each message (RFC 1035 4.1.1, 4.1.2), without answers. Fails if out of
/// memory.
fn opening(alloc: Global, query: &Query<'_>, name: &Name<Vec<u8>>) -> Result<Vec<u8>, AllocError>
    requires { name.now ≡ (asked_by query.now).name }
    ensures octets { IfOk result (λ opening. opening.items ≡ message (asked_by query.now) []) }
    ensures name { OnOk result (IsName name.now) }
{
    compose_opening(alloc, header_of(query), &name.for_ref(), query.class())
}
