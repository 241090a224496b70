//! Queries for a zone's transfer.
ghost use Rattle.std.specs.Prelude.{◌≡◌, ◌≤◌, ◌↔◌, false, length, IsTrue, IfOk, IfErr};
ghost use Rattle.dns_name.specs.ParsedName.{labels_of};
ghost use Rattle.zone_core.specs.Asked.{asked_by};
ghost use Rattle.zone_core.specs.Query.{AsksOne, IsQuery, IsQueryFault, query_octets};

use crate::query_error::QueryError;
use crate::question::{HEADER_OCTETS, compose_opening, parse_question};
use dns_message::laws::header_is_its_fields;
use dns_message::{Header, HeaderCounts};
use dns_name::{Class, Name, Opcode, ParsedName, Rtype};
use std::alloc::{AllocError, Global};
use zone_records::record::ANY;

/// A query for the transfer of a zone (RFC 5936 2.1): the values that an answer depends on.
#[derive(Debug, Drop)]
pub struct Query<'a> {
    id: u16,
    rd: bool,
    name: ParsedName<&'a [u8]>,
    class: Class,
}

impl<'a> Query<'a> {
    /// Returns the ID, which the answer repeats.
    pub fn id(&self) -> u16
        ensures { result ≡ (asked_by self.now).id }
    {
        self.id
    }

    /// Returns RD, whether recursion is desired. The answer repeats it.
    pub fn rd(&self) -> bool
        ensures { result ≡ (asked_by self.now).recursion }
    {
        self.rd
    }

    /// Returns the name of the zone that is asked for.
    pub fn name(&self) -> ParsedName<&'a [u8]>
        ensures { labels_of result ≡ (asked_by self.now).name }
    {
        self.name
    }

    /// Returns the class of the zone that is asked for.
    pub fn class(&self) -> Class
        ensures { result ≡ (asked_by self.now).class }
    {
        self.class
    }
}

/// Parses the octets of a message as a query for a zone's transfer (RFC 5936 2.1). Fails with the first rule of
/// `QueryError` that they break.
///
/// The header bits that no rule names are ignored.
pub fn check_query(octets: &[u8]) -> Result<Query<'_>, QueryError>
    ensures ok { IfOk result (λ query. IsQuery octets.now (asked_by query)) }
    ensures err { IfErr result (IsQueryFault octets.now) }
{
    if octets.len() < HEADER_OCTETS {
        return Err(QueryError::Short);
    }
    let header = Header::for_message_slice(octets);
    if header.qr() {
        return Err(QueryError::Response);
    }
    if header.opcode() != Opcode::QUERY {
        return Err(QueryError::Opcode);
    }
    if !asks_one(octets) {
        return Err(QueryError::Counts);
    }
    let Ok((question, end)) = parse_question(octets) else {
        return Err(QueryError::Malformed);
    };
    if question.qtype() != Rtype::AXFR {
        return Err(QueryError::NotAxfr);
    }
    if question.qclass().to_int() == ANY {
        return Err(QueryError::ClassAny);
    }
    if end != octets.len() {
        return Err(QueryError::Trailing);
    }
    Ok(Query {
        id: header.id(),
        rd: header.rd(),
        name: *question.qname(),
        class: question.qclass(),
    })
}

/// Composes the query for the transfer of the zone with this name and class, with all flags clear (RFC 5936 2.1).
/// Returns its octets. Fails if out of memory.
pub fn axfr_query(
    alloc: Global,
    id: u16,
    class: Class,
    name: &Name<&[u8]>,
) -> Result<Vec<u8>, AllocError>
    ensures { IfOk result (λ query. query.items
        ≡ query_octets (record { id = id; recursion = false; name = name.now; class = class })) }
{
    let mut header = Header::new();
    header.set_id(id);
    // For the proof: the header's octets are its fields.
    header_is_its_fields(header);
    compose_opening(alloc, header, name, class)
}

/// Returns whether a message counts one question and no record.
fn asks_one(message: &[u8]) -> bool
    requires { 12 ≤ length message.now }
    ensures { IsTrue result ↔ AsksOne message.now }
{
    let counts = HeaderCounts::for_message_slice(message);
    counts.qdcount() == 1 && counts.ancount() == 0 && counts.nscount() == 0 && counts.arcount() == 0
}
