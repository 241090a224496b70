//! The messages of a transfer, judged one by one.
ghost use Rattle.std.specs.Prelude.{◌≡◌, ◌+◌, ◌++◌, ◌∷◌, [], ◌↔◌, ◌⊎◌, ◌≤◌, ℕ, Bool, List, length, IsTrue, IfOk, IfErr, OnOk, IfSome, IfNone};
ghost use Rattle.std.specs.List.{AllByRecursion};
ghost use Rattle.dns_octets.specs.Parser.{octets_of, place_of};
ghost use Rattle.dns_header.specs.Header.{answer_count, question_count};
ghost use Rattle.zone_records.specs.Record as spec;
ghost use Rattle.zone_receive.specs.Asked.{asked_of};
ghost use Rattle.zone_records.specs.Records.{AreOctets, IsRecordOf};
ghost use Rattle.zone_core.specs.Transfer.{AsksAgain, CountsAnswers, HasAnswerHeader};
ghost use Rattle.zone_receive.specs.Receiving.{IsOpen, IsMessageFault, IsRecordFault};
ghost use Rattle.zone_receive.specs.FrameBuffer.{HoldsFront, IsFaultOr, TakesMessage, TakesRecord};

use crate::error::ReceiveError;
use crate::owned_query::OwnedQuery;
use crate::question::is_question_of;
use crate::record::parse_record;
use crate::rules::{RecordRole, judge_record};
use dns_message::{Header, HeaderCounts};
use dns_name::{Opcode, Parser, Rcode};
use zone_core::question::{HEADER_OCTETS, parse_question};
use zone_records::record_list::RecordList;

/// Judges a message that follows others with these records, and adds its own to them. Returns true if it has the last
/// SOA, which is not added. Fails with the first rule that the message breaks, or if out of memory.
pub(crate) fn judge_message(
    query: &OwnedQuery,
    is_first: bool,
    message: &[u8],
    records: &mut RecordList,
) -> Result<bool, ReceiveError>
    requires lawful { IsOpen (asked_of query.now) records.old }
    requires known { AllByRecursion (IsRecordOf query.now.class) records.old }
    ensures ok { IfOk result (TakesMessage (asked_of query.now) records.old is_first message.now
        records.new) }
    ensures known { OnOk result (AllByRecursion (IsRecordOf query.now.class) records.new) }
    ensures err { IfErr result (IsFaultOr (IsMessageFault (asked_of query.now) records.old is_first message.now)) }
{
    check_header(query, message)?;
    let Some(start) = question_end(query, is_first, message) else {
        return Err(ReceiveError::Question);
    };
    let mut parser = Parser::from_ref(message);
    let Ok(()) = parser.seek(start) else {
        unreachable!();
    };
    let mut closed = false;
    for _ in 0..answers_in(message) {
        closed = take_record(query, &mut parser, records, closed)?;
    }
    if parser.remaining() != 0 {
        return Err(ReceiveError::Trailing);
    }
    Ok(closed)
}

/// Fails with the first broken rule if a message's header is not that of an answer to the query.
fn check_header(query: &OwnedQuery, message: &[u8]) -> Result<(), ReceiveError>
    ensures ok { OnOk result (HasAnswerHeader (asked_of query.now) message.now) }
    ensures err { IfErr result (λ error. (front : List spec.Record) (first : Bool) → IsMessageFault (asked_of query.now) front first message.now error) }
{
    if message.len() < HEADER_OCTETS {
        return Err(ReceiveError::Short);
    }
    let header = Header::for_message_slice(message);
    if header.id() != query.id {
        return Err(ReceiveError::Id);
    }
    if !header.qr() {
        return Err(ReceiveError::NotResponse);
    }
    if header.opcode() != Opcode::QUERY {
        return Err(ReceiveError::Opcode);
    }
    if header.rcode() != Rcode::NOERROR {
        return Err(ReceiveError::Rcode(header.rcode().to_int()));
    }
    if !counts_answers(message) {
        return Err(ReceiveError::Counts);
    }
    Ok(())
}

/// Returns the number of questions that a message counts.
fn questions_in(message: &[u8]) -> u16
    requires { 12 ≤ length message.now }
    ensures { result ≡ question_count message.now }
{
    HeaderCounts::for_message_slice(message).qdcount()
}

/// Returns the number of answers that a message counts.
fn answers_in(message: &[u8]) -> u16
    requires { 12 ≤ length message.now }
    ensures { result ≡ answer_count message.now }
{
    HeaderCounts::for_message_slice(message).ancount()
}

/// Returns whether a message counts at most one question, and no records but answers.
fn counts_answers(message: &[u8]) -> bool
    requires { 12 ≤ length message.now }
    ensures { IsTrue result ↔ CountsAnswers message.now }
{
    let counts = HeaderCounts::for_message_slice(message);
    counts.qdcount() <= 1 && counts.nscount() == 0 && counts.arcount() == 0
}

/// Returns the place after the message's question, which has to be the query's. If the message has no question and is
/// not the first, returns the place after the header. Otherwise returns None.
fn question_end(query: &OwnedQuery, is_first: bool, message: &[u8]) -> Option<usize>
    requires header { HasAnswerHeader (asked_of query.now) message.now }
    ensures some { IfSome result (AsksAgain (asked_of query.now) is_first message.now) }
    ensures within { IfSome result (λ place. place ≤ length message.now) }
    ensures none { IfNone result ((place : ℕ) → AsksAgain (asked_of query.now) is_first message.now place → ⊥) }
{
    if questions_in(message) == 0 {
        return if is_first { None } else { Some(HEADER_OCTETS) };
    }
    let Ok((question, end)) = parse_question(message) else {
        return None;
    };
    if is_question_of(&question, query) {
        Some(end)
    } else {
        None
    }
}

/// Parses the next record, adds it to those before it, and checks it against the rules. The last SOA is not added.
/// `closed`: whether the closing SOA was read; returns the new value. Fails with the first rule that the record breaks,
/// or if out of memory.
fn take_record(
    query: &OwnedQuery,
    parser: &mut Parser<'_>,
    records: &mut RecordList,
    closed: bool,
) -> Result<bool, ReceiveError>
    requires octets { AreOctets (octets_of parser.old) }
    requires holds { (front : List spec.Record) × HoldsFront (asked_of query.now) records.old closed front }
    requires known { AllByRecursion (IsRecordOf query.now.class) records.old }
    ensures ok { IfOk result (λ ends. (front : List spec.Record) → HoldsFront (asked_of query.now) records.old closed front
        → TakesRecord (asked_of query.now) (octets_of parser.old) (place_of parser.old) (place_of parser.new) records.new ends front) }
    ensures same { OnOk result (octets_of parser.new ≡ octets_of parser.old) }
    ensures known { OnOk result (AllByRecursion (IsRecordOf query.now.class) records.new) }
    ensures err { IfErr result (IsFaultOr (λ error. (front : List spec.Record)
        → HoldsFront (asked_of query.now) records.old closed front
        → IsRecordFault (asked_of query.now) front (octets_of parser.old) (place_of parser.old) error)) }
{
    let number = records.len() + usize::from(closed) + 1;
    let Ok(next) = parse_record(parser) else {
        return Err(ReceiveError::Record(number));
    };
    // The rules are those of the record as it is held, with every name written out.
    records.push_from_message(&next)?;
    match judge_record(query, records, closed, number)? {
        RecordRole::Inner => Ok(false),
        RecordRole::Last => {
            records.pop();
            Ok(true)
        }
    }
}
