//! The question of a message, parsed and composed.
ghost use Rattle.std.specs.Prelude.{◌≡◌, ◌≤◌, ◌++◌, ℕ, length, IfOk, OnErr};
ghost use Rattle.dns_name.specs.ParsedName.{labels_of};
ghost use Rattle.dns_header.specs.Question as spec;
ghost use Rattle.dns_header.specs.Question.{ReadsQuestion, question_octets};
ghost use Rattle.dns_header.specs.QuestionParts.{question_of};
ghost use Rattle.zone_core.specs.Query.{one_question, question_for};

use dns_message::laws::counts_are_four_numbers;
use dns_message::{Header, HeaderCounts, Question};
use dns_name::{Class, Name, ParseError, ParsedName, Parser, Rtype};
use std::alloc::{AllocError, Global};

/// The number of octets of a message's header (RFC 1035 4.1.1).
pub const HEADER_OCTETS: usize = 12;

/// Parses the question after the header of a message. Returns it and the place after it, in octets from the start of
/// the message. Fails if no question is there (RFC 1035 4.1.2).
pub fn parse_question(message: &[u8]) -> Result<(Question<ParsedName<&[u8]>>, usize), ParseError>
    requires { 12 ≤ length message.now }
    ensures ok { IfOk result (λ found. ReadsQuestion message.now 12 (question_of labels_of found.0) found.1) }
    ensures err { OnErr result ((q : spec.Question) (next : ℕ) → ReadsQuestion message.now 12 q next → ⊥) }
{
    let mut parser = Parser::from_ref(message);
    parser.seek(HEADER_OCTETS)?;
    match Question::parse(&mut parser) {
        Ok(question) => Ok((question, parser.pos())),
        Err(error) => Err(error),
    }
}

/// Composes a message of this header, the question for the transfer of the zone with this name and class, and no record
/// (RFC 1035 4.1). Returns its octets. Fails if out of memory.
pub fn compose_opening(
    alloc: Global,
    header: Header,
    name: &Name<&[u8]>,
    class: Class,
) -> Result<Vec<u8>, AllocError>
    ensures { IfOk result (λ octets. octets.items ≡ header ++ (one_question ++ question_octets (question_for name.now class))) }
{
    let mut counts = HeaderCounts::new();
    counts.set_qdcount(1);
    // For the proof: the octets of the counts are its four numbers.
    counts_are_four_numbers(counts);
    let mut octets = Vec::with_capacity(alloc, HEADER_OCTETS + name.len() + 4)?;
    octets.extend_from_slice(header.as_slice())?;
    octets.extend_from_slice(counts.as_slice())?;
    match Question::new(name.for_ref(), Rtype::AXFR, class).compose(&mut octets) {
        Ok(()) => Ok(octets),
        Err(_) => Err(AllocError),
    }
}
