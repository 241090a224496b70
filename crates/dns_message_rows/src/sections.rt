//! The counts, and the twelve octets of a message's header (RFC 1035 4.1.1, RFC 2136 2.2).
use dns_message::{Header, HeaderCounts, HeaderSection};
use dns_name::{Compose, Parser};
use rows::{Answer, Row, RowError};
use std::alloc::Global;

pub fn answer(alloc: Global, row: &mut Row<'_>, out: &mut Answer) -> Result<(), RowError> {
    let octets = row.octets(alloc)?;
    if row.call() == "HeaderSection::parse" {
        let mut parser = Parser::from_ref(octets.as_slice());
        match HeaderSection::parse(&mut parser) {
            Ok(section) => out.octets(section.as_slice())?,
            Err(error) => out.refused(&error)?,
        }
        return out.shown(&parser.pos());
    }
    if octets.len() < 12 {
        return Err(RowError::BadWord);
    }
    if row.family() == "HeaderCounts" {
        let counts = HeaderCounts::for_message_slice(octets.as_slice());
        return answer_counts(counts, row, out);
    }
    let mut section = HeaderSection::for_message_slice(octets.as_slice());
    match row.call() {
        "HeaderSection::for_message_slice" => {}
        "HeaderSection::header" => return out.octets(section.header().as_slice()),
        "HeaderSection::counts" => return out.octets(section.counts().as_slice()),
        "HeaderSection::set_header" => section.set_header(Header::new()),
        "HeaderSection::set_counts" => section.set_counts(HeaderCounts::new()),
        "HeaderSection::compose" => {
            let mut target = Vec::new(alloc);
            return match section.compose(&mut target) {
                Ok(()) => out.octets(target.as_slice()),
                Err(error) => out.refused(&error),
            };
        }
        _ => return Err(RowError::UnknownCall),
    }
    out.octets(section.as_slice())
}

/// Answers a call of counts: all counts under both their names, or the octets after a call has changed them.
fn answer_counts(
    mut counts: HeaderCounts,
    row: &mut Row<'_>,
    out: &mut Answer,
) -> Result<(), RowError> {
    if row.call() == "HeaderCounts::for_message_slice" {
        return under_both_names(counts, out);
    }
    if row.call().starts_with("HeaderCounts::set") {
        set(row.call(), &mut counts, row.value()?)?;
        return out.octets(counts.as_slice());
    }
    let outcome = match row.call() {
        "HeaderCounts::inc_qdcount" => counts.inc_qdcount(),
        "HeaderCounts::inc_ancount" => counts.inc_ancount(),
        "HeaderCounts::inc_nscount" => counts.inc_nscount(),
        "HeaderCounts::inc_arcount" => counts.inc_arcount(),
        _ => {
            decrease(row.call(), &mut counts)?;
            Ok(())
        }
    };
    if let Err(error) = outcome {
        out.refused(&error)?;
    }
    out.octets(counts.as_slice())
}

/// Writes the counts under their names in queries, and under their names in updates.
fn under_both_names(counts: HeaderCounts, out: &mut Answer) -> Result<(), RowError> {
    let numbers = [
        counts.qdcount(),
        counts.ancount(),
        counts.nscount(),
        counts.arcount(),
        counts.zocount(),
        counts.prcount(),
        counts.upcount(),
        counts.adcount(),
    ];
    for number in numbers {
        out.shown(&number)?;
    }
    Ok(())
}

/// Sets the count that a call names.
fn set(call: &str, counts: &mut HeaderCounts, value: u16) -> Result<(), RowError> {
    match call {
        "HeaderCounts::set_qdcount" => counts.set_qdcount(value),
        "HeaderCounts::set_ancount" => counts.set_ancount(value),
        "HeaderCounts::set_nscount" => counts.set_nscount(value),
        "HeaderCounts::set_arcount" => counts.set_arcount(value),
        "HeaderCounts::set_zocount" => counts.set_zocount(value),
        "HeaderCounts::set_prcount" => counts.set_prcount(value),
        "HeaderCounts::set_upcount" => counts.set_upcount(value),
        "HeaderCounts::set_adcount" => counts.set_adcount(value),
        _ => return Err(RowError::UnknownCall),
    }
    Ok(())
}

/// Subtracts one from the count that a call names, which must not be 0.
fn decrease(call: &str, counts: &mut HeaderCounts) -> Result<(), RowError> {
    match call {
        "HeaderCounts::dec_qdcount" if counts.qdcount() > 0 => counts.dec_qdcount(),
        "HeaderCounts::dec_ancount" if counts.ancount() > 0 => counts.dec_ancount(),
        "HeaderCounts::dec_nscount" if counts.nscount() > 0 => counts.dec_nscount(),
        "HeaderCounts::dec_arcount" if counts.arcount() > 0 => counts.dec_arcount(),
        _ => return Err(RowError::UnknownCall),
    }
    Ok(())
}
