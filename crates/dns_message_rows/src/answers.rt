//! What messages answer, and their EDNS records (RFC 1035 4.1, RFC 6891 6.1).
use crate::messages::asked;
use crate::options::options;
use dns_message::{Message, OptRecord};
use dns_rdata::A;
use rows::{Answer, Row, RowError};
use std::alloc::Global;

/// Answers a call of a message that is already parsed.
pub fn answer(
    alloc: Global,
    message: &Message<&[u8]>,
    row: &mut Row<'_>,
    out: &mut Answer,
) -> Result<(), RowError> {
    match row.method() {
        "sole_question" => match message.sole_question() {
            Ok(question) => asked(&question, out),
            Err(error) => out.refused(&error),
        },
        "is_answer" => is_answer(alloc, message, row, out),
        "contains_answer" => out.shown(&message.contains_answer::<A>()),
        "canonical_name" => match message.canonical_name() {
            Some(name) => out.shown(&name),
            None => out.shown(&"None"),
        },
        "opt" => match message.opt() {
            Some(opt) => opt_record(&opt, out),
            None => out.shown(&"None"),
        },
        "opt_rcode" => out.shown(&message.opt_rcode().to_int()),
        _ => Err(RowError::UnknownCall),
    }
}

/// Answers whether the message answers a query.
fn is_answer(
    alloc: Global,
    message: &Message<&[u8]>,
    row: &mut Row<'_>,
    out: &mut Answer,
) -> Result<(), RowError> {
    let octets = row.octets(alloc)?;
    match Message::from_slice(octets.as_slice()) {
        Ok(query) => out.shown(&message.is_answer(&query)),
        Err(error) => out.refused(&error),
    }
}

/// Writes the UDP payload size, the version, DO and the options.
fn opt_record(found: &OptRecord<&[u8]>, out: &mut Answer) -> Result<(), RowError> {
    out.shown(&found.udp_payload_size())?;
    out.shown(&found.version())?;
    out.shown(&found.dnssec_ok())?;
    options(found.opt(), out)
}
