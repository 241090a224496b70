//! The start of answers to a query (RFC 1035 4.1.1).
use dns_builder::MessageBuilder;
use dns_name::Rcode;
use dns_sections::Message;
use rows::{Answer, Row, RowError};
use std::alloc::Global;

/// Starts an answer. Writes its octets, or why a question does not fit.
pub fn start_answer(alloc: Global, row: &mut Row<'_>, out: &mut Answer) -> Result<(), RowError> {
    let builder = builder_of(alloc, row)?;
    let query = query_of(alloc, row)?;
    match builder.start_answer(&query, Rcode::masked_from_int(row.value()?)) {
        Ok(answer) => out.octets(answer.as_slice()),
        Err(error) => out.refused(&error),
    }
}

/// Starts an answer that may be an error. Writes its octets.
pub fn start_error(alloc: Global, row: &mut Row<'_>, out: &mut Answer) -> Result<(), RowError> {
    let builder = builder_of(alloc, row)?;
    let query = query_of(alloc, row)?;
    out.octets(
        builder
            .start_error(&query, Rcode::masked_from_int(row.value()?))
            .as_slice(),
    )
}

/// Returns a builder over a vector, with a push limit.
fn builder_of(alloc: Global, row: &mut Row<'_>) -> Result<MessageBuilder<Vec<u8>>, RowError> {
    let Ok(mut builder) = MessageBuilder::new_vec(alloc) else {
        return Err(RowError::OutOfMemory);
    };
    builder.set_push_limit(row.value()?);
    Ok(builder)
}

/// Returns the query of these octets.
fn query_of(alloc: Global, row: &mut Row<'_>) -> Result<Message<Vec<u8>>, RowError> {
    match Message::from_octets(row.octets(alloc)?) {
        Ok(message) => Ok(message),
        Err(_) => Err(RowError::BadWord),
    }
}
