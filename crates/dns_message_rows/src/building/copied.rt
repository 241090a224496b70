//! Records that are copied from a message into a builder (RFC 1035 4.1).
use dns_builder::{AnswerBuilder, MessageBuilder};
use dns_name::{ParsedName, Rtype};
use dns_rdata::ZoneRecordData;
use dns_sections::Message;
use rows::{Answer, Row, RowError};
use std::alloc::Global;

/// Copies the CNAME records of a message into the sections of a builder over a vector, with a push limit. Writes the
/// octets, or why a push fails.
pub fn copy_cnames(alloc: Global, row: &mut Row<'_>, out: &mut Answer) -> Result<(), RowError> {
    let builder = answer_builder(alloc, row)?;
    let octets = row.octets(alloc)?;
    let Ok(message) = Message::from_slice(octets.as_slice()) else {
        return Err(RowError::BadWord);
    };
    let copied = message.copy_records(builder, |record| {
        if record.rtype() != Rtype::CNAME {
            return None;
        }
        record
            .into_any_record::<ZoneRecordData<&[u8], ParsedName<&[u8]>>>()
            .ok()
    });
    match copied {
        Ok(additional) => out.octets(additional.as_slice()),
        Err(error) => out.refused(&error),
    }
}

/// Returns a builder over a vector in the answer section, with a push limit.
fn answer_builder(alloc: Global, row: &mut Row<'_>) -> Result<AnswerBuilder<Vec<u8>>, RowError> {
    let Ok(mut builder) = MessageBuilder::new_vec(alloc) else {
        return Err(RowError::OutOfMemory);
    };
    builder.set_push_limit(row.value()?);
    Ok(builder.answer())
}
