//! Questions that are pushed until a push fails (RFC 1035 4.1.2).
use arrayvec::ArrayVec;
use dns_builder::{MessageBuilder, QuestionBuilder};
use dns_name::{AppendError, Composer, Name, Rtype};
use rows::{Answer, Row, RowError};
use std::alloc::Global;

/// Pushes questions into a message of at most 100 octets.
pub fn over_array(row: &mut Row<'_>, out: &mut Answer) -> Result<(), RowError> {
    let target: ArrayVec<u8, 100> = ArrayVec::new();
    push_questions(MessageBuilder::from_target(target), row, out)
}

/// Pushes questions into a message over a vector.
pub fn over_vec(alloc: Global, row: &mut Row<'_>, out: &mut Answer) -> Result<(), RowError> {
    push_questions(MessageBuilder::new_vec(alloc), row, out)
}

/// Takes the steps that are left: `limit` and a push limit, or `push` and a number of questions. Then writes the number
/// of questions in the message, and its number of octets.
fn push_questions<Target: Composer + Drop>(
    builder: Result<MessageBuilder<Target>, AppendError>,
    row: &mut Row<'_>,
    out: &mut Answer,
) -> Result<(), RowError> {
    let Ok(builder) = builder else {
        return Err(RowError::OutOfMemory);
    };
    let mut builder = builder.question();
    for _ in 0..u32::MAX {
        if !row.has_step(out) {
            break;
        }
        match row.word()? {
            "limit" => builder.set_push_limit(row.value()?),
            "push" => push_roots(&mut builder, row.value()?, out)?,
            _ => return Err(RowError::BadWord),
        }
    }
    out.shown(&builder.counts().qdcount())?;
    out.shown(&builder.as_slice().len())
}

/// Pushes `count` questions for an address of the root, up to the first push that fails. Writes its error.
fn push_roots<Target: Composer>(
    builder: &mut QuestionBuilder<Target>,
    count: u32,
    out: &mut Answer,
) -> Result<(), RowError> {
    for _ in 0..count {
        if let Err(error) = builder.push((Name::root_slice(), Rtype::A)) {
            return out.refused(&error);
        }
    }
    Ok(())
}
