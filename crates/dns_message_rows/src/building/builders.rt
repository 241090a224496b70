//! Messages that are built section by section (RFC 1035 4.1).
use crate::building::opts::OptRow;
use crate::building::records::{name_of, record_of, record_of_octets};
use crate::building::stage::Stage;
use crate::building::targets::write_octets;
use dns_builder::MessageBuilder;
use dns_compress::{HashCompressor, StaticCompressor, StreamTarget, TreeCompressor};
use dns_name::{Composer, Rtype};
use rows::{Answer, Row, RowError};
use std::alloc::Global;

/// Builds a message over a stream target, plain or with a compressor, and writes its octets.
pub fn build(alloc: Global, row: &mut Row<'_>, out: &mut Answer) -> Result<(), RowError> {
    let Ok(stream) = StreamTarget::new_vec(alloc) else {
        return Err(RowError::OutOfMemory);
    };
    match row.word()? {
        "plain" => build_over(alloc, stream, row, out),
        "static" => build_over(alloc, StaticCompressor::new(stream), row, out),
        "tree" => build_over(alloc, TreeCompressor::new(alloc, stream), row, out),
        "hash" => build_over(alloc, HashCompressor::new(alloc, stream), row, out),
        _ => Err(RowError::BadWord),
    }
}

/// Takes the steps that are left, and writes the octets of the message.
fn build_over<Target: Composer + Drop>(
    alloc: Global,
    target: Target,
    row: &mut Row<'_>,
    out: &mut Answer,
) -> Result<(), RowError> {
    let Ok(builder) = MessageBuilder::from_target(target) else {
        return Err(RowError::OutOfMemory);
    };
    let mut stage = Stage::Start(builder);
    for _ in 0..u32::MAX {
        if !row.has_step(out) {
            break;
        }
        let step = row.word()?;
        match step {
            "builder" | "question" | "answer" | "authority" | "additional" => {
                stage = stage.go_to(step)?;
            }
            _ => take_step(alloc, &mut stage, step, row, out)?,
        }
    }
    write_octets(stage.finish().octets(), out)
}

/// Takes a step within the section.
fn take_step<Target: Composer + Drop>(
    alloc: Global,
    stage: &mut Stage<Target>,
    step: &str,
    row: &mut Row<'_>,
    out: &mut Answer,
) -> Result<(), RowError> {
    let pushed = match step {
        "header" => return stage.set_header(row.octets(alloc)?.as_slice()),
        "limit" => return stage.set_push_limit(row.value()?),
        "rewind" => return stage.rewind(),
        "ask" => stage.push_question((name_of(alloc, row)?, row.value::<Rtype>()?))?,
        "opt" => stage.push_opt(&OptRow::read(alloc, row)?)?,
        "octets" => stage.push_record(record_of_octets(alloc, row)?)?,
        "record" => stage.push_record(record_of(alloc, row)?)?,
        _ => return Err(RowError::BadWord),
    };
    match pushed {
        Ok(()) => Ok(()),
        Err(error) => out.refused(&error),
    }
}
