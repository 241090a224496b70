//! Messages after their length, with a compressor or with names in full (RFC 1035 4.1.4, 4.2.2).
ghost use Rattle.std.specs.Prelude.{◌≡◌, IfOk};
ghost use Rattle.dns_name.specs.Spelling.{static_spelling, tree_spelling, hash_spelling};
ghost use Rattle.dns_header.specs.Written.{parts_of};
ghost use Rattle.dns_builder.specs.Built.{built_page, nothing_built};
ghost use Rattle.dns_builder.specs.Steps.{going_to, with_item};

use crate::building::records::{name_of, record_of};
use crate::building::targets::write_octets;
use dns_builder::MessageBuilder;
use dns_compress::{HashCompressor, StaticCompressor, StreamTarget, TreeCompressor};
use dns_header::ComposeRecord;
use dns_name::{Composer, Octets, Rtype};
use dns_sections::PushError;
use rows::{Answer, Row, RowError};
use std::alloc::Global;

/// Pushes questions into a message over a stream target, and writes the length and the message.
pub fn new_stream_vec(alloc: Global, row: &mut Row<'_>, out: &mut Answer) -> Result<(), RowError> {
    let Ok(builder) = MessageBuilder::new_stream_vec(alloc) else {
        return Err(RowError::OutOfMemory);
    };
    let mut builder = builder.question();
    for _ in 0..u32::MAX {
        if !row.has_step(out) {
            break;
        }
        if let Err(error) = builder.push((name_of(alloc, row)?, row.value::<Rtype>()?)) {
            out.refused(&error)?;
        }
    }
    write_octets(builder.finish().as_stream_slice(), out)
}

/// Pushes two answers over a compressor of a stream target of a vector, and writes the length and the message.
pub fn two_answers(alloc: Global, row: &mut Row<'_>, out: &mut Answer) -> Result<(), RowError> {
    match row.word()? {
        "static" => two_over_static(alloc, row, out),
        "tree" => two_over_tree(alloc, row, out),
        "hash" => two_over_hash(alloc, row, out),
        _ => Err(RowError::BadWord),
    }
}

/// Pushes two answers over a `StaticCompressor`.
fn two_over_static(alloc: Global, row: &mut Row<'_>, out: &mut Answer) -> Result<(), RowError> {
    let first = record_of(alloc, row)?;
    let second = record_of(alloc, row)?;
    write_stream(over_static(alloc, first, second), out)
}

/// Pushes two answers over a `TreeCompressor`.
fn two_over_tree(alloc: Global, row: &mut Row<'_>, out: &mut Answer) -> Result<(), RowError> {
    let first = record_of(alloc, row)?;
    let second = record_of(alloc, row)?;
    write_stream(over_tree(alloc, first, second), out)
}

/// Pushes two answers over a `HashCompressor`.
fn two_over_hash(alloc: Global, row: &mut Row<'_>, out: &mut Answer) -> Result<(), RowError> {
    let first = record_of(alloc, row)?;
    let second = record_of(alloc, row)?;
    write_stream(over_hash(alloc, first, second), out)
}

/// Writes the length and the message, or why a push failed.
fn write_stream(
    stream: Result<StreamTarget<Vec<u8>>, PushError>,
    out: &mut Answer,
) -> Result<(), RowError> {
    match stream {
        Ok(stream) => write_octets(stream.as_stream_slice(), out),
        Err(error) => out.refused(&error),
    }
}

/// Builds a message of two answers over a `StaticCompressor`.
fn over_static<R: ComposeRecord + Drop>(
    alloc: Global,
    first: R,
    second: R,
) -> Result<StreamTarget<Vec<u8>>, PushError>
    ensures { IfOk result (λ stream. ⟦<StreamTarget<Vec<u8>> as Octets>⟧.list stream ≡ (built_page static_spelling
        (with_item (with_item (going_to 2 nothing_built) (parts_of (R.written first))) (parts_of (R.written second)))).octets) }
{
    let stream = StreamTarget::new_vec(alloc)?;
    let compressor = StaticCompressor::new(stream);
    Ok(answered_by(compressor, first, second)?.into_target())
}

/// Builds a message of two answers over a `TreeCompressor`.
fn over_tree<R: ComposeRecord + Drop>(
    alloc: Global,
    first: R,
    second: R,
) -> Result<StreamTarget<Vec<u8>>, PushError>
    ensures { IfOk result (λ stream. ⟦<StreamTarget<Vec<u8>> as Octets>⟧.list stream ≡ (built_page tree_spelling
        (with_item (with_item (going_to 2 nothing_built) (parts_of (R.written first))) (parts_of (R.written second)))).octets) }
{
    let stream = StreamTarget::new_vec(alloc)?;
    let compressor = TreeCompressor::new(alloc, stream);
    Ok(answered_by(compressor, first, second)?.into_target())
}

/// Builds a message of two answers over a `HashCompressor`.
fn over_hash<R: ComposeRecord + Drop>(
    alloc: Global,
    first: R,
    second: R,
) -> Result<StreamTarget<Vec<u8>>, PushError>
    ensures { IfOk result (λ stream. ⟦<StreamTarget<Vec<u8>> as Octets>⟧.list stream ≡ (built_page hash_spelling
        (with_item (with_item (going_to 2 nothing_built) (parts_of (R.written first))) (parts_of (R.written second)))).octets) }
{
    let stream = StreamTarget::new_vec(alloc)?;
    let compressor = HashCompressor::new(alloc, stream);
    Ok(answered_by(compressor, first, second)?.into_target())
}

/// Builds a message of two answers, and returns its target.
fn answered_by<Target: Composer + Drop, R: ComposeRecord + Drop>(
    target: Target,
    first: R,
    second: R,
) -> Result<Target, PushError>
    ensures { IfOk result (λ built. Target.list built ≡ (built_page Target.spelling
        (with_item (with_item (going_to 2 nothing_built) (parts_of (R.written first))) (parts_of (R.written second)))).octets) }
{
    let mut builder = MessageBuilder::from_target(target)?.answer();
    builder.push(first)?;
    builder.push(second)?;
    Ok(builder.finish())
}
