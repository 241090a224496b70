//! Targets that names and octets are appended to (RFC 1035 4.1.4, 4.2.2).
use crate::building::records::name_of_text;
use dns_compress::{HashCompressor, StaticCompressor, StreamTarget, TreeCompressor};
use dns_name::Composer;
use rows::{Answer, Row, RowError};
use std::alloc::Global;

/// Appends to a vector, plain or with a compressor.
pub fn append_to_compressor(
    alloc: Global,
    row: &mut Row<'_>,
    out: &mut Answer,
) -> Result<(), RowError> {
    let vec: Vec<u8> = Vec::new(alloc);
    match row.word()? {
        "plain" => append_and_write(alloc, vec, row, out),
        "static" => append_and_write(alloc, StaticCompressor::new(vec), row, out),
        "tree" => append_and_write(alloc, TreeCompressor::new(alloc, vec), row, out),
        "hash" => append_and_write(alloc, HashCompressor::new(alloc, vec), row, out),
        _ => Err(RowError::BadWord),
    }
}

/// Appends to a target, and writes its octets.
fn append_and_write<Target: Composer + Drop>(
    alloc: Global,
    mut target: Target,
    row: &mut Row<'_>,
    out: &mut Answer,
) -> Result<(), RowError> {
    append_all(alloc, &mut target, row, out)?;
    write_octets(target.octets(), out)
}

/// Appends to a stream target. Writes the two octets of the length and then the message.
pub fn append_to_stream(
    alloc: Global,
    row: &mut Row<'_>,
    out: &mut Answer,
) -> Result<(), RowError> {
    let Ok(mut stream) = StreamTarget::new_vec(alloc) else {
        return Err(RowError::OutOfMemory);
    };
    append_all(alloc, &mut stream, row, out)?;
    if let Some((length, message)) = stream.as_stream_slice().split_at_checked(2) {
        out.octets(length)?;
        write_octets(message, out)?;
    }
    Ok(())
}

/// Takes the steps that are left: `octets` and octets, `truncate` and a length, or a name.
fn append_all<Target: Composer>(
    alloc: Global,
    target: &mut Target,
    row: &mut Row<'_>,
    out: &mut Answer,
) -> Result<(), RowError> {
    for _ in 0..u32::MAX {
        if !row.has_step(out) {
            break;
        }
        let appended = match row.word()? {
            "octets" => target.append_slice(row.octets(alloc)?.as_slice()),
            "truncate" => {
                target.truncate(row.value()?);
                Ok(())
            }
            text => target.append_compressed_name(&name_of_text(alloc, text)?),
        };
        if let Err(error) = appended {
            out.refused(&error)?;
        }
    }
    Ok(())
}

/// Writes the number of octets and the last 48 of them, or all of them if there are at most 120.
pub fn write_octets(octets: &[u8], out: &mut Answer) -> Result<(), RowError> {
    out.shown(&octets.len())?;
    if octets.len() <= 120 {
        return out.octets(octets);
    }
    match octets.last_chunk::<48>() {
        Some(last) => out.octets(last),
        None => Ok(()),
    }
}
