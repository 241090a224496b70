//! Names that are built label by label.
use crate::name_calls::read::{flat, parsed, relative};
use crate::name_calls::text::symbols;
use arrayvec::ArrayVec;
use dns_name::{EmptyBuilder, Name, NameBuilder, PushNameError, WriteOctets};
use rows::{Answer, Row, RowError};
use std::alloc::Global;
use std::error::Error;

/// Makes a builder and then the calls that follow, each with its argument. Writes the error of each call that fails,
/// and the octets at the end.
pub fn answer(alloc: Global, row: &mut Row<'_>, out: &mut Answer) -> Result<(), RowError> {
    match row.method() {
        "new_vec" => build(alloc, NameBuilder::new_vec(alloc), row, out),
        "new_in_4" => build(alloc, NameBuilder::<ArrayVec<u8, 4>>::new(alloc), row, out),
        "vec_with_capacity" => match NameBuilder::vec_with_capacity(alloc, row.value()?) {
            Ok(name) => build(alloc, name, row, out),
            Err(error) => {
                row.leave_rest();
                out.refused(&error)
            }
        },
        "from_builder" => match NameBuilder::from_builder(row.octets(alloc)?) {
            Ok(name) => build(alloc, name, row, out),
            Err(error) => out.refused(&error),
        },
        "finish" | "into_name" | "append_origin" => finish(alloc, row, out),
        _ => Err(RowError::UnknownCall),
    }
}

/// Makes the calls of a row, up to its end.
fn build<B: WriteOctets + Drop>(
    alloc: Global,
    mut name: NameBuilder<B>,
    row: &mut Row<'_>,
    out: &mut Answer,
) -> Result<(), RowError> {
    for _ in 0..300 {
        if !row.has_step(out) {
            break;
        }
        answer_step(alloc, &mut name, row, out)?;
    }
    out.octets(name.as_slice())
}

fn answer_step<B: WriteOctets>(
    alloc: Global,
    name: &mut NameBuilder<B>,
    row: &mut Row<'_>,
    out: &mut Answer,
) -> Result<(), RowError> {
    match row.word()? {
        "push" => push_all(name, row.octets(alloc)?.as_slice(), out),
        "append_slice" => write_error(name.append_slice(row.octets(alloc)?.as_slice()), out),
        "append_label" => write_error(name.append_label(row.octets(alloc)?.as_slice()), out),
        "append_dec_u8_label" => write_error(name.append_dec_u8_label(row.value()?), out),
        "append_hex_digit_label" => write_error(name.append_hex_digit_label(row.value()?), out),
        "append_name" => {
            let octets = row.octets(alloc)?;
            write_error(name.append_name(&relative(octets.as_slice())?), out)
        }
        "append_chars" => write_error(name.append_chars(row.text(alloc)?.chars()), out),
        "append_symbols" => {
            let symbols = symbols(alloc, row)?;
            write_error(name.append_symbols(symbols.as_slice().iter().copied()), out)
        }
        "end_label" => {
            name.end_label();
            Ok(())
        }
        "len" => out.shown(&name.len()),
        "is_empty" => out.shown(&name.is_empty()),
        "in_label" => out.shown(&name.in_label()),
        _ => Err(RowError::UnknownCall),
    }
}

/// Pushes octets up to the first that fails.
fn push_all<B: WriteOctets>(
    name: &mut NameBuilder<B>,
    octets: &[u8],
    out: &mut Answer,
) -> Result<(), RowError> {
    for octet in octets {
        if let Err(error) = name.push(*octet) {
            return out.refused(&error);
        }
    }
    Ok(())
}

/// Writes the error of a call, if it failed.
fn write_error<E: Error>(made: Result<(), E>, out: &mut Answer) -> Result<(), RowError> {
    match made {
        Ok(()) => Ok(()),
        Err(error) => out.refused(&error),
    }
}

/// Writes the name of finished labels: alone, and then built further; before the root; or before an origin.
fn finish(alloc: Global, row: &mut Row<'_>, out: &mut Answer) -> Result<(), RowError> {
    let name = match NameBuilder::from_builder(row.octets(alloc)?) {
        Ok(name) => name,
        Err(error) => return out.refused(&error),
    };
    if row.method() == "finish" {
        let relative = name.finish();
        out.octets(relative.as_slice())?;
        return build(alloc, relative.into_builder(), row, out);
    }
    if row.method() == "into_name" {
        return write_name(name.into_name(), out);
    }
    let octets = row.octets(alloc)?;
    if row.has_more() {
        let origin = parsed(octets.as_slice(), row.value()?)?;
        return write_name(name.append_origin(&origin), out);
    }
    write_name(name.append_origin(&flat(octets.as_slice())?), out)
}

fn write_name(
    made: Result<Name<Vec<u8>>, PushNameError>,
    out: &mut Answer,
) -> Result<(), RowError> {
    match made {
        Ok(name) => out.octets(name.as_slice()),
        Err(error) => out.refused(&error),
    }
}
