//! Parsers of octets.
use dns_name::{Parser, ShortInput};
use rows::{Answer, Row, RowError};
use std::alloc::Global;
use std::fmt::Debug;

/// Answers `Parser::from_ref` of octets and the calls that follow, each with its argument: an answer each.
pub fn answer(alloc: Global, row: &mut Row<'_>, out: &mut Answer) -> Result<(), RowError> {
    if row.method() != "from_ref" {
        return Err(RowError::UnknownCall);
    }
    let octets = row.octets(alloc)?;
    let mut parser = Parser::from_ref(octets.as_slice());
    for _ in 0..100 {
        if !row.has_more() {
            break;
        }
        answer_step(&mut parser, row, out)?;
    }
    Ok(())
}

fn answer_step(
    parser: &mut Parser<'_>,
    row: &mut Row<'_>,
    out: &mut Answer,
) -> Result<(), RowError> {
    match row.word()? {
        "peek" => write_part(parser.peek(row.value()?), out),
        "peek_all" => out.octets(parser.peek_all()),
        "as_slice" => out.octets(parser.as_slice()),
        "pos" => out.shown(&parser.pos()),
        "len" => out.shown(&parser.len()),
        "remaining" => out.shown(&parser.remaining()),
        "seek" => write_number(parser.seek(row.value()?), out),
        "advance" => write_number(parser.advance(row.value()?), out),
        "advance_to_end" => {
            parser.advance_to_end();
            Ok(())
        }
        "parse_u8" => write_number(parser.parse_u8(), out),
        "parse_u16_be" => write_number(parser.parse_u16_be(), out),
        "parse_u32_be" => write_number(parser.parse_u32_be(), out),
        "parse_octets" => write_part(parser.parse_octets(row.value()?), out),
        "parse_buf" => parse_two(parser, out),
        "parse_parser" => parse_parser(parser, row.value()?, out),
        _ => Err(RowError::UnknownCall),
    }
}

fn write_part(part: Result<&[u8], ShortInput>, out: &mut Answer) -> Result<(), RowError> {
    match part {
        Ok(octets) => out.octets(octets),
        Err(error) => out.refused(&error),
    }
}

/// Writes a number, or `()`, or that the octets are too short.
fn write_number<T: Debug + Drop>(
    number: Result<T, ShortInput>,
    out: &mut Answer,
) -> Result<(), RowError> {
    match number {
        Ok(number) => out.named(&number),
        Err(error) => out.refused(&error),
    }
}

/// Answers `parse_buf` into two octets: the result and these octets.
fn parse_two(parser: &mut Parser<'_>, out: &mut Answer) -> Result<(), RowError> {
    let mut buf = [0u8; 2];
    write_number(parser.parse_buf(&mut buf), out)?;
    out.octets(&buf)
}

/// Answers `parse_parser`: the place and the end of the new parser, and the octets left to it.
fn parse_parser(parser: &mut Parser<'_>, len: usize, out: &mut Answer) -> Result<(), RowError> {
    match parser.parse_parser(len) {
        Ok(inner) => {
            out.shown(&inner.pos())?;
            out.shown(&inner.len())?;
            out.octets(inner.peek_all())
        }
        Err(error) => out.refused(&error),
    }
}
