//! Character strings (RFC 1035 3.3 and 5.1).
use crate::scans::{done_or, string_or};
use dns_name::{CanonicalOrd, Compose, OctetsBuilder, Parser};
use dns_text::{CharStr, CharStrBuilder};
use rows::{Answer, Row, RowError};
use std::alloc::Global;
use std::hash::{DefaultHasher, Hash, Hasher};

pub fn answer(alloc: Global, row: &mut Row<'_>, out: &mut Answer) -> Result<(), RowError> {
    if row.call() == "CharStr::from_str" {
        let text = row.text(alloc)?;
        return string_or(out, CharStr::<Vec<u8>>::from_str(alloc, text.as_str()));
    }
    let octets = row.octets(alloc)?;
    match row.call() {
        "CharStr::parse" => {
            let mut parser = Parser::from_ref(octets.as_slice());
            string_or(out, CharStr::parse(&mut parser))?;
            out.shown(&parser.pos())
        }
        "CharStr::skip" => {
            let mut parser = Parser::from_ref(octets.as_slice());
            done_or(out, CharStr::skip(&mut parser))?;
            out.shown(&parser.pos())
        }
        "CharStr::eq" | "CharStr::cmp" | "CharStr::partial_cmp" | "CharStr::canonical_cmp" => {
            answer_pair(octets, row.octets(alloc)?, row.call(), out)
        }
        _ => match CharStr::from_slice(octets.as_slice()) {
            Ok(string) => answer_string(alloc, &string, row.call(), out),
            Err(error) => out.refused(&error),
        },
    }
}

/// Answers a method of a string.
fn answer_string(
    alloc: Global,
    string: &CharStr<&[u8]>,
    call: &str,
    out: &mut Answer,
) -> Result<(), RowError> {
    match call {
        "CharStr::from_slice" => out.octets(string.as_slice()),
        "CharStr::len" => out.shown(&string.len()),
        "CharStr::is_empty" => out.shown(&string.is_empty()),
        "CharStr::display" => out.shown(string),
        "CharStr::display_quoted" => out.shown(&string.display_quoted()),
        "CharStr::display_unquoted" => out.shown(&string.display_unquoted()),
        "CharStr::iter" => {
            for octet in string.iter() {
                out.shown(&octet)?;
            }
            Ok(())
        }
        "CharStr::compose" => {
            let mut target = Vec::new(alloc);
            done_or(out, string.compose(&mut target))?;
            out.octets(target.as_slice())
        }
        _ => Err(RowError::UnknownCall),
    }
}

/// Answers a comparison of two strings; for `eq` also whether they have the same hash.
fn answer_pair(one: Vec<u8>, other: Vec<u8>, call: &str, out: &mut Answer) -> Result<(), RowError> {
    let (Ok(one), Ok(other)) = (CharStr::from_octets(one), CharStr::from_octets(other)) else {
        return Err(RowError::BadWord);
    };
    match call {
        "CharStr::eq" => {
            out.shown(&(one == other))?;
            out.shown(&(hashed(&one) == hashed(&other)))
        }
        "CharStr::cmp" => out.named(&one.cmp(&other)),
        "CharStr::partial_cmp" => out.named(&one.partial_cmp(&other)),
        _ => out.named(&one.canonical_cmp(&other)),
    }
}

fn hashed(string: &CharStr<Vec<u8>>) -> u64 {
    let mut state = DefaultHasher::new();
    string.hash(&mut state);
    state.finish()
}

/// Makes a builder, and answers each append to it and the finished string.
pub fn answer_builder(alloc: Global, row: &mut Row<'_>, out: &mut Answer) -> Result<(), RowError> {
    if row.method() == "with_capacity" {
        return match CharStrBuilder::with_capacity(alloc, row.value()?) {
            Ok(builder) => append_all(alloc, builder, row, out),
            Err(error) => {
                row.leave_rest();
                out.refused(&error)
            }
        };
    }
    match CharStrBuilder::from_builder(row.octets(alloc)?) {
        Ok(builder) => append_all(alloc, builder, row, out),
        Err(error) => out.refused(&error),
    }
}

/// Answers each append to a builder, and writes the finished string.
fn append_all(
    alloc: Global,
    mut builder: CharStrBuilder<Vec<u8>>,
    row: &mut Row<'_>,
    out: &mut Answer,
) -> Result<(), RowError> {
    for _ in 0..u32::MAX {
        if !row.has_step(out) {
            break;
        }
        let octets = row.octets(alloc)?;
        done_or(out, builder.append_slice(octets.as_slice()))?;
    }
    out.shown(&builder.len())?;
    out.octets(builder.finish().as_slice())
}
