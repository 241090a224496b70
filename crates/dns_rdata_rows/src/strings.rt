//! TXT data: its strings, and how they are built (RFC 1035 3.3.14).
use dns_rdata::{Txt, TxtAppendError, TxtBuilder};
use dns_text::{CharStr, IterScanner};
use rows::{Answer, Row, RowError};
use std::alloc::Global;

/// Answers a call of TXT data, whose octets are the argument. If a long text is cut into strings, writes their lengths.
pub fn answer(alloc: Global, row: &mut Row<'_>, out: &mut Answer) -> Result<(), RowError> {
    if row.call() == "Txt::scan" {
        return scanned(alloc, row, out);
    }
    let octets = row.octets(alloc)?;
    if row.call() == "Txt::build_from_slice" {
        return match Txt::<Vec<u8>>::build_from_slice(alloc, octets.as_slice()) {
            Ok(txt) => lengths(&txt, out),
            Err(error) => out.refused(&error),
        };
    }
    let txt = match Txt::from_octets(octets.as_slice()) {
        Ok(txt) => txt,
        Err(error) => return out.refused(&error),
    };
    match row.call() {
        "Txt::from_octets" | "Txt::len" => out.shown(&txt.len()),
        "Txt::iter" => {
            for string in txt.iter() {
                out.octets(string)?;
            }
            Ok(())
        }
        "Txt::iter_charstrs" => {
            for string in txt.iter_charstrs() {
                out.shown(&string.display_quoted())?;
            }
            Ok(())
        }
        "Txt::as_flat_slice" => match txt.as_flat_slice() {
            Some(octets) => out.octets(octets),
            None => out.shown(&"None"),
        },
        "Txt::text" => match txt.text::<Vec<u8>>(alloc) {
            Ok(text) => out.octets(text.as_slice()),
            Err(error) => out.refused(&error),
        },
        _ => Err(RowError::UnknownCall),
    }
}

/// Answers how many octets the data takes that is scanned from `count` words of `len` octets each.
fn scanned(alloc: Global, row: &mut Row<'_>, out: &mut Answer) -> Result<(), RowError> {
    let (count, len): (u16, u16) = (row.value()?, row.value()?);
    let mut words = String::new(alloc);
    for _ in 0..count {
        for _ in 0..len {
            words.push('a')?;
        }
        words.push('\n')?;
    }
    let mut scanner = IterScanner::new(alloc, words.as_str().lines())?;
    match Txt::scan(&mut scanner) {
        Ok(txt) => out.shown(&txt.len()),
        Err(error) => out.refused(&error),
    }
}

/// Writes the number of octets of the data, and then of each string.
fn lengths(txt: &Txt<Vec<u8>>, out: &mut Answer) -> Result<(), RowError> {
    out.shown(&txt.len())?;
    for string in txt.iter() {
        out.shown(&string.len())?;
    }
    Ok(())
}

/// Writes that a call succeeds, or why it fails.
fn outcome(out: &mut Answer, outcome: Result<(), TxtAppendError>) -> Result<(), RowError> {
    match outcome {
        Ok(()) => out.shown(&"ok"),
        Err(error) => out.refused(&error),
    }
}

/// Answers each call of a builder, and at the end the number of octets of the data and of each string.
pub fn answer_builder(alloc: Global, row: &mut Row<'_>, out: &mut Answer) -> Result<(), RowError> {
    let mut builder = TxtBuilder::new_vec(alloc);
    for _ in 0..u32::MAX {
        if !row.has_step(out) {
            break;
        }
        match row.word()? {
            "append_slice" => {
                let octets = row.octets(alloc)?;
                outcome(out, builder.append_slice(octets.as_slice()))?;
            }
            "append_u8" => outcome(out, builder.append_u8(row.value()?))?,
            "append_charstr" => {
                let octets = row.octets(alloc)?;
                let Ok(string) = CharStr::from_slice(octets.as_slice()) else {
                    return Err(RowError::BadWord);
                };
                outcome(out, builder.append_charstr(&string))?;
            }
            "close_charstr" => builder.close_charstr(),
            _ => return Err(RowError::UnknownCall),
        }
    }
    match builder.finish() {
        Ok(txt) => lengths(&txt, out),
        Err(error) => out.refused(&error),
    }
}
