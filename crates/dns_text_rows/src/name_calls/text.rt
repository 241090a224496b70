//! Names from text.
use crate::name_calls::names::octets_of;
use crate::name_calls::read::write_vec;
use crate::name_calls::symbols::symbol;
use dns_name::{Name, SpelledName, Symbol};
use rows::{Answer, Row, RowError};
use std::alloc::Global;

pub fn answer_absolute(alloc: Global, row: &mut Row<'_>, out: &mut Answer) -> Result<(), RowError> {
    let text = row.text(alloc)?;
    let made = match row.method() {
        "vec_from_str" => Name::vec_from_str(alloc, text.as_str()),
        "from_str" => Name::from_str(alloc, text.as_str()),
        "from_chars" => Name::from_chars(alloc, text.chars()),
        _ => Name::absolute_from_text(alloc, text.as_bytes()),
    };
    write_vec(octets_of(made), out)
}

/// Writes the name that symbols spell, each given as two words.
pub fn answer_symbols(alloc: Global, row: &mut Row<'_>, out: &mut Answer) -> Result<(), RowError> {
    let symbols = symbols(alloc, row)?;
    let made = Name::from_symbols(alloc, symbols.as_slice().iter().copied());
    write_vec(octets_of(made), out)
}

/// Takes the symbols up to the end of the row.
pub fn symbols(alloc: Global, row: &mut Row<'_>) -> Result<Vec<Symbol>, RowError> {
    let mut symbols = Vec::new(alloc);
    for _ in 0..300 {
        if !row.has_more() {
            break;
        }
        symbols.push(symbol(alloc, row)?)?;
    }
    Ok(symbols)
}

/// Writes the octets after the name of a text is appended, or why it is not.
pub fn append_absolute(
    mut octets: Vec<u8>,
    alloc: Global,
    row: &mut Row<'_>,
    out: &mut Answer,
) -> Result<(), RowError> {
    let text = row.text_octets(alloc)?;
    if let Err(error) = Name::append_absolute_text(&mut octets, text.as_slice()) {
        out.refused(&error)?;
    }
    out.octets(octets.as_slice())
}

/// Writes which kind of name a text spells, and its octets.
pub fn answer_spelled(alloc: Global, row: &mut Row<'_>, out: &mut Answer) -> Result<(), RowError> {
    if row.method() != "from_chars" {
        return Err(RowError::UnknownCall);
    }
    let text = row.text(alloc)?;
    let spelled: Result<SpelledName<Vec<u8>>, _> = SpelledName::from_chars(alloc, text.chars());
    match spelled {
        Ok(SpelledName::Absolute(name)) => {
            out.shown(&"Absolute")?;
            out.octets(name.as_slice())
        }
        Ok(SpelledName::Relative(name)) => {
            out.shown(&"Relative")?;
            out.octets(name.as_slice())
        }
        Err(error) => out.refused(&error),
    }
}
