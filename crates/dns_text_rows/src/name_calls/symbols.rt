//! Symbols of text.
use dns_name::{BadSymbol, Symbol, Symbols};
use rows::{Answer, Row, RowError};
use std::alloc::Global;
use std::fmt::Debug;

pub fn answer(alloc: Global, row: &mut Row<'_>, out: &mut Answer) -> Result<(), RowError> {
    match row.method() {
        "split_from" => split_from(row.text_octets(alloc)?.as_slice(), out),
        "from_chars" => from_chars(row.text(alloc)?.as_str(), out),
        "from_octet" => out.shown(&Symbol::from_octet(row.value()?)),
        "quoted_from_octet" => out.shown(&Symbol::quoted_from_octet(row.value()?)),
        "display_from_octet" => out.shown(&Symbol::display_from_octet(row.value()?)),
        _ => answer_of(symbol(alloc, row)?, row, out),
    }
}

fn answer_of(symbol: Symbol, row: &mut Row<'_>, out: &mut Answer) -> Result<(), RowError> {
    match row.method() {
        "to_string" => out.shown(&symbol),
        "is_word_char" => out.shown(&symbol.is_word_char()),
        "into_octet" => write_found(symbol.into_octet(), out),
        "into_ascii" => write_found(symbol.into_ascii(), out),
        "into_char" => write_found(symbol.into_char(), out),
        "into_digit" => {
            let base: u32 = row.value()?;
            if !(2..=36).contains(&base) {
                return Err(RowError::BadWord);
            }
            write_found(symbol.into_digit(base), out)
        }
        _ => Err(RowError::UnknownCall),
    }
}

fn write_found<T: Debug + Drop>(
    found: Result<T, BadSymbol>,
    out: &mut Answer,
) -> Result<(), RowError> {
    match found {
        Ok(value) => out.named(&value),
        Err(error) => out.refused(&error),
    }
}

/// Takes a symbol of two words: its kind, and its character or the number of its octet.
pub fn symbol(alloc: Global, row: &mut Row<'_>) -> Result<Symbol, RowError> {
    match row.word()? {
        "Char" => Ok(Symbol::Char(character(row.text(alloc)?.as_str())?)),
        "SimpleEscape" => Ok(Symbol::SimpleEscape(row.value()?)),
        "DecimalEscape" => Ok(Symbol::DecimalEscape(row.value()?)),
        _ => Err(RowError::BadWord),
    }
}

fn character(text: &str) -> Result<char, RowError> {
    match text.chars().next() {
        Some(character) => Ok(character),
        None => Err(RowError::BadWord),
    }
}

/// Writes the symbol at the start of a text, and the number of octets after it.
fn split_from(text: &[u8], out: &mut Answer) -> Result<(), RowError> {
    match Symbol::split_from(text) {
        Some((symbol, rest)) => {
            out.named(&symbol)?;
            out.shown(&rest.len())
        }
        None => out.shown(&"none"),
    }
}

/// Writes each symbol and each error of a text, up to the end.
fn from_chars(text: &str, out: &mut Answer) -> Result<(), RowError> {
    let mut chars = text.chars();
    for _ in 0..100 {
        match Symbol::from_chars(&mut chars) {
            Ok(Some(symbol)) => out.named(&symbol)?,
            Ok(None) => break,
            Err(error) => out.refused(&error)?,
        }
    }
    out.shown(&"end")
}

/// Answers `Symbols::new` of a text: each symbol, and how the iteration ended.
pub fn answer_all(alloc: Global, row: &mut Row<'_>, out: &mut Answer) -> Result<(), RowError> {
    if row.method() != "new" {
        return Err(RowError::UnknownCall);
    }
    let text = row.text(alloc)?;
    let mut symbols = Symbols::new(text.chars());
    for _ in 0..100 {
        match symbols.next() {
            Some(symbol) => out.named(&symbol)?,
            None => break,
        }
    }
    out.named(&symbols.next())?;
    match symbols.ok() {
        Ok(()) => out.shown(&"ok"),
        Err(error) => out.refused(&error),
    }
}
