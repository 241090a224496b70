//! Arguments that are names, and answers of several values.
use dns_name::{
    AppendError, Label, Name, ParseError, ParsedName, Parser, RelativeName, RelativeNameError,
};
use rows::{Answer, RowError};
use std::error::Error;

/// Returns the absolute name of these octets.
pub fn flat(octets: &[u8]) -> Result<Name<&[u8]>, RowError> {
    match Name::from_slice(octets) {
        Ok(name) => Ok(name),
        Err(_) => Err(RowError::BadWord),
    }
}

/// Returns the relative name of these octets.
pub fn relative(octets: &[u8]) -> Result<RelativeName<&[u8]>, RowError> {
    match RelativeName::from_slice(octets) {
        Ok(name) => Ok(name),
        Err(_) => Err(RowError::BadWord),
    }
}

/// Returns a parser of a message, at a place.
pub fn parser_at(message: &[u8], place: usize) -> Result<Parser<'_>, RowError> {
    let mut parser = Parser::from_ref(message);
    match parser.seek(place) {
        Ok(()) => Ok(parser),
        Err(_) => Err(RowError::BadWord),
    }
}

/// Returns the name at a place of a message.
pub fn parsed(message: &[u8], place: usize) -> Result<ParsedName<&[u8]>, RowError> {
    match ParsedName::parse_ref(&mut parser_at(message, place)?) {
        Ok(name) => Ok(name),
        Err(_) => Err(RowError::BadWord),
    }
}

/// Writes the octets of a label, or that there is none.
pub fn write_label(label: Option<Label<'_>>, out: &mut Answer) -> Result<(), RowError> {
    match label {
        Some(label) => out.octets(label.as_slice()),
        None => out.shown(&"none"),
    }
}

/// Writes octets, or that there are none.
pub fn write_octets(octets: Option<&[u8]>, out: &mut Answer) -> Result<(), RowError> {
    match octets {
        Some(octets) => out.octets(octets),
        None => out.shown(&"none"),
    }
}

/// Writes a vector, or why there is none.
pub fn write_vec<E: Error>(made: Result<Vec<u8>, E>, out: &mut Answer) -> Result<(), RowError> {
    match made {
        Ok(octets) => out.octets(octets.as_slice()),
        Err(error) => out.refused(&error),
    }
}

/// Writes what a target holds after an append, or why nothing was appended.
pub fn write_target(
    appended: Result<(), AppendError>,
    target: &Vec<u8>,
    out: &mut Answer,
) -> Result<(), RowError> {
    match appended {
        Ok(()) => out.octets(target.as_slice()),
        Err(error) => out.refused(&error),
    }
}

/// Writes why octets cannot be parsed: they end too early, or their form is wrong.
pub fn write_unread(error: ParseError, out: &mut Answer) -> Result<(), RowError> {
    match error {
        ParseError::ShortInput => out.refused(&error),
        ParseError::Form(_) => {
            out.shown(&"refused Form")?;
            out.shown(&error)
        }
    }
}
