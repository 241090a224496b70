//! Documents in the three layouts (RFC 1035 5.1).
use dns_name::{
    Chain, Class, Name, ParsedName, Parser, RelativeName, Rtype, Serial, Ttl, UnknownRecordData,
};
use dns_text::{DisplayKind, ZonefileFmt};
use rows::{Answer, Row, RowError};
use std::alloc::Global;

/// Returns the layout of this name.
fn kind_of(word: &str) -> Result<DisplayKind, RowError> {
    match word {
        "Simple" => Ok(DisplayKind::Simple),
        "Tabbed" => Ok(DisplayKind::Tabbed),
        "Multiline" => Ok(DisplayKind::Multiline),
        _ => Err(RowError::BadWord),
    }
}

/// Writes the text of a value in a layout, as a literal.
fn show<T: ZonefileFmt + Drop>(
    alloc: Global,
    kind: DisplayKind,
    value: T,
    out: &mut Answer,
) -> Result<(), RowError> {
    let text = value.display_zonefile(kind).to_string(alloc)?;
    out.named(&text.as_str())
}

pub fn answer(alloc: Global, row: &mut Row<'_>, out: &mut Answer) -> Result<(), RowError> {
    let kind = kind_of(row.word()?)?;
    match row.word()? {
        "Serial" => show(alloc, kind, Serial(row.value()?), out),
        "Ttl" => show(alloc, kind, Ttl::from_secs(row.value()?), out),
        "Rtype" => show(alloc, kind, Rtype::from_int(row.value()?), out),
        "Class" => show(alloc, kind, Class::from_int(row.value()?), out),
        "UnknownRecordData" => {
            let rtype = Rtype::from_int(row.value()?);
            match UnknownRecordData::from_octets(rtype, row.octets(alloc)?) {
                Ok(rdata) => show(alloc, kind, rdata, out),
                Err(error) => out.refused(&error),
            }
        }
        word => answer_name(word, kind, alloc, row, out),
    }
}

/// Answers a call for the text of a name.
fn answer_name(
    word: &str,
    kind: DisplayKind,
    alloc: Global,
    row: &mut Row<'_>,
    out: &mut Answer,
) -> Result<(), RowError> {
    let octets = row.octets(alloc)?;
    match word {
        "Name" => match Name::from_slice(octets.as_slice()) {
            Ok(name) => show(alloc, kind, name, out),
            Err(error) => out.refused(&error),
        },
        "ParsedName" => match ParsedName::parse(&mut Parser::from_ref(octets.as_slice())) {
            Ok(name) => show(alloc, kind, name, out),
            Err(error) => out.refused(&error),
        },
        "Chain" => {
            let suffix = row.octets(alloc)?;
            match (
                RelativeName::from_slice(octets.as_slice()),
                Name::from_slice(suffix.as_slice()),
            ) {
                (Ok(front), Ok(suffix)) => match Chain::new(front, suffix) {
                    Ok(chain) => show(alloc, kind, chain, out),
                    Err(error) => out.refused(&error),
                },
                _ => Err(RowError::BadWord),
            }
        }
        _ => Err(RowError::UnknownCall),
    }
}
