//! Data of any type: parsed, composed, converted, printed and compared.
use crate::further_data::text;
use dns_name::{
    CanonicalOrd, ComposeRecordData, FlattenInto, OctetsFrom, ParseRecordData, Parser, RecordData,
};
use dns_rdata_more::FurtherData;
use dns_rr_data::DataType;
use dns_text::{DisplayKind, ZonefileFmt};
use rows::{Answer, Row, RowError};
use std::alloc::Global;
use std::error::Error;
use std::hash::{DefaultHasher, Hash, Hasher};

/// Data over octets that are lent.
type Lent<'a, T> = FurtherData<T, &'a [u8]>;

/// Data that owns its octets.
pub type Owned<T> = FurtherData<T, Vec<u8>>;

/// Writes the octets of data, or why there is none.
pub fn octets_or<T: DataType + Drop, E: Error + Drop>(
    data: Result<Owned<T>, E>,
    out: &mut Answer,
) -> Result<(), RowError> {
    match data {
        Ok(data) => out.octets(data.as_octets().as_slice()),
        Err(error) => out.refused(&error),
    }
}

/// Answers a call that data of each type has.
pub fn answer<T: DataType + Drop>(
    alloc: Global,
    row: &mut Row<'_>,
    out: &mut Answer,
) -> Result<(), RowError> {
    match row.method() {
        "scan" => text::answer_scan::<T>(alloc, row, out),
        "round" => text::answer_round::<T>(alloc, row, out),
        "parse" => answer_parse::<T>(alloc, row, out),
        "parse_rdata" => answer_taken::<T>(alloc, row, out),
        "eq" | "cmp" | "partial_cmp" | "canonical_cmp" => answer_pair::<T>(alloc, row, out),
        _ => answer_one::<T>(alloc, row, out),
    }
}

/// Answers a method of data whose octets the row gives, or why these are none.
fn answer_one<T: DataType + Drop>(
    alloc: Global,
    row: &mut Row<'_>,
    out: &mut Answer,
) -> Result<(), RowError> {
    let octets = row.octets(alloc)?;
    let data: Lent<'_, T> = match FurtherData::from_octets(octets.as_slice()) {
        Ok(data) => data,
        Err(error) => return out.refused(&error),
    };
    match row.method() {
        "from_octets" => out.octets(data.into_octets()),
        "flatten_into" => octets_or::<T, _>(data.flatten_into(alloc), out),
        "try_octets_from" => octets_or::<T, _>(Owned::try_octets_from(alloc, data), out),
        "rdlen" => out.named(&data.rdlen(false)),
        "rtype" => out.shown(&data.rtype()),
        "Simple" => show(alloc, &data, DisplayKind::Simple, out),
        "Tabbed" => show(alloc, &data, DisplayKind::Tabbed, out),
        "Multiline" => show(alloc, &data, DisplayKind::Multiline, out),
        method => composed(alloc, method, &data, out),
    }
}

/// Writes the text of data in a layout, as a literal.
fn show<T: DataType>(
    alloc: Global,
    data: &Lent<'_, T>,
    kind: DisplayKind,
    out: &mut Answer,
) -> Result<(), RowError> {
    out.named(&data.display_zonefile(kind).to_string(alloc)?.as_str())
}

/// Writes the octets that a method of data appends.
fn composed<T: DataType>(
    alloc: Global,
    method: &str,
    data: &Lent<'_, T>,
    out: &mut Answer,
) -> Result<(), RowError> {
    let mut target = Vec::new(alloc);
    let outcome = match method {
        "compose_rdata" => data.compose_rdata(&mut target),
        "compose_canonical_rdata" => data.compose_canonical_rdata(&mut target),
        "compose_len_rdata" => data.compose_len_rdata(&mut target),
        "compose_canonical_len_rdata" => data.compose_canonical_len_rdata(&mut target),
        _ => return Err(RowError::UnknownCall),
    };
    match outcome {
        Ok(()) => out.octets(target.as_slice()),
        Err(error) => out.refused(&error),
    }
}

/// Answers the text of the data that octets are, and the parser's place.
fn answer_parse<T: DataType + Drop>(
    alloc: Global,
    row: &mut Row<'_>,
    out: &mut Answer,
) -> Result<(), RowError> {
    let octets = row.octets(alloc)?;
    let mut parser = Parser::from_ref(octets.as_slice());
    match Lent::<'_, T>::parse(&mut parser) {
        Ok(data) => out.shown(&data)?,
        Err(error) => out.refused(&error)?,
    }
    out.shown(&parser.pos())
}

/// Answers the text of the data at a place of a message, if it is of the type in the row, and the parser's place.
fn answer_taken<T: DataType + Drop>(
    alloc: Global,
    row: &mut Row<'_>,
    out: &mut Answer,
) -> Result<(), RowError> {
    let (rtype, place, message) = (row.value()?, row.value()?, row.octets(alloc)?);
    let mut parser = Parser::from_ref(message.as_slice());
    if parser.advance(place).is_err() {
        return Err(RowError::BadWord);
    }
    match Lent::<'_, T>::parse_rdata(rtype, &mut parser) {
        Ok(Some(data)) => out.shown(&data)?,
        Ok(None) => out.shown(&"None")?,
        Err(error) => out.refused(&error)?,
    }
    out.shown(&parser.pos())
}

/// Returns the hash of data.
fn hashed<T: DataType>(data: &Lent<'_, T>) -> u64 {
    let mut state = DefaultHasher::new();
    data.hash(&mut state);
    state.finish()
}

/// Answers how two data compare; for `eq` also whether they have the same hash.
fn answer_pair<T: DataType + Drop>(
    alloc: Global,
    row: &mut Row<'_>,
    out: &mut Answer,
) -> Result<(), RowError> {
    let (one, other) = (row.octets(alloc)?, row.octets(alloc)?);
    let one: Result<Lent<'_, T>, _> = FurtherData::from_octets(one.as_slice());
    let other: Result<Lent<'_, T>, _> = FurtherData::from_octets(other.as_slice());
    let (Ok(one), Ok(other)) = (one, other) else {
        return Err(RowError::BadWord);
    };
    match row.method() {
        "eq" => {
            out.shown(&(one == other))?;
            out.shown(&(hashed(&one) == hashed(&other)))
        }
        "cmp" => out.named(&one.cmp(&other)),
        "partial_cmp" => out.named(&one.partial_cmp(&other)),
        _ => out.named(&one.canonical_cmp(&other)),
    }
}
