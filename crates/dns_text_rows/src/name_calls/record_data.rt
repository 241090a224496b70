//! Unknown data of records, and the lengths of record data.
use crate::name_calls::labels::are_hashed_alike;
use crate::name_calls::read::{parser_at, write_target, write_unread};
use dns_name::{
    ComposeRecordData, LongRecordData, ParseAnyRecordData, ParseRecordData, Parser, RecordData,
    Rtype, UnknownRecordData,
};
use rows::{Answer, Row, RowError};
use std::alloc::Global;

/// A record type and octets are the first arguments of each call.
pub fn answer(alloc: Global, row: &mut Row<'_>, out: &mut Answer) -> Result<(), RowError> {
    let rtype = Rtype::from_int(row.value()?);
    let octets = row.octets(alloc)?;
    match row.method() {
        "parse_rdata" => return parse(rtype, octets.as_slice(), row.value()?, out),
        "parse_any_rdata" => return parse_any(rtype, octets.as_slice(), out),
        _ => {}
    }
    match UnknownRecordData::from_octets(rtype, octets.as_slice()) {
        Ok(rdata) => answer_of(alloc, &rdata, row, out),
        Err(error) => out.refused(&error),
    }
}

/// Writes the length of the data from a place on, and the place after it.
fn parse(rtype: Rtype, octets: &[u8], place: usize, out: &mut Answer) -> Result<(), RowError> {
    let mut parser = parser_at(octets, place)?;
    let found: Result<Option<UnknownRecordData<&[u8]>>, _> = ParseRecordData::parse_rdata(
        rtype,
        &mut parser,
    );
    match found {
        Ok(Some(rdata)) => {
            out.shown(&rdata.rtype())?;
            out.shown(&rdata.data().len())?;
        }
        Ok(None) => out.shown(&"none")?,
        Err(error) => write_unread(error, out)?,
    }
    out.shown(&parser.pos())
}

/// Writes the length of the data.
fn parse_any(rtype: Rtype, octets: &[u8], out: &mut Answer) -> Result<(), RowError> {
    let mut parser = Parser::from_ref(octets);
    let found: Result<UnknownRecordData<&[u8]>, _> = ParseAnyRecordData::parse_any_rdata(
        rtype,
        &mut parser,
    );
    match found {
        Ok(rdata) => out.shown(&rdata.data().len()),
        Err(error) => write_unread(error, out),
    }
}

fn answer_of(
    alloc: Global,
    rdata: &UnknownRecordData<&[u8]>,
    row: &mut Row<'_>,
    out: &mut Answer,
) -> Result<(), RowError> {
    match row.method() {
        "from_octets" => out.shown(&rdata.data().len()),
        "data" => out.octets(rdata.data()),
        "rtype" => out.shown(&rdata.rtype()),
        "rdlen" => out.named(&rdata.rdlen(row.value()?)),
        "to_string" => out.shown(rdata),
        "compose_rdata"
        | "compose_canonical_rdata"
        | "compose_len_rdata"
        | "compose_canonical_len_rdata" => compose(alloc, rdata, row, out),
        _ => {
            let rtype = Rtype::from_int(row.value()?);
            let octets = row.octets(alloc)?;
            match UnknownRecordData::from_octets(rtype, octets.as_slice()) {
                Ok(other) => compare(rdata, &other, row, out),
                Err(_) => Err(RowError::BadWord),
            }
        }
    }
}

fn compose(
    alloc: Global,
    rdata: &UnknownRecordData<&[u8]>,
    row: &Row<'_>,
    out: &mut Answer,
) -> Result<(), RowError> {
    let mut target = Vec::new(alloc);
    let appended = match row.method() {
        "compose_rdata" => rdata.compose_rdata(&mut target),
        "compose_canonical_rdata" => rdata.compose_canonical_rdata(&mut target),
        "compose_len_rdata" => rdata.compose_len_rdata(&mut target),
        _ => rdata.compose_canonical_len_rdata(&mut target),
    };
    write_target(appended, &target, out)
}

fn compare(
    rdata: &UnknownRecordData<&[u8]>,
    other: &UnknownRecordData<&[u8]>,
    row: &Row<'_>,
    out: &mut Answer,
) -> Result<(), RowError> {
    match row.method() {
        "eq" => out.shown(&(*rdata == *other)),
        "cmp" => out.named(&rdata.cmp(other)),
        "partial_cmp" => out.named(&rdata.partial_cmp(other)),
        "hash" => out.shown(&are_hashed_alike(rdata, other)),
        method => crate::name_calls::values::compare(method, rdata, other, out),
    }
}

/// Answers calls of lengths: a length that record data may have, or one that is too long.
pub fn answer_lengths(row: &mut Row<'_>, out: &mut Answer) -> Result<(), RowError> {
    let len: usize = row.value()?;
    let checked = match row.method() {
        "check_len" => LongRecordData::check_len(len),
        "check_append_len" => LongRecordData::check_append_len(len, row.value()?),
        "check_multi_len" => LongRecordData::check_multi_len(&[len, row.value()?, row.value()?]),
        _ => return Err(RowError::UnknownCall),
    };
    match checked {
        Ok(()) => out.shown(&"ok"),
        Err(error) => {
            out.refused(&error)?;
            out.shown(&error.as_str())
        }
    }
}
