//! Zones that are read from text, printed, and written as canonical octets.
use crate::queries::name_of;
use crate::streams::spelling_of;
use dns_name::{Class, Name, RecordData};
use rows::{Answer, Row, RowError};
use std::alloc::Global;
use zonewire::{DisplayKind, Zone, ZoneError, ZoneRecord, send};

/// Answers `Zone::read CLASS TEXT` and `Zone::read CLASS TEXT ORIGIN`: the apex, the class, the number of records that
/// `Zone::count_records` returns, and each record. If the text is not a zone, writes the error, or those of both calls
/// if they differ.
pub fn answer_read(alloc: Global, row: &mut Row<'_>, out: &mut Answer) -> Result<(), RowError> {
    let class = row.value()?;
    let text = row.text_octets(alloc)?;
    let origin = read_origin(alloc, row)?;
    let counted = count_records(alloc, text.as_slice(), class, &origin)?;
    match read_zone(alloc, text.as_slice(), class, &origin) {
        Ok(zone) => {
            out.shown(&zone.apex())?;
            out.shown(&zone.class())?;
            show_count(counted, out)?;
            for record in zone.records() {
                show_record(&record, out)?;
            }
            Ok(())
        }
        Err(error) => {
            if counted != Err(error) {
                show_count(counted, out)?;
            }
            out.refused(&error)
        }
    }
}

/// Takes the origin, if another word is there.
fn read_origin(alloc: Global, row: &mut Row<'_>) -> Result<Option<Name<Vec<u8>>>, RowError> {
    if !row.has_more() {
        return Ok(None);
    }
    Ok(Some(name_of(alloc, row)?))
}

/// Returns the zone of class IN of a text.
pub fn zone_of(alloc: Global, text: &[u8]) -> Result<Zone, RowError> {
    match Zone::read(alloc, text, None, Class::IN) {
        Ok(zone) => Ok(zone),
        Err(ZoneError::OutOfMemory) => Err(RowError::OutOfMemory),
        Err(_) => Err(RowError::BadWord),
    }
}

/// Returns the zone of a text, with the origin if there is one.
fn read_zone(
    alloc: Global,
    text: &[u8],
    class: Class,
    origin: &Option<Name<Vec<u8>>>,
) -> Result<Zone, ZoneError> {
    match origin {
        Some(origin) => Zone::read(alloc, text, Some(&origin.for_ref()), class),
        None => Zone::read(alloc, text, None, class),
    }
}

/// Returns the number of records of that zone.
fn count_records(
    alloc: Global,
    text: &[u8],
    class: Class,
    origin: &Option<Name<Vec<u8>>>,
) -> Result<Result<usize, ZoneError>, RowError> {
    let text = Vec::from_slice(alloc, text)?;
    Ok(match origin {
        Some(origin) => Zone::count_records(alloc, text, Some(&origin.for_ref()), class),
        None => Zone::count_records(alloc, text, None, class),
    })
}

/// Writes the number of records, or why they are not counted.
fn show_count(counted: Result<usize, ZoneError>, out: &mut Answer) -> Result<(), RowError> {
    match counted {
        Ok(count) => out.shown(&count),
        Err(error) => out.refused(&error),
    }
}

/// Writes the owner, TTL, class and type of a record, and the octets of its data.
fn show_record(record: &ZoneRecord<'_>, out: &mut Answer) -> Result<(), RowError> {
    out.shown(&record.owner())?;
    out.shown(&record.ttl().as_secs())?;
    out.shown(&record.class())?;
    out.shown(&record.rtype())?;
    out.octets(record.data())
}

/// Answers `ZoneRecord::parse_data CLASS TEXT`: the type of each record, and its data once it is parsed.
pub fn answer_parse_data(
    alloc: Global,
    row: &mut Row<'_>,
    out: &mut Answer,
) -> Result<(), RowError> {
    let class = row.value()?;
    let text = row.text_octets(alloc)?;
    match Zone::read(alloc, text.as_slice(), None, class) {
        Ok(zone) => {
            for record in zone.records() {
                let data = record.parse_data();
                out.shown(&data.rtype())?;
                out.shown(&data)?;
            }
            Ok(())
        }
        Err(error) => out.refused(&error),
    }
}

/// Answers `Zone::print CLASS TEXT` and `Zone::print CLASS TEXT LAYOUT`: the printed text of the zone of the text.
pub fn answer_print(alloc: Global, row: &mut Row<'_>, out: &mut Answer) -> Result<(), RowError> {
    let class = row.value()?;
    let text = row.text_octets(alloc)?;
    let kind = read_layout(row)?;
    match Zone::read(alloc, text.as_slice(), None, class) {
        Ok(zone) => out.text(zone.print(alloc, kind)?.as_slice()),
        Err(error) => out.refused(&error),
    }
}

/// Takes the layout, if another word is there.
fn read_layout(row: &mut Row<'_>) -> Result<DisplayKind, RowError> {
    if !row.has_more() {
        return Ok(DisplayKind::Simple);
    }
    match row.word()? {
        "Simple" => Ok(DisplayKind::Simple),
        "Tabbed" => Ok(DisplayKind::Tabbed),
        "Multiline" => Ok(DisplayKind::Multiline),
        _ => Err(RowError::BadWord),
    }
}

/// Answers `Zone::canonical CLASS TEXT`: the canonical octets of the zone of the text.
pub fn answer_canonical(
    alloc: Global,
    row: &mut Row<'_>,
    out: &mut Answer,
) -> Result<(), RowError> {
    let class = row.value()?;
    let text = row.text_octets(alloc)?;
    match Zone::read(alloc, text.as_slice(), None, class) {
        Ok(zone) => out.octets(zone.canonical(alloc)?.as_slice()),
        Err(error) => out.refused(&error),
    }
}

/// Answers `Zone::asked CLASS TEXT STEP..`: what the zone of the text gives in each step, `print LAYOUT`, `canonical` or
/// `send QUERY MAX SPELLING`.
pub fn answer_asked(alloc: Global, row: &mut Row<'_>, out: &mut Answer) -> Result<(), RowError> {
    let class = row.value()?;
    let text = row.text_octets(alloc)?;
    match Zone::read(alloc, text.as_slice(), None, class) {
        Ok(zone) => answer_steps(alloc, &zone, row, out),
        Err(error) => {
            row.leave_rest();
            out.refused(&error)
        }
    }
}

/// Answers the steps that are left.
fn answer_steps(
    alloc: Global,
    zone: &Zone,
    row: &mut Row<'_>,
    out: &mut Answer,
) -> Result<(), RowError> {
    for _ in 0..u32::MAX {
        if !row.has_step(out) {
            break;
        }
        match row.word()? {
            "print" => match zone.print(alloc, read_layout(row)?) {
                Ok(text) => out.text(text.as_slice())?,
                Err(error) => out.refused(&error)?,
            },
            "canonical" => match zone.canonical(alloc) {
                Ok(octets) => out.octets(octets.as_slice())?,
                Err(error) => out.refused(&error)?,
            },
            "send" => answer_sent(alloc, zone, row, out)?,
            _ => return Err(RowError::BadWord),
        }
    }
    Ok(())
}

/// Answers a step `send QUERY MAX SPELLING`.
fn answer_sent(
    alloc: Global,
    zone: &Zone,
    row: &mut Row<'_>,
    out: &mut Answer,
) -> Result<(), RowError> {
    let query = row.octets(alloc)?;
    let max = row.value()?;
    match send(
        alloc,
        zone,
        query.as_slice(),
        max,
        spelling_of(row.word()?)?,
    ) {
        Ok(stream) => out.octets(stream.as_slice()),
        Err(error) => out.refused(&error),
    }
}
