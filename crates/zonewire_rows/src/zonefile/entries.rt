//! Readers that are given a text and asked for entries, step by step.
use dns_name::{AppendError, Class, ComposeRecordData, Name, ToName};
use dns_zonefile::{ComposedEntry, Entry, Error, ScannedRecord, Zonefile};
use rows::{Answer, Row, RowError};
use std::alloc::Global;
use std::fmt::Display;

/// Answers steps of a reader without a text.
pub fn answer(alloc: Global, row: &mut Row<'_>, out: &mut Answer) -> Result<(), RowError> {
    let mut zonefile = Zonefile::new(alloc);
    take_steps(alloc, &mut zonefile, row, out)
}

/// Answers steps of a reader with room for a text.
pub fn answer_with_capacity(
    alloc: Global,
    row: &mut Row<'_>,
    out: &mut Answer,
) -> Result<(), RowError> {
    match Zonefile::with_capacity(alloc, row.value()?) {
        Ok(mut zonefile) => take_steps(alloc, &mut zonefile, row, out),
        Err(error) => {
            row.leave_rest();
            out.refused(&error)
        }
    }
}

/// Answers steps of a reader of a text.
pub fn answer_of_text(alloc: Global, row: &mut Row<'_>, out: &mut Answer) -> Result<(), RowError> {
    let mut zonefile = Zonefile::from_vec(alloc, row.text_octets(alloc)?);
    take_steps(alloc, &mut zonefile, row, out)
}

/// Answers how many entries a text has that is repeated a number of times. Entries without a class are of class IN.
pub fn answer_count(alloc: Global, row: &mut Row<'_>, out: &mut Answer) -> Result<(), RowError> {
    let mut zonefile = repeated(alloc, row)?;
    match read_to_end(&mut zonefile) {
        Ok(()) => out.shown(&zonefile.entry_number()),
        Err(error) => out.refused(&error),
    }
}

/// Answers how many octets the records of such a text take.
pub fn answer_count_octets(
    alloc: Global,
    row: &mut Row<'_>,
    out: &mut Answer,
) -> Result<(), RowError> {
    let mut zonefile = repeated(alloc, row)?;
    let mut octets = Vec::new(alloc);
    match append_to_end(&mut zonefile, &mut octets) {
        Ok(()) => out.shown(&octets.len()),
        Err(error) => out.refused(&error),
    }
}

/// Returns a reader of a text that is repeated a number of times.
fn repeated(alloc: Global, row: &mut Row<'_>) -> Result<Zonefile, RowError> {
    let count: u32 = row.value()?;
    let once = row.text_octets(alloc)?;
    let mut text = Vec::new(alloc);
    for _ in 0..count {
        text.extend_from_slice(once.as_slice())?;
    }
    let mut zonefile = Zonefile::from_vec(alloc, text);
    zonefile.set_default_class(Class::IN);
    Ok(zonefile)
}

/// Answers the octets of a text's records one after another, up to the end or to an error. Entries without a class are
/// of class IN. The includes come before the octets, and so does the error.
pub fn answer_octets(alloc: Global, row: &mut Row<'_>, out: &mut Answer) -> Result<(), RowError> {
    let mut zonefile = Zonefile::from_vec(alloc, row.text_octets(alloc)?);
    zonefile.set_default_class(Class::IN);
    let mut octets = Vec::new(alloc);
    for _ in 0..u32::MAX {
        if !appends_one(alloc, &mut zonefile, &mut octets, out)? {
            break;
        }
    }
    out.octets(octets.as_slice())
}

/// Appends the octets of the next entry, and returns whether there is one. Writes an include, and why there is no
/// entry.
fn appends_one(
    alloc: Global,
    zonefile: &mut Zonefile,
    octets: &mut Vec<u8>,
    out: &mut Answer,
) -> Result<bool, RowError> {
    match zonefile.next_octets(octets) {
        Ok(Some(ComposedEntry::Record { .. })) => Ok(true),
        Ok(Some(ComposedEntry::Include(file))) => {
            show_include(alloc, file.path.as_str(), file.origin.as_ref(), out)?;
            Ok(true)
        }
        Ok(None) => Ok(false),
        Err(error) => {
            out.refused(&error)?;
            Ok(false)
        }
    }
}

/// Reads the entries that are left.
fn read_to_end(zonefile: &mut Zonefile) -> Result<(), Error> {
    for _ in 0..u32::MAX {
        if !reads_one(zonefile)? {
            break;
        }
    }
    Ok(())
}

/// Reads the next entry, and returns whether there is one.
fn reads_one(zonefile: &mut Zonefile) -> Result<bool, Error> {
    Ok(zonefile.next_entry()?.is_some())
}

/// Appends the octets of the records that are left.
fn append_to_end(zonefile: &mut Zonefile, octets: &mut Vec<u8>) -> Result<(), Error> {
    for _ in 0..u32::MAX {
        if !appends_next(zonefile, octets)? {
            break;
        }
    }
    Ok(())
}

/// Appends the octets of the next record, and returns whether there is an entry.
fn appends_next(zonefile: &mut Zonefile, octets: &mut Vec<u8>) -> Result<bool, Error> {
    Ok(zonefile.next_octets(octets)?.is_some())
}

/// Takes the steps named by the words of a row.
fn take_steps(
    alloc: Global,
    zonefile: &mut Zonefile,
    row: &mut Row<'_>,
    out: &mut Answer,
) -> Result<(), RowError> {
    for _ in 0..u32::MAX {
        if !row.has_step(out) {
            return Ok(());
        }
        take_step(alloc, zonefile, row, out)?;
    }
    Ok(())
}

/// Takes a step: `text` and a text, `origin` and octets, `class` and a number, `next`, `pass`, `number`, `place`, `origin-now`,
/// `owner-now`.
fn take_step(
    alloc: Global,
    zonefile: &mut Zonefile,
    row: &mut Row<'_>,
    out: &mut Answer,
) -> Result<(), RowError> {
    match row.word()? {
        "text" => {
            let text = row.text_octets(alloc)?;
            match zonefile.extend_from_slice(text.as_slice()) {
                Ok(()) => Ok(()),
                Err(error) => out.refused(&error),
            }
        }
        "origin" => match Name::from_octets(row.octets(alloc)?) {
            Ok(origin) => {
                zonefile.set_origin(origin);
                Ok(())
            }
            Err(_) => Err(RowError::BadWord),
        },
        "class" => {
            zonefile.set_default_class(Class::from_int(row.value()?));
            Ok(())
        }
        "next" => show_next(alloc, zonefile, out),
        "pass" => match zonefile.pass_over() {
            Ok(()) => Ok(()),
            Err(error) => out.refused(&error),
        },
        "number" => out.shown(&zonefile.entry_number()),
        "place" => out.shown(&zonefile.place()),
        "origin-now" => show_name(zonefile.origin(), out),
        "owner-now" => show_name(zonefile.last_owner().as_ref(), out),
        _ => Err(RowError::BadWord),
    }
}

/// Writes a name, or `none`.
fn show_name<N: Display>(name: Option<&N>, out: &mut Answer) -> Result<(), RowError> {
    match name {
        Some(name) => out.shown(name),
        None => out.shown(&"none"),
    }
}

/// Writes the next entry, `end`, or why there is none.
fn show_next(alloc: Global, zonefile: &mut Zonefile, out: &mut Answer) -> Result<(), RowError> {
    match zonefile.next_entry() {
        Ok(Some(entry)) => show_entry(alloc, &entry, out),
        Ok(None) => out.shown(&"end"),
        Err(error) => out.refused(&error),
    }
}

/// Writes an entry.
fn show_entry(alloc: Global, entry: &Entry, out: &mut Answer) -> Result<(), RowError> {
    match entry {
        Entry::Record(record) => show_record(alloc, record, out),
        Entry::Include { path, origin } => {
            show_include(alloc, path.as_str(), origin.as_ref(), out)
        }
    }
}

/// Writes the path of a file, and its origin if it has one.
fn show_include<N: ToName>(
    alloc: Global,
    path: &str,
    origin: Option<&N>,
    out: &mut Answer,
) -> Result<(), RowError> {
    out.shown(&"include")?;
    out.shown(&path)?;
    match origin {
        Some(origin) => out.octets(origin.to_vec(alloc)?.as_slice()),
        None => Ok(()),
    }
}

/// Writes a record: its owner, TTL, class and type, and the octets of its data.
fn show_record(alloc: Global, record: &ScannedRecord, out: &mut Answer) -> Result<(), RowError> {
    let owner = record.owner().to_vec(alloc)?;
    out.shown(&owner)?;
    out.shown(&record.ttl().as_secs())?;
    out.shown(&record.class())?;
    out.shown(&record.rtype())?;
    let mut target = Vec::new(alloc);
    match record.data().compose_rdata(&mut target) {
        Ok(()) => out.octets(target.as_slice()),
        Err(AppendError::OutOfMemory) => Err(RowError::OutOfMemory),
        Err(error) => out.refused(&error),
    }
}
