//! Messages, and what the cursors over their sections return (RFC 1035 4.1).
use crate::answers;
use crate::copied_messages::copy_records;
use crate::parsed::record_or;
use dns_message::{Message, ParsedRecord, Question, RecordSection, Section};
use dns_name::{ParseError, ParsedName};
use dns_rdata::A;
use rows::{Answer, Row, RowError};
use std::alloc::Global;

pub fn answer(alloc: Global, row: &mut Row<'_>, out: &mut Answer) -> Result<(), RowError> {
    let octets = row.octets(alloc)?;
    let message = match Message::from_slice(octets.as_slice()) {
        Ok(message) => message,
        Err(error) => return out.refused(&error),
    };
    match row.method() {
        "from_slice" => views(&message, out),
        "question" | "zone" => questions(&message, out),
        "answer" | "prerequisite" => heads(message.answer(), out),
        "authority" | "update" => heads(message.authority(), out),
        "additional" => heads(message.additional(), out),
        "iter" => all_heads(&message, out),
        "records" => records(message.answer(), out),
        "limit_to" => addresses(message.answer(), false, out),
        "limit_to_in" => addresses(message.answer(), true, out),
        "sections" => sections(&message, out),
        "next_section" => next_section(&message, row.value()?, out),
        "copy_records" => copy_records(alloc, &message, row, out),
        _ => answers::answer(alloc, &message, row, out),
    }
}

/// Writes the values of the header and the first question.
fn views(message: &Message<&[u8]>, out: &mut Answer) -> Result<(), RowError> {
    out.octets(message.header_section().as_slice())?;
    out.shown(&message.no_error())?;
    out.shown(&message.is_error())?;
    out.shown(&message.is_xfr())?;
    match message.first_question() {
        Some(question) => asked(&question, out),
        None => out.shown(&"None"),
    }
}

/// Writes a question.
pub fn asked(question: &Question<ParsedName<&[u8]>>, out: &mut Answer) -> Result<(), RowError> {
    out.shown(question.qname())?;
    out.shown(&question.qtype())?;
    out.shown(&question.qclass())
}

/// Writes the questions that a cursor returns, and the place after them.
fn questions(message: &Message<&[u8]>, out: &mut Answer) -> Result<(), RowError> {
    let mut section = message.question();
    while let Some(question) = section.next() {
        match question {
            Ok(question) => asked(&question, out)?,
            Err(error) => out.refused(&error)?,
        }
    }
    out.shown(&section.pos())
}

/// Writes the owner, the type and the length of a record.
fn head(record: &ParsedRecord<'_>, out: &mut Answer) -> Result<(), RowError> {
    out.shown(&record.owner())?;
    out.shown(&record.rtype())?;
    out.shown(&record.rdlen())
}

/// Writes the same for each record that a cursor returns, and the place after them.
fn heads(section: Result<RecordSection<'_>, ParseError>, out: &mut Answer) -> Result<(), RowError> {
    let mut section = match section {
        Ok(section) => section,
        Err(error) => return out.refused(&error),
    };
    while let Some(record) = section.next() {
        match record {
            Ok(record) => head(&record, out)?,
            Err(error) => out.refused(&error)?,
        }
    }
    out.shown(&section.pos())
}

/// Writes the same for all records, each after its section, and then `end`.
fn all_heads(message: &Message<&[u8]>, out: &mut Answer) -> Result<(), RowError> {
    for item in message.iter() {
        match item {
            Ok((record, section)) => {
                out.named(&section)?;
                head(&record, out)?;
            }
            Err(error) => out.refused(&error)?,
        }
    }
    out.shown(&"end")
}

/// Writes the records of a section as in a zone file.
fn records(
    section: Result<RecordSection<'_>, ParseError>,
    out: &mut Answer,
) -> Result<(), RowError> {
    let mut section = match section {
        Ok(section) => section,
        Err(error) => return out.refused(&error),
    };
    while let Some(record) = section.next() {
        match record {
            Ok(record) => record_or(out, record.into_any_record())?,
            Err(error) => out.refused(&error)?,
        }
    }
    Ok(())
}

/// Writes the addresses of a section, of class IN or of any class, and then `end`.
fn addresses(
    section: Result<RecordSection<'_>, ParseError>,
    in_only: bool,
    out: &mut Answer,
) -> Result<(), RowError> {
    let section = match section {
        Ok(section) => section,
        Err(error) => return out.refused(&error),
    };
    let records = if in_only {
        section.limit_to_in::<A>()
    } else {
        section.limit_to::<A>()
    };
    for record in records {
        match record {
            Ok(record) => out.shown(record.data())?,
            Err(error) => out.refused(&error)?,
        }
    }
    out.shown(&"end")
}

/// Writes the questions of a message, and then the records of each section as in a zone file, after its name.
fn sections(message: &Message<&[u8]>, out: &mut Answer) -> Result<(), RowError> {
    let (_, answer, authority, additional) = match message.sections() {
        Ok(all) => all,
        Err(error) => return out.refused(&error),
    };
    questions(message, out)?;
    out.named(&Section::Answer)?;
    records(Ok(answer), out)?;
    out.named(&Section::Authority)?;
    records(Ok(authority), out)?;
    out.named(&Section::Additional)?;
    records(Ok(additional), out)
}

/// Reads `count` records of the answer section, and writes the place where the next section begins.
fn next_section(message: &Message<&[u8]>, count: u16, out: &mut Answer) -> Result<(), RowError> {
    let mut section = match message.answer() {
        Ok(section) => section,
        Err(error) => return out.refused(&error),
    };
    for _ in 0..count {
        if let Some(Err(error)) = section.next() {
            out.refused(&error)?;
        }
    }
    match section.next_section() {
        Ok(Some(section)) => out.shown(&section.pos()),
        Ok(None) => out.shown(&"None"),
        Err(error) => out.refused(&error),
    }
}
