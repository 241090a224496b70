//! Questions (RFC 1035 4.1.2).
use crate::parsed::{at_place, name_of};
use crate::records::hash_of;
use dns_message::{Message, Question};
use dns_name::{CanonicalOrd, Name, ToName};
use rows::{Answer, Row, RowError};
use std::alloc::Global;
use std::fmt::Display;

type Owned = Question<Name<Vec<u8>>>;

/// Returns the question of a name, a type and a class.
fn question_of(alloc: Global, row: &mut Row<'_>) -> Result<Owned, RowError> {
    Ok(Question::new(name_of(alloc, row)?, row.value()?, row.value()?))
}

pub fn answer(alloc: Global, row: &mut Row<'_>, out: &mut Answer) -> Result<(), RowError> {
    if row.call() == "Question::parse" || row.call() == "Question::skip" {
        return answer_parser(alloc, row, out);
    }
    if row.call() == "Question::from_str" {
        return answer_text(alloc, row, out);
    }
    let question = question_of(alloc, row)?;
    match row.call() {
        "Question::new" => parts(&question, out),
        "Question::compose" => {
            let mut target = Vec::new(alloc);
            match question.compose(&mut target) {
                Ok(()) => out.octets(target.as_slice()),
                Err(error) => out.refused(&error),
            }
        }
        "Question::fmt" => out.named(&question.to_string(alloc)?.as_str()),
        "Question::eq" => {
            let other = question_of(alloc, row)?;
            out.shown(&(question == other))?;
            out.shown(&(hash_of(&question) == hash_of(&other)))
        }
        "Question::cmp" => out.named(&question.cmp(&question_of(alloc, row)?)),
        "Question::partial_cmp" => out.named(&question.partial_cmp(&question_of(alloc, row)?)),
        "Question::canonical_cmp" => out.named(&question.canonical_cmp(&question_of(alloc, row)?)),
        _ => Err(RowError::UnknownCall),
    }
}

/// Writes the name, the type and the class of a question.
fn parts<N: ToName + Display>(question: &Question<N>, out: &mut Answer) -> Result<(), RowError> {
    out.shown(question.qname())?;
    out.shown(&question.qtype())?;
    out.shown(&question.qclass())
}

/// Answers the question that a text spells, or the text of the error.
fn answer_text(alloc: Global, row: &mut Row<'_>, out: &mut Answer) -> Result<(), RowError> {
    let text = row.text(alloc)?;
    let question: Result<Owned, _> = Question::from_str(alloc, text.as_str());
    match question {
        Ok(question) => parts(&question, out),
        Err(error) => out.refused(&error),
    }
}

/// Answers the question in a message, or that it is skipped.
fn answer_parser(alloc: Global, row: &mut Row<'_>, out: &mut Answer) -> Result<(), RowError> {
    let place = row.value()?;
    let message = row.octets(alloc)?;
    let mut parser = at_place(message.as_slice(), place)?;
    if row.call() == "Question::parse" {
        match Question::parse(&mut parser) {
            Ok(question) => parts(&question, out)?,
            Err(error) => out.refused(&error)?,
        }
    } else {
        match Question::skip(&mut parser) {
            Ok(()) => out.shown(&"ok")?,
            Err(error) => out.refused(&error)?,
        }
    }
    out.shown(&parser.pos())
}

/// Answers whether two messages ask the same questions.
pub fn answer_section(alloc: Global, row: &mut Row<'_>, out: &mut Answer) -> Result<(), RowError> {
    let octets = row.octets(alloc)?;
    let others = row.octets(alloc)?;
    let Ok(message) = Message::from_slice(octets.as_slice()) else {
        return Err(RowError::BadWord);
    };
    let Ok(other) = Message::from_slice(others.as_slice()) else {
        return Err(RowError::BadWord);
    };
    out.shown(&(message.question() == other.question()))
}
