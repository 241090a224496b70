//! Parsing questions from text.
//!
//! ```text
//! name type | name type class | name class type
//! ```
ghost use Rattle.std.specs.Prelude.{IfOk, IfErr, IfSome, IfNone};
ghost use Rattle.std.specs.Str.Iter.{split_whitespace_rest};
ghost use Rattle.dns_header.specs.QuestionParts.{question_of};
ghost use Rattle.dns_header.specs.QuestionText.{AsksFor, AsksForNone, IsBlank, SpellsQuestion, SpellsNoQuestion, StartsWithWord};

use super::{FromStrError, PresentationError, Question};
use dns_name::{Class, EmptyBuilder, FromBuilder, Name, Rtype};
use std::alloc::Global;
use std::str::SplitWhitespace;

impl<Octs: FromBuilder + Drop> Question<Name<Octs>>
where
    Octs::Builder: EmptyBuilder + Drop,
{
    /// Parses a question: a name, with or without its final dot, and then a type and a class in either order, with
    /// white space between them. A word that is a class is not taken as a type. A missing class is IN, and further
    /// words are ignored.
    ///
    /// The name is parsed first. Fails with `Presentation` if the text spells no question, and with `ShortBuf` if the
    /// first word spells a name and there is no memory or no room for it.
    pub fn from_str(alloc: Global, text: &str) -> Result<Self, FromStrError>
        ensures ok { IfOk result (λ question. SpellsQuestion text.now (question_of (λ name. name) question)) }
        ensures err { IfErr result (SpellsNoQuestion text.now) }
    {
        let mut words = text.split_whitespace();
        let Some(word) = next_word(&mut words) else {
            return Err(FromStrError::Presentation(PresentationError::MissingQname));
        };
        let qname = Name::from_str(alloc, word)?;
        let (qtype, qclass) = asked(&mut words)?;
        Ok(Question::new(qname, qtype, qclass))
    }
}

/// Parses the type and the class from the next words.
fn asked(words: &mut SplitWhitespace<'_>) -> Result<(Rtype, Class), PresentationError>
    ensures ok { IfOk result (λ asked. AsksFor (split_whitespace_rest words.old) asked.0 asked.1) }
    ensures err { IfErr result (AsksForNone (split_whitespace_rest words.old)) }
{
    let Some(word) = next_word(words) else {
        return Err(PresentationError::MissingClassAndQtype);
    };
    if let Some(qclass) = Class::from_bytes(word.as_bytes()) {
        let Some(next) = next_word(words) else {
            return Err(PresentationError::MissingQtype);
        };
        return match Rtype::from_bytes(next.as_bytes()) {
            Some(qtype) => Ok((qtype, qclass)),
            None => Err(PresentationError::BadQtype),
        };
    }
    let Some(qtype) = Rtype::from_bytes(word.as_bytes()) else {
        return Err(PresentationError::BadQtype);
    };
    let Some(next) = next_word(words) else {
        return Ok((qtype, Class::IN));
    };
    match Class::from_bytes(next.as_bytes()) {
        Some(qclass) => Ok((qtype, qclass)),
        None => Err(PresentationError::BadClass),
    }
}

/// Returns the next word.
fn next_word<'a>(words: &mut SplitWhitespace<'a>) -> Option<&'a str>
    ensures some { IfSome result (λ word. StartsWithWord (split_whitespace_rest words.old) word.now (split_whitespace_rest words.new)) }
    ensures none { IfNone result (IsBlank (split_whitespace_rest words.old)) }
{
    words.next()
}
