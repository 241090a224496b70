//! An iterator over all records of a message.
ghost use Rattle.std.specs.Prelude.{◌≡◌};

use crate::{RecordSection, Section};
use dns_header::ParsedRecord;
use dns_name::ParseError;

/// An iterator over the records of all sections, each with its section.
///
/// A record that does not parse ends it with an error. Before the additional section the error is returned twice, since
/// the next section cannot be reached either.
#[derive(Debug, Drop)]
pub struct MessageIter<'a> {
    /// None if nothing is left to parse.
    section: Option<RecordSection<'a>>,
}

impl<'a> MessageIter<'a> {
    ghost use Rattle.std.specs.Prelude.{option_map};
    ghost use Rattle.dns_sections.specs.Seen.{all_at, records_at};

    /// Returns an iterator over the records from this place on, if there is one.
    pub(crate) fn from_section(section: Option<RecordSection<'a>>) -> Self
        ensures { all_at result ≡ option_map (λ at. records_at at) section.entry }
    {
        MessageIter { section }
    }
}

impl<'a> Iterator for MessageIter<'a> {
    ghost use Rattle.std.specs.Prelude.{Option};
    ghost use Rattle.dns_sections.specs.Given.{GivesAll, Sectioned, seen};
    ghost use Rattle.dns_sections.specs.Sections.{all_left};
    ghost use Rattle.dns_sections.specs.Seen.{all_at};

    type Item = Result<(ParsedRecord<'a>, Section), ParseError>;

    ghost next_gives = { λ old result new.
        GivesAll (all_at old) (seen (λ item. record { parsed = item.0; section = item.1 }) result) (all_at new) };

    ghost remaining = { λ iter. all_left (all_at iter) };

    fn next(&mut self) -> Option<Self::Item> {
        while let Some(mut section) = self.section {
            match section.next() {
                Some(Ok(record)) => {
                    self.section = Some(section);
                    return Some(Ok((record, section.section())));
                }
                Some(Err(error)) => {
                    self.section = Some(section);
                    return Some(Err(error));
                }
                None => match section.next_section() {
                    Ok(behind) => self.section = behind,
                    Err(error) => {
                        self.section = None;
                        return Some(Err(error));
                    }
                },
            }
        }
        None
    }
}
