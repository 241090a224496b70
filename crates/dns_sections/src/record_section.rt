//! The sections of records.
ghost use Rattle.std.specs.Prelude.{◌≡◌, ◌≤◌, Ok, Err, Some, MatchResult, length, option_map};
ghost use Rattle.dns_octets.specs.Parser.{octets_of, place_of};

use crate::Section;
use crate::cursor::ItemCursor;
use dns_header::{HeaderCounts, ParsedRecord};
use dns_name::{ParseError, Parser};

/// A cursor over the records of a section (RFC 1035 4.1.3). Their data is parsed on demand.
///
/// A record whose header or length does not parse is returned as an error once, and nothing after it.
#[derive(Clone, Copy, Debug)]
pub struct RecordSection<'a> {
    cursor: ItemCursor<'a>,
    section: Section,
    ghost header: { 12 ≤ length (octets_of cursor.parser) },
}

impl<'a> RecordSection<'a> {
    ghost use Rattle.dns_sections.specs.Sections.{at_start, following, LeadsOn};
    ghost use Rattle.dns_sections.specs.Seen.{records_at};
    ghost use Rattle.dns_sections.specs.declared.section.Section.{Section};

    /// Returns a cursor at the first record of the section; the parser must be there.
    pub(crate) fn at_start(parser: Parser<'a>, section: Section) -> Self
        requires { 12 ≤ length (octets_of parser) }
        ensures { records_at result ≡ at_start (octets_of parser.entry) section (place_of parser.entry) }
    {
        let count = section.count(HeaderCounts::for_message_slice(parser.as_slice()));
        RecordSection {
            cursor: ItemCursor::new(parser, count),
            section,
        }
    }

    /// Returns how many octets of the message come before the next record.
    pub fn pos(&self) -> usize
        ensures { result ≡ (records_at self.now).cursor.place }
    {
        self.cursor.pos()
    }

    /// Returns the section of these records.
    pub(crate) fn section(&self) -> Section
        ensures { result ≡ (records_at self.now).section }
    {
        self.section
    }

    /// Returns the section after the remaining records, or None after the additional section. Follows none of their
    /// pointers. Fails with the error of the first record that cannot be skipped, or of the one that did not parse
    /// before.
    pub fn next_section(self) -> Result<Option<Self>, ParseError>
        ensures { MatchResult result
            (λ found. LeadsOn (records_at self.entry) (Ok (option_map (λ section. records_at section) found)))
            (λ error. LeadsOn (records_at self.entry) (Err error)) }
    {
        let Some(section) = self.section.next_section() else {
            return Ok(None)
        };
        let parser = self.cursor.pass_all::<ParsedRecord<'a>>()?;
        Ok(Some(RecordSection::at_start(parser, section)))
    }

    /// Returns the next section. This section must not be the last.
    pub(crate) fn following(self) -> Result<Self, ParseError>
        requires { (section : Section) × (following (records_at self).section ≡ Some section) }
        ensures { MatchResult result (λ found. LeadsOn (records_at self.entry) (Ok (Some (records_at found))))
            (λ error. LeadsOn (records_at self.entry) (Err error)) }
    {
        match self.next_section()? {
            Some(section) => Ok(section),
            None => Ok(self),
        }
    }
}

impl<'a> Iterator for RecordSection<'a> {
    ghost use Rattle.dns_sections.specs.Cursor.{items_left};
    ghost use Rattle.dns_sections.specs.Given.{GivesRecord};
    ghost use Rattle.dns_sections.specs.Seen.{records_at};

    type Item = Result<ParsedRecord<'a>, ParseError>;

    ghost next_gives = { λ old result new. ((records_at new).section ≡ (records_at old).section)
        × GivesRecord (records_at old).cursor result (records_at new).cursor };

    ghost remaining = { λ section. items_left (records_at section).cursor };

    fn next(&mut self) -> Option<Self::Item> {
        self.cursor.next_item()
    }
}
