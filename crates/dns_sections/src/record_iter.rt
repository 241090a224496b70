//! Cursors over records with their data.
ghost use Rattle.std.specs.Prelude.{◌≡◌, true, false, Ok, Err, MatchResult, option_map};
ghost use Rattle.dns_sections.specs.Sections.{LeadsOn};
ghost use Rattle.dns_sections.specs.Seen.{records_at, asked_at, only_in, any_at};

use crate::RecordSection;
use dns_header::Record;
use dns_name::{Class, ParseAnyRecordData, ParseError, ParseRecordData, ParsedName};
use std::marker::PhantomData;

/// An iterator over the records of a section whose types `Data` takes, with their data.
///
/// If the data of a record does not parse, the error is that record's only: the next record follows.
#[derive(Debug, Drop)]
pub struct RecordIter<'a, Data> {
    section: RecordSection<'a>,
    in_only: bool,
    data: PhantomData<Data>,
}

/// An iterator over all records of a section, with their data.
///
/// If the data of a record does not parse, the error is that record's only: the next record follows.
#[derive(Debug, Drop)]
pub struct AnyRecordIter<'a, Data> {
    section: RecordSection<'a>,
    data: PhantomData<Data>,
}

impl<'a> RecordSection<'a> {
    /// Returns an iterator over the records whose types `Data` takes; it skips the others.
    pub fn limit_to<Data: ParseRecordData<'a>>(self) -> RecordIter<'a, Data>
        ensures at { asked_at result ≡ records_at self.entry }
        ensures any_class { only_in result ≡ false }
    {
        RecordIter {
            section: self,
            in_only: false,
            data: PhantomData,
        }
    }

    /// Returns an iterator over the records of class IN whose types `Data` takes; it skips the others.
    pub fn limit_to_in<Data: ParseRecordData<'a>>(self) -> RecordIter<'a, Data>
        ensures at { asked_at result ≡ records_at self.entry }
        ensures in_class { only_in result ≡ true }
    {
        RecordIter {
            section: self,
            in_only: true,
            data: PhantomData,
        }
    }

    /// Returns an iterator over all records, with their data.
    pub fn into_records<Data: ParseAnyRecordData<'a>>(self) -> AnyRecordIter<'a, Data>
        ensures { any_at result ≡ records_at self.entry }
    {
        AnyRecordIter {
            section: self,
            data: PhantomData,
        }
    }
}

impl<'a, Data> RecordIter<'a, Data> {
    /// Returns the section from the next record on, whatever its type.
    pub fn unwrap(self) -> RecordSection<'a>
        ensures { records_at result ≡ asked_at self.entry }
    {
        self.section
    }

    /// Returns the next section, as `RecordSection::next_section` does. Data that did not parse is no error here.
    pub fn next_section(self) -> Result<Option<RecordSection<'a>>, ParseError>
        ensures { MatchResult result
            (λ found. LeadsOn (asked_at self.entry) (Ok (option_map (λ section. records_at section) found)))
            (λ error. LeadsOn (asked_at self.entry) (Err error)) }
    {
        self.section.next_section()
    }
}

impl<'a, Data> AnyRecordIter<'a, Data> {
    /// Returns the section from the next record on.
    pub fn unwrap(self) -> RecordSection<'a>
        ensures { records_at result ≡ any_at self.entry }
    {
        self.section
    }

    /// Returns the next section, as `RecordSection::next_section` does. Data that did not parse is no error here.
    pub fn next_section(self) -> Result<Option<RecordSection<'a>>, ParseError>
        ensures { MatchResult result
            (λ found. LeadsOn (any_at self.entry) (Ok (option_map (λ section. records_at section) found)))
            (λ error. LeadsOn (any_at self.entry) (Err error)) }
    {
        self.section.next_section()
    }
}

impl<'a, Data: ParseRecordData<'a>> Iterator for RecordIter<'a, Data> {
    ghost use Rattle.dns_name.specs.ParsedName.{labels_of};
    ghost use Rattle.dns_header.specs.Record.{with_labels};
    ghost use Rattle.dns_sections.specs.Cursor.{items_left};
    ghost use Rattle.dns_sections.specs.Given.{GivesAsked, IsTaken, seen};

    type Item = Result<Record<ParsedName<&'a [u8]>, Data>, ParseError>;

    ghost next_gives = { λ old result new. ((asked_at new).section ≡ (asked_at old).section) × (only_in new ≡ only_in old)
        × GivesAsked (IsTaken Data.takes (only_in old)) Data.reads (asked_at old).cursor (seen (with_labels labels_of) result)
        (asked_at new).cursor };

    ghost remaining = { λ iter. items_left (asked_at iter).cursor };

    fn next(&mut self) -> Option<Self::Item> {
        while let Some(item) = self.section.next() {
            let record = match item {
                Ok(record) => record,
                Err(error) => return Some(Err(error)),
            };
            if self.in_only && record.class() != Class::IN {
                continue;
            }
            match record.into_record() {
                Ok(Some(record)) => return Some(Ok(record)),
                Ok(None) => {}
                Err(error) => return Some(Err(error)),
            }
        }
        None
    }
}

impl<'a, Data: ParseAnyRecordData<'a>> Iterator for AnyRecordIter<'a, Data> {
    ghost use Rattle.dns_name.specs.ParsedName.{labels_of};
    ghost use Rattle.dns_header.specs.Record.{with_labels};
    ghost use Rattle.dns_sections.specs.Cursor.{items_left};
    ghost use Rattle.dns_sections.specs.Given.{GivesAsked, IsAny, seen};

    type Item = Result<Record<ParsedName<&'a [u8]>, Data>, ParseError>;

    ghost next_gives = { λ old result new. ((any_at new).section ≡ (any_at old).section)
        × GivesAsked IsAny Data.reads_any (any_at old).cursor (seen (with_labels labels_of) result) (any_at new).cursor };

    ghost remaining = { λ iter. items_left (any_at iter).cursor };

    fn next(&mut self) -> Option<Self::Item> {
        match self.section.next() {
            Some(Ok(record)) => Some(record.into_any_record()),
            Some(Err(error)) => Some(Err(error)),
            None => None,
        }
    }
}

impl<Data> Clone for RecordIter<'_, Data> {
    ghost is_clone = { λ iter copy. (asked_at copy ≡ asked_at iter) × (only_in copy ≡ only_in iter) };

    fn clone(&self) -> Result<Self, std::alloc::AllocError> {
        Ok(RecordIter {
            section: self.section,
            in_only: self.in_only,
            data: PhantomData,
        })
    }
}

impl<Data> Clone for AnyRecordIter<'_, Data> {
    ghost is_clone = { λ iter copy. any_at copy ≡ any_at iter };

    fn clone(&self) -> Result<Self, std::alloc::AllocError> {
        Ok(AnyRecordIter {
            section: self.section,
            data: PhantomData,
        })
    }
}
