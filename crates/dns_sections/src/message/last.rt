//! The last record of a message.
ghost use Rattle.std.specs.Prelude.{◌≡◌, ◌⊎◌, List, true, false, Some, None, Ok, Err, IfSome, IfNone};
ghost use Rattle.dns_octets.specs.declared.error.ParseError.{ParseError};
ghost use Rattle.dns_name.specs.ParsedName.{labels_of};
ghost use Rattle.dns_header.specs.ParsedRecord.{Parsed, IsRecordOf, HasNoData};
ghost use Rattle.dns_header.specs.Record.{with_labels};
ghost use Rattle.dns_sections.specs.Cursor.{Cursor, IsSpent};
ghost use Rattle.dns_sections.specs.Firsts.{LastAdditional};
ghost use Rattle.dns_sections.specs.Given.{GivesRecord, GoesOver};
ghost use Rattle.dns_sections.specs.Message.{octets_in};
ghost use Rattle.dns_sections.specs.Seen.{records_at};

use crate::{Message, RecordSection};
use dns_header::{ParsedRecord, Record};
use dns_name::{Octets, ParseRecordData, ParsedName};

impl<Octs: Octets> Message<Octs> {
    /// Returns the last record of the additional section, with its data (RFC 1035 4.1).
    ///
    /// Returns None if the section has no record or cannot be reached, if the header or length of one of its records
    /// does not parse, if `Data` does not take the type of the last, or if the data of the last does not parse.
    pub fn get_last_additional<'s, Data: ParseRecordData<'s>>(
        &'s self,
    ) -> Option<Record<ParsedName<&'s [u8]>, Data>>
        ensures some { IfSome result (λ rr. (parsed : Parsed) × LastAdditional (octets_in Octs.list self.now) (Some parsed)
            × (Data.takes parsed.head.rtype ≡ true) × IsRecordOf Data.reads parsed (with_labels labels_of rr)) }
        ensures none { IfNone result (LastAdditional (octets_in Octs.list self.now) None
            ⊎ ((parsed : Parsed) × LastAdditional (octets_in Octs.list self.now) (Some parsed)
            × ((Data.takes parsed.head.rtype ≡ false) ⊎ HasNoData Data.reads parsed))) }
    {
        match self.last_additional() {
            Some(record) => match record.into_record() {
                Ok(found) => found,
                Err(_) => None,
            },
            None => None,
        }
    }

    /// Returns the last record of the additional section. Its data is not parsed.
    fn last_additional(&self) -> Option<ParsedRecord<'_>>
        ensures { LastAdditional (octets_in Octs.list self.now) result }
    {
        match self.additional() {
            Ok(section) => last_record(section),
            Err(_) => None,
        }
    }
}

/// Returns the last of the remaining records, or None if there is none or the header or length of one does not parse.
fn last_record(section: RecordSection<'_>) -> Option<ParsedRecord<'_>>
    ensures some { IfSome result (λ parsed. (others : List Parsed) × (mid : Cursor) × (new : Cursor)
        × GoesOver (records_at section.entry).cursor others mid × GivesRecord mid (Some (Ok parsed)) new × IsSpent new) }
    ensures none { IfNone result (IsSpent (records_at section.entry).cursor
        ⊎ ((others : List Parsed) × (mid : Cursor) × (new : Cursor) × (error : ParseError)
        × GoesOver (records_at section.entry).cursor others mid × GivesRecord mid (Some (Err error)) new)) }
{
    let mut last = None;
    for record in section {
        last = Some(record.ok()?);
    }
    last
}
