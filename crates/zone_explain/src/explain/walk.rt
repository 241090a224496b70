//! A walk over the entries of a zone's text.
ghost use Rattle.std.specs.Prelude.{◌≡◌, ◌≢◌, ◌-◌, ◌<◌, ℕ, List, Option, Some, None, Ok, Err, true, false, length, option_copied, IfOk, IfErr, IfSome, IfNone, OnOk};
ghost use Rattle.dns_header.specs.Record.{RecordOf};
ghost use Rattle.dns_rdata.specs.Data.{Data};
ghost use Rattle.dns_rdata.specs.Fields.{IsData};
ghost use Rattle.dns_message.specs.Held.{record_of};
ghost use Rattle.dns_message.specs.Record.{IsRecord, record_octets};
ghost use Rattle.dns_entry_scanner.specs.EntryError.{is_memory};
ghost use Rattle.dns_entry_scanner.specs.declared.entry_error.EntryError as reason;
ghost use Rattle.dns_zonefile.specs.Entry.{Entry};
ghost use Rattle.dns_zonefile.specs.Entry.Entry.{Resource};
ghost use Rattle.dns_entry_scanner.specs.LineMark.{MarksLine};
ghost use Rattle.dns_zonefile.specs.Reader.{Gives, Reader, left_of};
ghost use Rattle.dns_entry_scanner.specs.Lines.{line_at};
ghost use Rattle.dns_zonefile.specs.ReaderSeen.{entries_met, reader_of, refused_in};
ghost use Rattle.dns_zonefile.specs.declared.error.Error.{Error as ErrorOf};
ghost use Rattle.zone_records.specs.Record as spec;
ghost use Rattle.zone.specs.Reading.{BreaksRule, MayStandUnder, reader_at};
ghost use Rattle.zone.specs.ZoneText.{IsWellTyped};
ghost use Rattle.zone_explain.specs.AllFaults.{IsLastAt, apex_for as spec_apex_for, front_after, front_refused};
ghost use Rattle.zone_explain.specs.AllFaults.Front.{unseen};
ghost use Rattle.zone_explain.specs.EntryRow.{IsEntryRow, breaks_entry};
ghost use Rattle.zone_explain.specs.Walk.{GoesOn, IsOver, Leads, LeadsTo, StartsAt, front_of};
ghost use Rattle.zone_explain.specs.declared.explain.walk.Step.TheVariants.{Ended, Found};

use super::entry_row::{EntryRow, row_behind};
use super::{Finding, finding_in};
use dns_name::{Class, Name, ToName};
use dns_zonefile::{ComposedEntry, LineMark, Zonefile};
use std::alloc::{AllocError, Global};
use zone::{ZoneError, check_record, zonefile_of};
use zone_records::record::Record;

/// A walk over the entries of a zone's text, which passes over what is refused.
#[derive(Drop)]
pub(crate) struct Walk {
    alloc: Global,
    class: Class,
    zonefile: Zonefile,
    /// The octets of the last record.
    octets: Vec<u8>,
    /// The line of the row at which the last entry was looked for.
    mark: LineMark,
    /// Whether a record was read.
    has_owner: bool,
    front: Front,
}

/// What the entries so far have shown of the zone.
#[derive(Drop)]
enum Front {
    /// Nothing: there was none.
    Unseen,
    /// Its front is missing, or does not read.
    Missing,
    /// Its SOA.
    Under {
        apex: Name<Vec<u8>>,
        /// The number of the SOA's line.
        line: usize,
    },
}

/// What the next entry is.
#[derive(Drop)]
enum Step {
    /// There is none.
    Ended,
    /// A record that keeps the rules.
    Kept,
    /// One that does not read, or that breaks a rule.
    Found(Finding),
}

/// Where the reader was before an entry.
#[derive(Clone, Copy)]
struct Start {
    place: usize,
    /// The number of the entries before.
    count: usize,
}

impl Walk {
    /// Returns the walk from the start of the text. Fails if out of memory.
    pub(crate) fn new(
        alloc: Global,
        text: &[u8],
        origin: Option<&Name<&[u8]>>,
        class: Class,
    ) -> Result<Self, AllocError>
        ensures over { IfOk result (IsOver text.now) }
        ensures at { IfOk result (λ walk. reader_of walk.zonefile ≡ reader_at text.now (option_copied origin.entry) class) }
        ensures front { IfOk result (λ walk. front_of walk.front ≡ unseen) }
    {
        Ok(Walk {
            alloc,
            class,
            zonefile: zonefile_of(alloc, Vec::from_slice(alloc, text)?, origin, class)?,
            octets: Vec::new(alloc),
            mark: LineMark::start(),
            has_owner: false,
            front: Front::Unseen,
        })
    }

    /// Returns the next fault, or None if the text ends before one. Fails if out of memory.
    pub(crate) fn next_finding(&mut self, text: &[u8]) -> Result<Option<Finding>, AllocError>
        requires { IsOver text.now self.old }
        ensures over { OnOk result (IsOver text.now self.new) }
        ensures leads { IfOk result (λ found. LeadsTo (reader_of self.old.zonefile) (front_of self.old.front) found
            (reader_of self.new.zonefile) (front_of self.new.front)) }
    {
        loop {
            match self.step(text)? {
                Step::Kept => {}
                Step::Found(finding) => return Ok(Some(finding)),
                Step::Ended => return Ok(None),
            }
        }
    }

    /// Goes on over the next entry. Fails if out of memory.
    fn step(&mut self, text: &[u8]) -> Result<Step, AllocError>
        requires { IsOver text.now self.old }
        ensures over { OnOk result (IsOver text.now self.new) }
        ensures leads { IfOk result (λ step. Leads (reader_of self.old.zonefile) (front_of self.old.front) step
            (reader_of self.new.zonefile) (front_of self.new.front)) }
        ensures shorter { IfOk result (λ step. GoesOn (reader_of self.old.zonefile) step (reader_of self.new.zonefile)) }
    {
        let start = Start {
            place: self.zonefile.place(),
            count: self.zonefile.entry_number(),
        };
        self.mark = self.mark.at(text, start.place);
        self.octets.clear();
        match self.zonefile.next_octets(&mut self.octets) {
            Ok(None) => Ok(Step::Ended),
            Ok(Some(ComposedEntry::Record { unknown })) => self.judge(text, start, unknown),
            Ok(Some(ComposedEntry::Include(_))) => {
                let fault = ZoneError::Include(self.zonefile.entry_number());
                Ok(Step::Found(self.finding(text, start, fault)?))
            }
            Err(error) if error.is_memory() => Err(AllocError),
            Err(_) => Ok(Step::Found(self.refuse(text)?)),
        }
    }

    /// Judges the record that was read. Fails if out of memory.
    fn judge(&mut self, text: &[u8], start: Start, unknown: bool) -> Result<Step, AllocError>
        requires { (r : spec.Record) × IsRecord r × (self.old.octets.items ≡ record_octets r)
            × (unknown ≡ false → IsData r.rtype r.rdata) }
        ensures leads { IfOk result (λ step. (old : Reader) (rr : RecordOf (List (List ℕ)) Data) → StartsAt text.now start old
            → Gives old (Ok (Some (Resource rr))) (reader_of self.old.zonefile) → refused_in self.old.zonefile ≡ None
            → MarksLine text.now self.old.mark → IsRecord (record_of rr) → self.old.octets.items ≡ record_octets (record_of rr)
            → Leads old (front_of self.old.front) step (reader_of self.old.zonefile) (front_of self.new.front)
            × (step ≢ Ended)) }
        ensures reader { OnOk result (self.new.zonefile ≡ self.old.zonefile) }
        ensures line { OnOk result (self.new.mark ≡ self.old.mark) }
    {
        let step = match self.broken_rule(unknown)? {
            None => Step::Kept,
            Some(fault) => Step::Found(self.finding(text, start, fault)?),
        };
        if let Some(front) = self.front_behind(text, start)? {
            self.front = front;
        }
        self.has_owner = true;
        Ok(step)
    }

    /// Returns the first rule that the record that was read breaks, or None if it keeps them. Fails if out of memory.
    fn broken_rule(&self, unknown: bool) -> Result<Option<ZoneError>, AllocError>
        requires { (r : spec.Record) × IsRecord r × (self.now.octets.items ≡ record_octets r)
            × (unknown ≡ false → IsData r.rtype r.rdata) }
        ensures none { IfOk result (λ found. IfNone found ((r : spec.Record) → IsRecord r → self.now.octets.items ≡ record_octets r
            → IsWellTyped r × MayStandUnder (spec_apex_for (front_of self.now.front) r) r)) }
        ensures some { IfOk result (λ found. IfSome found (λ fault. (r : spec.Record) → IsRecord r → self.now.octets.items ≡ record_octets r
            → BreaksRule (entries_met self.now.zonefile) (spec_apex_for (front_of self.now.front) r) r fault
            × (breaks_entry fault ≡ true))) }
    {
        let record = Record::from_octets(&self.octets);
        let apex = self.front.apex_for(&record);
        let number = self.zonefile.entry_number();
        match check_record(self.alloc, apex, &record, unknown, number) {
            Ok(()) => Ok(None),
            Err(ZoneError::OutOfMemory) => Err(AllocError),
            Err(fault) => Ok(Some(fault)),
        }
    }

    /// Returns what the record that was read shows of the zone, or None if the entries before it have shown the apex. Fails
    /// if out of memory.
    fn front_behind(&self, text: &[u8], start: Start) -> Result<Option<Front>, AllocError>
        requires { (r : spec.Record) × IsRecord r × (self.now.octets.items ≡ record_octets r) }
        ensures some { IfOk result (λ shown. IfSome shown (λ front. (r : spec.Record) → IsRecord r → self.now.octets.items ≡ record_octets r
            → front_of front ≡ front_after (front_of self.now.front) r)) }
        ensures none { IfOk result (λ shown. IfNone shown ((r : spec.Record) → front_of self.now.front ≡ front_after (front_of self.now.front) r)) }
    {
        if let Front::Under { .. } = &self.front {
            return Ok(None);
        }
        let record = Record::from_octets(&self.octets);
        if !record.is_soa() {
            return Ok(Some(Front::Missing));
        }
        let apex = record.owner().to_vec(self.alloc)?;
        let row = self.last_row(text, start)?;
        let line = row.first_line(text);
        Ok(Some(Front::Under { apex, line }))
    }

    /// Passes over the entry that was refused, and returns why it was. Fails if out of memory.
    fn refuse(&mut self, text: &[u8]) -> Result<Finding, AllocError>
        ensures leads { IfOk result (λ finding. (old : Reader) (error : ErrorOf) (why : reason.EntryError) → old.text ≡ text.now
            → refused_in self.old.zonefile ≡ Some error → Gives old (Err why) (reader_of self.old.zonefile) → is_memory why ≡ false
            → MarksLine text.now self.old.mark
            → Leads old (front_of self.old.front) (Found finding) (reader_of self.new.zonefile) (front_of self.new.front)
            × GoesOn old (Found finding) (reader_of self.new.zonefile)) }
        ensures unrefused { OnOk result (refused_in self.new.zonefile ≡ None) }
        ensures same { OnOk result ((reader_of self.new.zonefile).text ≡ (reader_of self.old.zonefile).text
            × ((reader_of self.new.zonefile).context ≡ (reader_of self.old.zonefile).context)) }
        ensures line { OnOk result (self.new.mark ≡ self.old.mark) }
    {
        let fault = ZoneError::Text(self.zonefile.entry_number());
        let row = self.row_from(text, self.zonefile.place(), 1)?;
        let finding = finding_in(self.alloc, text, row, self.class, fault)?;
        self.zonefile.pass_over()?;
        if let Front::Unseen = &self.front {
            self.front = Front::Missing;
        }
        Ok(finding)
    }

    /// Returns the finding of a fault of the last entry. Fails if out of memory.
    fn finding(&self, text: &[u8], start: Start, fault: ZoneError) -> Result<Finding, AllocError>
        ensures fault { IfOk result (λ finding. finding.fault ≡ fault) }
        ensures line { MarksLine text.now self.now.mark → IfOk result (λ finding. finding.line ≡ line_at text.now finding.located.start) }
        ensures last { IfOk result (λ finding. (old : Reader) (entry : Entry) → StartsAt text.now start old
            → Gives old (Ok (Some entry)) (reader_of self.now.zonefile) → refused_in self.now.zonefile ≡ None
            → breaks_entry fault ≡ true → IsLastAt old (reader_of self.now.zonefile) finding.located.start) }
    {
        let row = self.last_row(text, start)?;
        finding_in(self.alloc, text, row, self.class, fault)
    }

    /// Returns the row of the last entry. Fails if out of memory.
    fn last_row(&self, text: &[u8], start: Start) -> Result<EntryRow, AllocError>
        ensures row { IfOk result (λ row. IsEntryRow text.now start.place (entries_met self.now.zonefile - start.count) row.place row.spans.items
            row.blank_led) }
        ensures line { IfOk result (λ row. row.mark ≡ self.now.mark) }
    {
        let number = self.zonefile.entry_number().saturating_sub(start.count);
        self.row_from(text, start.place, number)
    }

    /// Returns the row of the entry with the number, which counts from the place on. Fails if out of memory.
    fn row_from(&self, text: &[u8], place: usize, number: usize) -> Result<EntryRow, AllocError>
        ensures row { IfOk result (λ row. IsEntryRow text.now place number row.place row.spans.items row.blank_led) }
        ensures line { IfOk result (λ row. row.mark ≡ self.now.mark) }
    {
        let origin = match self.zonefile.origin() {
            Some(origin) => Some(origin.to_vec(self.alloc)?),
            None => None,
        };
        let (apex, soa_line) = match &self.front {
            Front::Under { apex, line } => (Some(apex.to_vec(self.alloc)?), Some(*line)),
            _ => (None, None),
        };
        let start = EntryRow {
            place,
            blank_led: None,
            spans: Vec::new(self.alloc),
            mark: self.mark,
            origin,
            has_owner: self.has_owner,
            soa_line,
            apex,
        };
        row_behind(self.alloc, text, start, number)
    }
}

impl Front {
    /// Returns the apex that a record is judged under. Where the front is missing, only an SOA is: any other record is
    /// judged under its own owner.
    fn apex_for<'a>(&'a self, record: &Record<'a>) -> Option<Name<&'a [u8]>>
        ensures { result ≡ spec_apex_for (front_of self.now) «record».now }
    {
        match self {
            Front::Unseen => None,
            Front::Missing if record.is_soa() => None,
            Front::Missing => Some(record.owner()),
            Front::Under { apex, .. } => Some(apex.for_ref()),
        }
    }
}
