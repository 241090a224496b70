//! Messages whose records are copied section by section (RFC 1035 4.1).
ghost use Rattle.std.specs.Prelude.{⊤};

use dns_message::{ComposeRecord, Message, PushError, RecordTarget, Section};
use dns_name::{ParsedName, Rtype};
use dns_rdata::ZoneRecordData;
use rows::{Answer, Row, RowError};
use std::alloc::Global;

/// The records that were pushed, each with its section and as octets of its own.
#[derive(Drop)]
struct Pushed {
    alloc: Global,
    /// The section of the next record.
    section: Section,
    /// The number of records that it takes. A further push fails.
    most: usize,
    records: Vec<(Section, Vec<u8>)>,
}

impl RecordTarget for Pushed {
    type Next = Pushed;

    ghost pushes = { λ old item result new. ⊤ };

    ghost leads_to = { λ old next. ⊤ };

    fn push_record<R: ComposeRecord>(&mut self, item: &R) -> Result<(), PushError> {
        if self.records.len() >= self.most {
            return Err(PushError::LimitExceeded);
        }
        let mut octets = Vec::new(self.alloc);
        item.compose_record(&mut octets)?;
        match self.records.push((self.section, octets)) {
            Ok(()) => Ok(()),
            Err(_) => Err(PushError::OutOfMemory),
        }
    }

    fn into_next(self) -> Pushed {
        let mut next = self;
        next.section = match next.section {
            Section::Answer => Section::Authority,
            _ => Section::Additional,
        };
        next
    }
}

impl Pushed {
    fn count(&self, section: Section) -> usize {
        self.records
            .iter()
            .filter(|record| record.0 == section)
            .count()
    }

    /// Writes the number of records in each section, and then the records, each after its section.
    fn write(&self, out: &mut Answer) -> Result<(), RowError> {
        out.shown(&self.count(Section::Answer))?;
        out.shown(&self.count(Section::Authority))?;
        out.shown(&self.count(Section::Additional))?;
        for (section, octets) in &self.records {
            out.named(section)?;
            out.octets(octets.as_slice())?;
        }
        Ok(())
    }
}

/// Copies the CNAME records or all records, and leaves out those whose data cannot be parsed. The target takes the
/// number of records that the row says.
pub fn copy_records(
    alloc: Global,
    message: &Message<&[u8]>,
    row: &mut Row<'_>,
    out: &mut Answer,
) -> Result<(), RowError> {
    let cnames_alone = match row.word()? {
        "CNAME" => true,
        "all" => false,
        _ => return Err(RowError::BadWord),
    };
    let target = Pushed {
        alloc,
        section: Section::first(),
        most: row.value()?,
        records: Vec::new(alloc),
    };
    let copied = message.copy_records(target, |record| {
        if cnames_alone && record.rtype() != Rtype::CNAME {
            return None;
        }
        record
            .into_any_record::<ZoneRecordData<&[u8], ParsedName<&[u8]>>>()
            .ok()
    });
    match copied {
        Ok(target) => target.write(out),
        Err(error) => out.refused(&error),
    }
}
