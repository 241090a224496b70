//! OPT records as given in a row (RFC 6891 6.1).
ghost use Rattle.dns_builder.specs.OptSeen.{LeavesMessage};

use dns_builder::{MessageBuilder, OptBuilder};
use dns_header::{Opt, OptRecord, Record};
use dns_name::{
    AppendError, Class, Composer, Name, OptRcode, OptionCode, Rtype, Ttl, UnknownRecordData,
};
use rows::{Answer, Row, RowError};
use std::alloc::Global;

/// The fields of an OPT record, its option, and what happens after the option is pushed.
#[derive(Drop)]
pub struct OptRow {
    udp_payload_size: u16,
    rcode: OptRcode,
    version: u8,
    dnssec_ok: bool,
    code: OptionCode,
    option_len: u16,
    octets: Vec<u8>,
    behind: Behind,
}

/// What happens after the option is pushed.
#[derive(Drop)]
enum Behind {
    /// The result of the push is returned.
    Told,
    /// `Ok` is returned, even if the push fails.
    Dropped,
    /// The option and the fields are replaced with those of this record.
    Replaced(OptRecord<Vec<u8>>),
}

impl Behind {
    /// Reads whether the result of the push is returned or dropped, or which record replaces the option and the fields:
    /// its payload size, its TTL and the octets of its options.
    fn read(alloc: Global, row: &mut Row<'_>) -> Result<Self, RowError> {
        match row.word()? {
            "told" => Ok(Behind::Told),
            "dropped" => Ok(Behind::Dropped),
            "replaced" => Ok(Behind::Replaced(record_of(alloc, row)?)),
            _ => Err(RowError::BadWord),
        }
    }
}

/// Reads an OPT record: its payload size, its TTL and the octets of its options.
fn record_of(alloc: Global, row: &mut Row<'_>) -> Result<OptRecord<Vec<u8>>, RowError> {
    let class = Class::from_int(row.value()?);
    let ttl = Ttl::from_secs(row.value()?);
    match Opt::from_octets(row.octets(alloc)?) {
        Ok(opt) => Ok(OptRecord::from_record(Record::new(Name::root_slice(), class, ttl, opt))),
        Err(_) => Err(RowError::BadWord),
    }
}

impl OptRow {
    /// Reads the payload size, the response code, the version and DO; the code, the length and the octets of an option;
    /// and what happens after the option is pushed.
    pub fn read(alloc: Global, row: &mut Row<'_>) -> Result<Self, RowError> {
        Ok(OptRow {
            udp_payload_size: row.value()?,
            rcode: OptRcode::masked_from_int(row.value()?),
            version: row.value()?,
            dnssec_ok: row.value::<u8>()? == 1,
            code: OptionCode::from_int(row.value()?),
            option_len: row.value()?,
            octets: row.octets(alloc)?,
            behind: Behind::read(alloc, row)?,
        })
    }

    /// Sets the fields and pushes the option. Replaces both if the row says so.
    pub fn apply<Target: Composer>(&self, opt: &mut OptBuilder<Target>) -> Result<(), AppendError>
        ensures { LeavesMessage Target.list Target.known Target.bound Target.stays opt.old opt.new }
    {
        opt.set_udp_payload_size(self.udp_payload_size);
        opt.set_rcode(self.rcode);
        opt.set_version(self.version);
        opt.set_dnssec_ok(self.dnssec_ok);
        let pushed = opt.push_raw_option(self.code, self.option_len, |target| {
            target.append_slice(self.octets.as_slice())
        });
        match &self.behind {
            Behind::Told => pushed,
            Behind::Dropped => Ok(()),
            Behind::Replaced(source) => opt.clone_from(source),
        }
    }
}

/// Pushes records of the root without data into a message over a vector, as many as the row says, and then an OPT
/// record. Writes the error if the last push fails, and then the message's number of additional records, its response
/// code, and its number of octets.
pub fn opt_behind(alloc: Global, row: &mut Row<'_>, out: &mut Answer) -> Result<(), RowError> {
    let Ok(builder) = MessageBuilder::new_vec(alloc) else {
        return Err(RowError::OutOfMemory);
    };
    let mut builder = builder.additional();
    let Ok(rdata) = UnknownRecordData::from_octets(Rtype::TXT, Vec::new(alloc)) else {
        return Err(RowError::BadWord);
    };
    let record = Record::new(Name::root_slice(), Class::IN, Ttl::from_secs(0), rdata);
    for _ in 0..row.value::<u32>()? {
        if let Err(error) = builder.push(&record) {
            return out.refused(&error);
        }
    }
    let opt_row = OptRow::read(alloc, row)?;
    if let Err(error) = builder.opt(|opt| opt_row.apply(opt)) {
        out.refused(&error)?;
    }
    out.shown(&builder.counts().arcount())?;
    out.shown(&builder.header().rcode().to_int())?;
    out.shown(&builder.as_slice().len())
}
