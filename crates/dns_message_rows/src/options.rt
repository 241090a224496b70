//! OPT records and their options (RFC 6891 6.1).
use crate::parsed::at_place;
use dns_message::{Header, Opt, OptHeader, OptRecord, Record};
use dns_name::{OptRcode, ParsedName, Ttl};
use rows::{Answer, Row, RowError};
use std::alloc::Global;

type Read<'a> = Record<ParsedName<&'a [u8]>, Opt<&'a [u8]>>;

/// Writes the code and the octets of each option.
pub fn options(opt: &Opt<&[u8]>, out: &mut Answer) -> Result<(), RowError> {
    for (code, octets) in opt.iter() {
        out.shown(&code.to_int())?;
        out.octets(octets)?;
    }
    Ok(())
}

/// Answers how octets are read as options.
pub fn answer_options(alloc: Global, row: &mut Row<'_>, out: &mut Answer) -> Result<(), RowError> {
    let octets = row.octets(alloc)?;
    match Opt::from_octets(octets.as_slice()) {
        Ok(opt) => {
            out.octets(opt.as_slice())?;
            options(&opt, out)
        }
        Err(error) => out.refused(&error),
    }
}

/// Answers an OPT record in a message: its UDP payload size, the response code if the header has response code 5, the
/// version, DO, and the options.
pub fn answer_record(alloc: Global, row: &mut Row<'_>, out: &mut Answer) -> Result<(), RowError> {
    let place = row.value()?;
    let message = row.octets(alloc)?;
    let mut parser = at_place(message.as_slice(), place)?;
    let found: Result<Option<Read<'_>>, _> = Record::parse(&mut parser);
    match found {
        Ok(Some(rr)) => {
            let found = OptRecord::from_record(rr);
            out.shown(&found.udp_payload_size())?;
            out.shown(
                &found
                    .rcode(Header::for_message_slice(b"\0\0\0\x05"))
                    .to_int(),
            )?;
            out.shown(&found.version())?;
            out.shown(&found.dnssec_ok())?;
            options(found.opt(), out)?;
        }
        Ok(None) => out.shown(&"None")?,
        Err(error) => out.refused(&error)?,
    }
    out.shown(&parser.pos())
}

/// Answers the class and the TTL after a setter, or their values.
pub fn answer_header(row: &mut Row<'_>, out: &mut Answer) -> Result<(), RowError> {
    let class = row.value()?;
    let mut header = OptHeader::from_class_and_ttl(class, Ttl::from_secs(row.value()?));
    match row.call() {
        "OptHeader::set_udp_payload_size" => header.set_udp_payload_size(row.value()?),
        "OptHeader::set_rcode" => header.set_rcode(OptRcode::masked_from_int(row.value()?)),
        "OptHeader::set_version" => header.set_version(row.value()?),
        "OptHeader::set_dnssec_ok" => header.set_dnssec_ok(row.value()?),
        "OptHeader::from_class_and_ttl" => {}
        _ => return Err(RowError::UnknownCall),
    }
    out.shown(&header.class())?;
    out.shown(&header.ttl().as_secs())?;
    out.shown(&header.udp_payload_size())?;
    out.shown(&header.rcode(Header::new()).to_int())?;
    out.shown(&header.version())?;
    out.shown(&header.dnssec_ok())
}
