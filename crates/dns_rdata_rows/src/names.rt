//! Data of the types with names: made from its fields, and parsed only as its own type.
use crate::zone_data::{parser_at, placed};
use dns_name::{Name, ParseError, ParseRecordData, ParsedName, Serial, Ttl};
use dns_rdata::{Cname, Dname, Mb, Md, Mf, Mg, Minfo, Mr, Mx, Ns, Ptr, Rp, Soa, Srv};
use rows::{Answer, Row, RowError};
use std::alloc::Global;
use std::fmt::Display;

/// Returns the name of these octets.
pub fn name(octets: &[u8]) -> Result<Name<&[u8]>, RowError> {
    match Name::from_slice(octets) {
        Ok(name) => Ok(name),
        Err(_) => Err(RowError::BadWord),
    }
}

/// Answers how data of one name is made: writes the name that it returns by reference and the name that it is converted
/// into.
pub fn answer_one(alloc: Global, row: &mut Row<'_>, out: &mut Answer) -> Result<(), RowError> {
    let octets = row.octets(alloc)?;
    let name = name(octets.as_slice())?;
    match row.family() {
        "Ns" | "Md" | "Mf" | "Cname" | "Dname" => host(row.family(), name, out),
        _ => mailbox(row.family(), name, out),
    }
}

fn host(family: &str, name: Name<&[u8]>, out: &mut Answer) -> Result<(), RowError> {
    match family {
        "Ns" => {
            let ns = Ns::new(name);
            out.shown(ns.nsdname())?;
            out.shown(&ns.into_nsdname())
        }
        "Md" => {
            let md = Md::new(name);
            out.shown(md.madname())?;
            out.shown(&md.into_madname())
        }
        "Mf" => {
            let mf = Mf::new(name);
            out.shown(mf.madname())?;
            out.shown(&mf.into_madname())
        }
        "Dname" => {
            let dname = Dname::new(name);
            out.shown(dname.dname())?;
            out.shown(&dname.into_dname())
        }
        _ => {
            let cname = Cname::new(name);
            out.shown(cname.cname())?;
            out.shown(&cname.into_cname())
        }
    }
}

fn mailbox(family: &str, name: Name<&[u8]>, out: &mut Answer) -> Result<(), RowError> {
    match family {
        "Mb" => {
            let mb = Mb::new(name);
            out.shown(mb.madname())?;
            out.shown(&mb.into_madname())
        }
        "Mg" => {
            let mg = Mg::new(name);
            out.shown(mg.madname())?;
            out.shown(&mg.into_madname())
        }
        "Mr" => {
            let mr = Mr::new(name);
            out.shown(mr.newname())?;
            out.shown(&mr.into_newname())
        }
        _ => {
            let ptr = Ptr::new(name);
            out.shown(ptr.ptrdname())?;
            out.shown(&ptr.into_ptrdname())
        }
    }
}

/// Answers how data of two names is made: writes its text.
pub fn answer_two(alloc: Global, row: &mut Row<'_>, out: &mut Answer) -> Result<(), RowError> {
    let one = row.octets(alloc)?;
    let other = row.octets(alloc)?;
    let (one, other) = (name(one.as_slice())?, name(other.as_slice())?);
    match row.family() {
        "Minfo" => out.shown(&Minfo::new(one, other)),
        "Rp" => out.shown(&Rp::new(one, other)),
        _ => soa(row, one, other, out),
    }
}

/// Takes the numbers of SOA data, and writes its text, its serial number and its minimum TTL.
fn soa(
    row: &mut Row<'_>,
    mname: Name<&[u8]>,
    rname: Name<&[u8]>,
    out: &mut Answer,
) -> Result<(), RowError> {
    let serial = Serial(row.value()?);
    let [refresh, retry, expire, minimum] = [
        row.value()?,
        row.value()?,
        row.value()?,
        row.value()?,
    ].map(Ttl::from_secs);
    let soa = Soa::new(mname, rname, serial, refresh, retry, expire, minimum);
    out.shown(&soa)?;
    out.shown(&soa.serial())?;
    out.shown(&soa.minimum().as_secs())
}

/// Answers how MX data is made: writes its text.
pub fn answer_mx(alloc: Global, row: &mut Row<'_>, out: &mut Answer) -> Result<(), RowError> {
    let preference = row.value()?;
    let octets = row.octets(alloc)?;
    out.shown(&Mx::new(preference, name(octets.as_slice())?))
}

/// Answers how SRV data is made: writes its text.
pub fn answer_srv(alloc: Global, row: &mut Row<'_>, out: &mut Answer) -> Result<(), RowError> {
    let (priority, weight, port) = (row.value()?, row.value()?, row.value()?);
    let octets = row.octets(alloc)?;
    out.shown(&Srv::new(priority, weight, port, name(octets.as_slice())?))
}

/// A name in a message.
type Parsed<'a> = ParsedName<&'a [u8]>;

/// Answers the data at a place of a message, if it is of the type in the row, and then the parser's place.
pub fn answer_taken(alloc: Global, row: &mut Row<'_>, out: &mut Answer) -> Result<(), RowError> {
    let (rtype, place, message) = placed(alloc, row)?;
    let mut parser = parser_at(message.as_slice(), place)?;
    if row.family() == "Ns" {
        taken(Ns::<Parsed<'_>>::parse_rdata(rtype, &mut parser), out)?;
    } else {
        taken(Ptr::<Parsed<'_>>::parse_rdata(rtype, &mut parser), out)?;
    }
    out.shown(&parser.pos())
}

/// Writes the text of data, or why there is none.
fn taken<D: Display + Drop>(
    rdata: Result<Option<D>, ParseError>,
    out: &mut Answer,
) -> Result<(), RowError> {
    match rdata {
        Ok(Some(rdata)) => out.shown(&rdata),
        Ok(None) => out.shown(&"None"),
        Err(error) => out.refused(&error),
    }
}
