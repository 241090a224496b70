//! Data that is made from its fields.
use dns_name::{ComposeRecordData, LongRecordData};
use dns_rdata::{A, Aaaa, Caa, Dnskey, Ds, Hinfo, Sshfp};
use dns_text::CharStr;
use rows::{Answer, Row, RowError};
use std::alloc::Global;
use std::fmt::Display;
use std::net::Ipv4Addr;

/// Writes the type of the data and its number of octets, or its text if the call is `to_string`, or why there is no
/// data.
fn made<D: ComposeRecordData + Display + Drop>(
    method: &str,
    rdata: Result<D, LongRecordData>,
    out: &mut Answer,
) -> Result<(), RowError> {
    match rdata {
        Ok(rdata) => {
            if method == "to_string" {
                return out.shown(&rdata);
            }
            out.shown(&rdata.rtype())?;
            out.named(&rdata.rdlen(false))
        }
        Err(error) => out.refused(&error),
    }
}

/// Answers a call of a type whose data is an address: the address that it returns.
pub fn answer_address(row: &mut Row<'_>, out: &mut Answer) -> Result<(), RowError> {
    match row.call() {
        "A::from_octets" => {
            let [a, b, c, d] = row.value::<Ipv4Addr>()?.octets();
            out.shown(&A::from_octets(a, b, c, d))
        }
        "A::set_addr" => {
            let mut a = A::new(row.value()?);
            a.set_addr(row.value()?);
            out.shown(&a.addr())
        }
        "Aaaa::set_addr" => {
            let mut aaaa = Aaaa::new(row.value()?);
            aaaa.set_addr(row.value()?);
            out.octets(aaaa.addr().octets().as_slice())
        }
        "A::new" => out.shown(&A::new(row.value()?)),
        "Aaaa::new" => out.shown(&Aaaa::new(row.value()?)),
        _ => Err(RowError::UnknownCall),
    }
}

/// Takes a string.
fn string(alloc: Global, row: &mut Row<'_>) -> Result<CharStr<Vec<u8>>, RowError> {
    match CharStr::from_octets(row.octets(alloc)?) {
        Ok(string) => Ok(string),
        Err(_) => Err(RowError::BadWord),
    }
}

/// Answers how HINFO data is made: writes its text.
pub fn answer_hinfo(alloc: Global, row: &mut Row<'_>, out: &mut Answer) -> Result<(), RowError> {
    let cpu = string(alloc, row)?;
    out.shown(&Hinfo::new(cpu, string(alloc, row)?))
}

/// Answers a call that makes CAA data.
pub fn answer_caa(alloc: Global, row: &mut Row<'_>, out: &mut Answer) -> Result<(), RowError> {
    let flags = row.value()?;
    let tag = string(alloc, row)?;
    made(row.method(), Caa::new(flags, tag, row.octets(alloc)?), out)
}

/// Answers a call that makes DNSKEY data.
pub fn answer_dnskey(alloc: Global, row: &mut Row<'_>, out: &mut Answer) -> Result<(), RowError> {
    let (flags, protocol, algorithm) = (row.value()?, row.value()?, row.value()?);
    let key = Dnskey::new(flags, protocol, algorithm, row.octets(alloc)?);
    made(row.method(), key, out)
}

/// Answers a call that makes DS data or takes the digest out of it.
pub fn answer_ds(alloc: Global, row: &mut Row<'_>, out: &mut Answer) -> Result<(), RowError> {
    let (key_tag, algorithm, digest_type) = (row.value()?, row.value()?, row.value()?);
    let ds = Ds::new(key_tag, algorithm, digest_type, row.octets(alloc)?);
    if row.method() == "into_digest" {
        return digest(ds, out);
    }
    made(row.method(), ds, out)
}

/// Answers how SSHFP data is made, and which fingerprint is taken out of it.
pub fn answer_sshfp(alloc: Global, row: &mut Row<'_>, out: &mut Answer) -> Result<(), RowError> {
    let (algorithm, fingerprint_type) = (row.value()?, row.value()?);
    let sshfp = Sshfp::new(algorithm, fingerprint_type, row.octets(alloc)?);
    if row.method() == "into_fingerprint" {
        return match sshfp {
            Ok(sshfp) => out.octets(sshfp.into_fingerprint().as_slice()),
            Err(error) => out.refused(&error),
        };
    }
    made(row.method(), sshfp, out)
}

/// Writes the digest taken out of the data.
fn digest(ds: Result<Ds<Vec<u8>>, LongRecordData>, out: &mut Answer) -> Result<(), RowError> {
    match ds {
        Ok(ds) => out.octets(ds.into_digest().as_slice()),
        Err(error) => out.refused(&error),
    }
}
