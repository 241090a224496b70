//! The fields of data, as returned by the getters of its type.
use crate::given::Read;
use dns_name::RecordData;
use dns_rdata::ZoneRecordData;
use rows::{Answer, RowError};

/// Writes the type of the data and its fields.
pub fn answer(rdata: &Read<'_>, out: &mut Answer) -> Result<(), RowError> {
    out.shown(&rdata.rtype().to_int())?;
    names(rdata, out)
}

/// Writes the fields of data if its type has one name.
fn names(rdata: &Read<'_>, out: &mut Answer) -> Result<(), RowError> {
    match rdata {
        ZoneRecordData::Ns(ns) => out.shown(ns.nsdname()),
        ZoneRecordData::Md(md) => out.shown(md.madname()),
        ZoneRecordData::Mf(mf) => out.shown(mf.madname()),
        ZoneRecordData::Cname(cname) => out.shown(cname.cname()),
        ZoneRecordData::Mb(mb) => out.shown(mb.madname()),
        ZoneRecordData::Mg(mg) => out.shown(mg.madname()),
        ZoneRecordData::Mr(mr) => out.shown(mr.newname()),
        ZoneRecordData::Ptr(ptr) => out.shown(ptr.ptrdname()),
        ZoneRecordData::Dname(dname) => out.shown(dname.dname()),
        _ => rows_of_names(rdata, out),
    }
}

/// Writes the fields of data if its type is another one with names.
fn rows_of_names(rdata: &Read<'_>, out: &mut Answer) -> Result<(), RowError> {
    match rdata {
        ZoneRecordData::Soa(soa) => {
            out.shown(soa.mname())?;
            out.shown(soa.rname())?;
            out.shown(&soa.serial())?;
            for ttl in [soa.refresh(), soa.retry(), soa.expire(), soa.minimum()] {
                out.shown(&ttl.as_secs())?;
            }
            Ok(())
        }
        ZoneRecordData::Minfo(minfo) => {
            out.shown(minfo.rmailbx())?;
            out.shown(minfo.emailbx())
        }
        ZoneRecordData::Mx(mx) => {
            out.shown(&mx.preference())?;
            out.shown(mx.exchange())
        }
        ZoneRecordData::Rp(rp) => {
            out.shown(rp.mbox())?;
            out.shown(rp.txt())
        }
        ZoneRecordData::Srv(srv) => {
            out.shown(&srv.priority())?;
            out.shown(&srv.weight())?;
            out.shown(&srv.port())?;
            out.shown(srv.target())
        }
        _ => rows_of_octets(rdata, out),
    }
}

/// Writes the fields of data if its type has no names.
fn rows_of_octets(rdata: &Read<'_>, out: &mut Answer) -> Result<(), RowError> {
    match rdata {
        ZoneRecordData::A(a) => out.shown(&a.addr()),
        ZoneRecordData::Aaaa(aaaa) => out.octets(aaaa.addr().octets().as_slice()),
        ZoneRecordData::Hinfo(hinfo) => {
            out.octets(hinfo.cpu().as_slice())?;
            out.octets(hinfo.os().as_slice())
        }
        ZoneRecordData::Ds(ds) => {
            out.shown(&ds.key_tag())?;
            out.shown(&ds.algorithm())?;
            out.shown(&ds.digest_type())?;
            out.octets(ds.digest())
        }
        ZoneRecordData::Sshfp(sshfp) => {
            out.shown(&sshfp.algorithm())?;
            out.shown(&sshfp.fingerprint_type())?;
            out.octets(sshfp.fingerprint())
        }
        ZoneRecordData::Dnskey(key) => {
            out.shown(&key.flags())?;
            out.shown(&key.protocol())?;
            out.shown(&key.algorithm())?;
            out.octets(key.public_key())
        }
        ZoneRecordData::Caa(caa) => {
            out.shown(&caa.flags())?;
            out.octets(caa.tag().as_slice())?;
            out.octets(caa.value())
        }
        ZoneRecordData::Unknown(unknown) => out.octets(unknown.data()),
        _ => Err(RowError::UnknownCall),
    }
}
