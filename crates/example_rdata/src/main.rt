//! Record data of three types: scanned, composed, and printed in three layouts.
//!
//! To run it: `cd crates/example_rdata && rt try`.
#![tactic(auto)]

use anyhow::Result;
use dns_message::Record;
use dns_name::{Class, ComposeRecordData, Name, Rtype, Ttl};
use dns_rdata::ZoneRecordData;
use dns_text::{DisplayKind, IterScanner, ZonefileFmt, base16};
use std::alloc::Global;
use std::io;

/// Data of any type, which owns its octets.
type Data = ZoneRecordData<Vec<u8>, Name<Vec<u8>>>;

/// Scans data of a type from words, as a zone file has them (RFC 1035 5.1).
fn scan(alloc: Global, rtype: Rtype, words: &str) -> Result<Data> {
    let mut scanner = IterScanner::new(alloc, words.split(' '))?;
    Ok(ZoneRecordData::scan(rtype, &mut scanner)?)
}

/// Returns a record of `example.com` with such data.
fn record(alloc: Global, rtype: Rtype, words: &str) -> Result<Record<Name<Vec<u8>>, Data>> {
    let owner = Name::vec_from_str(alloc, "example.com.")?;
    let data = scan(alloc, rtype, words)?;
    Ok(Record::new(owner, Class::IN, Ttl::HOUR, data))
}

/// Shows a record in each layout.
fn show(rt: &impl Print, record: &impl ZonefileFmt) -> io::Result<()> {
    println!(rt; "{}", record.display_zonefile(DisplayKind::Simple))?;
    println!(rt; "{}", record.display_zonefile(DisplayKind::Tabbed))?;
    println!(rt; "{}", record.display_zonefile(DisplayKind::Multiline))
}

/// Shows the octets that data has in messages.
fn show_octets(rt: &HostRuntime, data: &impl ComposeRecordData) -> Result<()> {
    let mut octets = Vec::new(rt.alloc());
    data.compose_rdata(&mut octets)?;
    println!(rt; "{}\n", base16::display(octets.as_slice()))?;
    Ok(())
}

/// Scans data, shows a record with it, and then its octets.
fn scan_and_show(rt: &HostRuntime, rtype: Rtype, words: &str) -> Result<()> {
    let record = record(rt.alloc(), rtype, words)?;
    show(rt, &record)?;
    show_octets(rt, record.data())
}

fn main(rt: HostRuntime) -> Result<()> {
    let soa = "ns.example.com. admin.example.com. 2024 7200 900 86400 300";
    scan_and_show(&rt, Rtype::MX, "10 mail.example.com.")?;
    scan_and_show(&rt, Rtype::SOA, soa)?;
    scan_and_show(&rt, Rtype::CAA, "0 issue ca.example.net")
}
