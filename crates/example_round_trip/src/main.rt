//! A zone's text to the stream of a transfer, and back.
//!
//! Reads a zone file from standard input, sends the zone, receives what was sent, and prints that. To run it:
//! `cd crates/example_round_trip && rt try < stdin`.
#![tactic(auto)]

use anyhow::Result;
use std::alloc::Global;
use std::io;
use std::io::{Read, Write};
use zonewire::{Class, DisplayKind, Receiver, Spelling, Zone, axfr_query, send};

/// The largest number of octets that a message may have.
const MAX: u16 = 512;

/// Receives a zone as the stream that answers a query, and returns its text.
fn receive(alloc: Global, query: &[u8], stream: &[u8]) -> Result<Vec<u8>> {
    let mut receiver = Receiver::new(alloc, query)?;
    receiver.feed(stream)?;
    let zone = receiver.into_zone()?;
    Ok(zone.print(alloc, DisplayKind::Simple)?)
}

fn main(rt: HostRuntime) -> Result<()> {
    let mut text = Vec::new(rt.alloc());
    rt.reader().read_to_end(&mut text)?;

    let zone = Zone::from_text(rt.alloc(), text, None, Class::IN)?;
    let query = axfr_query(rt.alloc(), 4660, zone.class(), &zone.apex())?;
    let stream = send(rt.alloc(), &zone, query.as_slice(), MAX, Spelling::Tree)?;
    println!(rt; "; {} in {} octets", zone.apex(), stream.len())?;

    let again = receive(rt.alloc(), query.as_slice(), stream.as_slice())?;
    io::writer(&rt).write_all(again.as_slice())?;
    Ok(())
}
