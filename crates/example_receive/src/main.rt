//! A query made, and its answers received in pieces.
//!
//! Makes the query for a zone's transfer, takes the answers from standard input, and shows the zone's records. The
//! answers are a stream, as TCP has it: messages, each after its length in two octets. To run it:
//! `cd crates/example_receive && rt try < stdin`.
#![tactic(auto)]

use anyhow::Result;
use std::io;
use std::io::Read;
use zonewire::{Class, Name, Receiver, Zone, axfr_query};

/// Reads the next piece of the stream, of any length, and passes it on. Returns whether more has to come.
fn take_piece(receiver: &mut Receiver, stream: &mut impl Read) -> Result<bool> {
    let mut piece = [0; 100];
    let count = stream.read(&mut piece)?;
    receiver.feed(&piece[..count])?;
    Ok(count > 0 && !receiver.is_done())
}

/// Shows the records of a zone: owner, TTL, type and data.
fn show(rt: &impl Print, zone: &Zone) -> io::Result<()> {
    for record in zone.records() {
        println!(rt;
            "{} {} {} {}",
            record.owner(),
            record.ttl().as_secs(),
            record.rtype(),
            record.parse_data()
        )?;
    }
    Ok(())
}

fn main(rt: HostRuntime) -> Result<()> {
    let apex = Name::vec_from_str(rt.alloc(), "example.com.")?;
    let query = axfr_query(rt.alloc(), 4660, Class::IN, &apex.for_ref())?;
    println!(rt; "the query: {} octets", query.len())?;

    let mut receiver = Receiver::new(rt.alloc(), query.as_slice())?;
    let mut stream = rt.reader();
    for _ in 0..u64::MAX {
        if !take_piece(&mut receiver, &mut stream)? {
            break;
        }
    }

    // Fails if the transfer is not complete.
    let zone = receiver.into_zone()?;
    show(&rt, &zone)?;
    Ok(())
}
