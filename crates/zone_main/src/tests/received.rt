//! Streams that are received: cut short at every place, and sent again.

use super::examples::{
    QUERY, ZONE, one_message, receive_job, run_over, sent, three_messages, zone_of,
};
use dns_name::Class;
use std::alloc::Global;
use std::test::Fail;
use zonewire::{DisplayKind, Fault, ReceiveError, Receiver};

/// Returns whether a run for the zone `a.` fails with the error and writes nothing.
fn run_refuses(alloc: Global, input: &[u8], error: ReceiveError) -> Result<bool, Fail> {
    let job = receive_job(alloc, "a.", Class::IN)?;
    let (output, fault) = run_over(alloc, input, job)?;
    Ok(output.is_empty() && fault == Some(Fault::Receive(error)))
}

/// Returns whether a receiver takes the whole stream and has no zone yet.
fn is_begun(alloc: Global, stream: &[u8]) -> Result<bool, Fail> {
    let mut receiver = Receiver::new(alloc, QUERY)?;
    let taken = receiver.feed(stream)?;
    let is_done = receiver.is_done();
    Ok(
        taken == stream.len()
            && !is_done
            && receiver.into_zone().err() == Some(ReceiveError::Unfinished),
    )
}

/// Each proper front of a stream is only begun, also the empty one.
#[test]
fn streams_that_are_only_begun(rt: HostRuntime) -> Result<(), Fail> {
    let alloc = rt.alloc();
    for stream in [one_message(alloc)?, three_messages(alloc)?] {
        for cut in 0..stream.len() {
            let front = stream.get(..cut).unwrap_or_default();
            assert!(rt; run_refuses(alloc, front, ReceiveError::Unfinished)?);
            assert!(rt; is_begun(alloc, front)?);
        }
    }
    Ok(())
}

/// The stream of the zone's text is received as a zone with the same text, and is sent again as the same stream.
#[test]
fn zones_that_go_both_ways(rt: HostRuntime) -> Result<(), Fail> {
    let alloc = rt.alloc();
    let cases: [(&[u8], u16); 9] = [
        (ZONE, 58),
        (ZONE, 75),
        (ZONE, 113),
        (ZONE, 114),
        (ZONE, 65535),
        (
            b"a. 60 IN SOA b. c. 1 2 3 4 5\na\\;b.a. 60 IN A 1.2.3.4\n",
            512,
        ),
        (
            b"a. 60 IN SOA b. c. 1 2 3 4 5\n\\$x.a. 60 IN A 255.0.0.1\n",
            512,
        ),
        (
            b"A. 0 IN SOA B.c. \\000. 4294967295 2 3 4 5\nx.a. 4294967295 IN A 0.0.0.0\n",
            512,
        ),
        (b"a. 60 IN SOA b. c. 1 2 3 4 5\n", 58),
    ];
    for (text, max) in cases {
        let read = zone_of(alloc, text)?;
        let stream = sent(alloc, &read, QUERY, max)?;
        let mut receiver = Receiver::new(alloc, QUERY)?;
        for piece in stream.as_slice().chunks(7) {
            assert!(rt; receiver.feed(piece) == Ok(piece.len()));
        }
        let zone = receiver.into_zone()?;
        assert!(rt; zone.records().count() == read.records().count());
        let printed = zone.print(alloc, DisplayKind::Simple)?;
        assert!(rt; printed.as_slice() == text);
        let read_again = zone_of(alloc, printed.as_slice())?;
        let again = sent(alloc, &read_again, QUERY, max)?;
        assert!(rt; again.as_slice() == stream.as_slice());
    }
    Ok(())
}
