//! Runs in which one read or one write fails, at each call of a whole run in turn.

use super::examples::{ZONE, one_message, send_job};
use std::alloc::Global;
use std::test::Fail;
use zonewire::{Fault, StepSink, StepSource, run};

/// Returns what a run over the zone of two records writes, and its fault. The calls of the source and the sink with
/// these numbers fail.
fn run_by_steps(
    alloc: Global,
    read: Option<usize>,
    write: Option<usize>,
) -> (StepSink, Option<Fault>) {
    let mut source = StepSource::new(ZONE, read);
    let mut sink = StepSink::new(alloc, write);
    let fault = run(alloc, &mut source, &mut sink, send_job(512)).err();
    (sink, fault)
}

/// Nothing is written then. A whole run reads each octet, and then the end.
#[test]
fn each_read_fails_in_turn(rt: HostRuntime) -> Result<(), Fail> {
    let alloc = rt.alloc();
    for call in 1..ZONE.len() + 2 {
        let (sink, fault) = run_by_steps(alloc, Some(call), None);
        assert!(rt; fault == Some(Fault::Read) && sink.written().is_empty());
    }
    Ok(())
}

/// The octets before the failed write stay written. A run without a failed call reads and writes all octets.
#[test]
fn each_write_fails_in_turn(rt: HostRuntime) -> Result<(), Fail> {
    let alloc = rt.alloc();
    let stream = one_message(alloc)?;
    assert!(rt; stream.len() == 116);
    for taken in 0..stream.len() {
        let (sink, fault) = run_by_steps(alloc, None, Some(taken + 1));
        assert!(rt; fault == Some(Fault::Write) && sink.written() == &stream[..taken]);
    }
    let (sink, fault) = run_by_steps(alloc, Some(ZONE.len() + 2), Some(117));
    assert!(rt; fault.is_none() && sink.written() == stream.as_slice());
    Ok(())
}
