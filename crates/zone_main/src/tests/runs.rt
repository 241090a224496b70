//! Runs over readers and writers that take few octets at a time, and the texts of faults.

use super::examples::{QUERY, SOA_ROW, ZONE, one_message, receive_job, send_job, sent, zone_of};
use dns_name::Class;
use std::io::{self, Read, Write};
use std::test::Fail;
use zonewire::{
    Fault, ReceiveError, Sink, SinkError, Source, SourceError, StdSink, StdSource, WordsFault,
    ZoneError, run,
};

/// The input is longer than what is asked of a reader at a time.
#[test]
fn input_is_read_to_its_end(rt: HostRuntime) -> Result<(), Fail> {
    let alloc = rt.alloc();
    let mut text = Vec::from_slice(alloc, SOA_ROW)?;
    for _ in 0..4000 {
        text.extend_from_slice(b"a. 60 IN A 1.2.3.4\n")?;
    }
    assert!(rt; text.len() == 76029);
    let zone = zone_of(alloc, text.as_slice())?;
    let stream = sent(alloc, &zone, QUERY, 512)?;
    let mut output = Vec::with_capacity(alloc, stream.len())?;
    let mut source = StdSource::new(text.as_slice());
    let mut sink = StdSink::new(&mut output);
    run(alloc, &mut source, &mut sink, send_job(512))?;
    assert!(rt; output.as_slice() == stream.as_slice());
    let mut rest = [0u8; 4];
    assert!(rt; source.read_some(&mut rest) == Ok(0));
    Ok(())
}

/// A reader of `left` octets, at most `most` a call. After them each call is interrupted.
#[derive(Drop)]
struct Breaking {
    left: usize,
    most: usize,
}

impl Read for Breaking {
    fn read(&mut self, buf: &mut [u8]) -> io::Result<usize> {
        let count = self.left.min(self.most).min(buf.len());
        if count == 0 {
            return Err(io::Error::from(io::ErrorKind::Interrupted));
        }
        self.left -= count;
        Ok(count)
    }
}

#[test]
fn a_read_that_fails_in_the_middle(rt: HostRuntime) -> Result<(), Fail> {
    let alloc = rt.alloc();
    let mut output = Vec::<u8>::with_capacity(alloc, 200)?;
    let mut source = StdSource::new(Breaking { left: 5, most: 3 });
    let mut sink = StdSink::new(&mut output);
    assert!(rt; run(alloc, &mut source, &mut sink, send_job(512)) == Err(Fault::Read));
    let mut rest = [0u8; 4];
    assert!(rt; source.read_some(&mut rest) == Err(SourceError) && output.is_empty());
    Ok(())
}

/// A writer that keeps what it takes, at most `most` octets a call.
#[derive(Drop)]
struct Keeping {
    kept: Vec<u8>,
    most: usize,
}

impl Write for Keeping {
    fn write(&mut self, buf: &[u8]) -> io::Result<usize> {
        let count = self.most.min(buf.len());
        self.kept.extend_from_slice(&buf[..count])?;
        Ok(count)
    }

    fn flush(&mut self) -> io::Result<()> {
        Ok(())
    }
}

#[test]
fn output_is_written_by_threes(rt: HostRuntime) -> Result<(), Fail> {
    let alloc = rt.alloc();
    let stream = one_message(alloc)?;
    let kept = Vec::with_capacity(alloc, 200)?;
    let mut writer = Keeping { kept, most: 3 };
    let mut source = StdSource::new(stream.as_slice());
    let mut sink = StdSink::new(&mut writer);
    assert!(rt; sink.write_some(b"octets") == Ok(3));
    let job = receive_job(alloc, "a.", Class::IN)?;
    run(alloc, &mut source, &mut sink, job)?;
    let mut all = Vec::from_slice(alloc, b"oct")?;
    all.extend_from_slice(ZONE)?;
    assert!(rt; writer.kept.as_slice() == all.as_slice());
    Ok(())
}

/// Only a run with output fails.
#[test]
fn a_write_that_takes_nothing(rt: HostRuntime) -> Result<(), Fail> {
    let alloc = rt.alloc();
    let kept = Vec::new(alloc);
    let mut writer = Keeping { kept, most: 0 };
    let mut sink = StdSink::new(&mut writer);
    let cases: [(&[u8], Fault); 2] = [(ZONE, Fault::Write), (b"", Fault::Zone(ZoneError::NoSoa))];
    for (input, fault) in cases {
        let mut source = StdSource::new(input);
        assert!(rt; run(alloc, &mut source, &mut sink, send_job(512)) == Err(fault));
    }
    assert!(rt; sink.write_some(b"octets") == Err(SinkError) && writer.kept.is_empty());
    Ok(())
}

#[test]
fn texts_of_other_faults(rt: HostRuntime) -> Result<(), Fail> {
    let alloc = rt.alloc();
    let texts = [
        (WordsFault::BadName, "bad name"),
        (WordsFault::BadClass, "bad class"),
        (WordsFault::OutOfMemory, "out of memory"),
    ];
    for (fault, text) in texts {
        assert!(rt; format!(in alloc; "{fault}")?.as_str() == text);
    }
    let faults = [
        (Fault::Read, "read failed"),
        (Fault::Write, "write failed"),
        (Fault::OutOfMemory, "out of memory"),
        (Fault::Receive(ReceiveError::OutOfMemory), "out of memory"),
    ];
    for (fault, text) in faults {
        assert!(rt; format!(in alloc; "{fault}")?.as_str() == text);
    }
    assert!(rt; format!(in alloc; "{SourceError}")?.as_str() == "read failed");
    assert!(rt; format!(in alloc; "{SinkError}")?.as_str() == "write failed");
    Ok(())
}
