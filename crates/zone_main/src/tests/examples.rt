//! The zone of two records, the query for it and its streams, as octets written out by hand; and runs over them.

use dns_name::{Class, Name};
use std::alloc::{AllocError, Global};
use std::test::Fail;
use zonewire::{
    DisplayKind, Fault, Job, SendError, Spelling, StdSink, StdSource, WordsFault, Zone, ZoneError,
    run, send,
};

pub(crate) const SOA_ROW: &[u8] = b"a. 60 IN SOA b. c. 1 2 3 4 5\n";

pub(crate) const ZONE: &[u8] = b"a. 60 IN SOA b. c. 1 2 3 4 5\na. 60 IN A 1.2.3.4\n";

/// The query `a. IN AXFR` with ID 0x1234.
pub(crate) const QUERY: &[u8] =
    b"\x12\x34\x00\x00\x00\x01\x00\x00\x00\x00\x00\x00\x01a\x00\x00\xfc\x00\x01";

const QUESTION: &[u8] = b"\x01a\x00\x00\xfc\x00\x01";

const SOA: &[u8] =
    b"\x01a\x00\x00\x06\x00\x01\x00\x00\x00\x3c\x00\x1a\x01b\x00\x01c\x00\x00\x00\x00\x01\x00\x00\x00\x02\x00\x00\x00\x03\x00\x00\x00\x04\x00\x00\x00\x05";

const ADDRESS: &[u8] = b"\x01a\x00\x00\x01\x00\x01\x00\x00\x00\x3c\x00\x04\x01\x02\x03\x04";

/// Appends a frame: the length, the header of an answer to the query that counts `answers` records, the question, and
/// the records.
fn append_frame(
    stream: &mut Vec<u8>,
    length: u8,
    answers: u8,
    records: &[&[u8]],
) -> Result<(), AllocError> {
    stream.extend_from_slice(&[0, length])?;
    stream.extend_from_slice(&[0x12, 0x34, 0x84, 0, 0, 1, 0, answers, 0, 0, 0, 0])?;
    stream.extend_from_slice(QUESTION)?;
    for record in records {
        stream.extend_from_slice(record)?;
    }
    Ok(())
}

/// Returns the stream of the two records in one message.
pub(crate) fn one_message(alloc: Global) -> Result<Vec<u8>, AllocError> {
    let mut stream = Vec::new(alloc);
    append_frame(&mut stream, 114, 3, &[SOA, ADDRESS, SOA])?;
    Ok(stream)
}

/// Returns the stream of the two records with one record in each message.
pub(crate) fn three_messages(alloc: Global) -> Result<Vec<u8>, AllocError> {
    let mut stream = Vec::new(alloc);
    append_frame(&mut stream, 58, 1, &[SOA])?;
    append_frame(&mut stream, 36, 1, &[ADDRESS])?;
    append_frame(&mut stream, 58, 1, &[SOA])?;
    Ok(stream)
}

/// Returns the octets with the one at `place` replaced.
pub(crate) fn changed(
    alloc: Global,
    octets: &[u8],
    place: usize,
    octet: u8,
) -> Result<Vec<u8>, AllocError> {
    let mut other = Vec::from_slice(alloc, octets)?;
    if let Some(at) = other.get_mut(place) {
        *at = octet;
    }
    Ok(other)
}

/// Returns the text of the SOA and the row after it.
pub(crate) fn behind_soa(alloc: Global, row: &[u8]) -> Result<Vec<u8>, AllocError> {
    let mut text = Vec::from_slice(alloc, SOA_ROW)?;
    text.extend_from_slice(row)?;
    Ok(text)
}

/// Parses the zone of class IN of the text.
pub(crate) fn zone_of(alloc: Global, text: &[u8]) -> Result<Zone, ZoneError> {
    Zone::read(alloc, text, None, Class::IN)
}

/// Returns the stream of the zone for the query, in messages of at most `max` octets.
pub(crate) fn sent(
    alloc: Global,
    zone: &Zone,
    query: &[u8],
    max: u16,
) -> Result<Vec<u8>, SendError> {
    send(alloc, zone, query, max, Spelling::Plain)
}

/// Returns the job of sending a zone of class IN in messages of at most `max` octets.
pub(crate) fn send_job(max: u16) -> Job {
    Job::Send {
        origin: None,
        class: Class::IN,
        id: 0x1234,
        apex: None,
        max,
        spelling: Spelling::Plain,
    }
}

/// Returns the job of receiving the zone of this name and class.
pub(crate) fn receive_job(alloc: Global, apex: &str, class: Class) -> Result<Job, WordsFault> {
    Ok(Job::Receive {
        class,
        id: 0x1234,
        apex: Name::vec_from_str(alloc, apex)?,
        layout: DisplayKind::Simple,
    })
}

/// Returns what a run of the job writes for an input, and its fault. Fails if out of memory.
pub(crate) fn run_over(
    alloc: Global,
    input: &[u8],
    job: Job,
) -> Result<(Vec<u8>, Option<Fault>), Fail> {
    let mut output = Vec::with_capacity(alloc, 200)?;
    let mut source = StdSource::new(input);
    let mut sink = StdSink::new(&mut output);
    let fault = run(alloc, &mut source, &mut sink, job).err();
    if fault == Some(Fault::OutOfMemory) {
        return Err(Fault::OutOfMemory.into());
    }
    Ok((output, fault))
}
