//! A run of the program, from its input to its output.
ghost use Rattle.std.specs.Prelude.{◌≡◌, ◌≢◌, ◌↔◌, ℕ, List, length, Option, false, IfOk, IfErr, IfSome, IsErrOf, IsTrue, OnOk};
ghost use Rattle.zone_records.specs.Record.{Record};
ghost use Rattle.zone.specs.ZoneText.{IsZoneFault, IsZoneText};
ghost use Rattle.std.specs.Io.KnownBytes.{Appends, IsAtEnd};
ghost use Rattle.zonewire.specs.Output.{IsOutput, IsJobFault, IsNotReceived, IsReceived, IsReceiveJobFault, IsReceiveOutput, IsSendOutput, IsSendJobFault, count_line, query_of};
ghost use Rattle.zone_core.specs.Query.{query_octets};
ghost use Rattle.zonewire.specs.Stream.{AppendsBeginning};
ghost use Rattle.zonewire.specs.declared.fault.Fault.TheVariants as fault;

use crate::fault::Fault;
use crate::sink::{Sink, write_all};
use crate::source::{Source, read_all};
use dns_name::{Class, Name};
use dns_text::DisplayKind;
use std::alloc::{AllocError, Global};
use zone::{Zone, ZoneError};
use zone_core::axfr_query;
use zone_receive::{ReceiveError, Receiver};
use zone_send::{Spelling, send};
use zonewire_words::Job;

/// Reads all the input, and writes the output of the job for it.
///
/// Fails with `Read` if a read fails, with `Write` if a write fails, and otherwise with the job's own fault. Nothing is
/// written before the whole output is there: after any fault but `Write` the sink is as it was, and after `Write` it
/// holds a front of the output.
pub fn run<R: Source, W: Sink>(
    alloc: Global,
    source: &mut R,
    sink: &mut W,
    job: Job,
) -> Result<(), Fault>
    // The octets written are the output of the job for all the input.
    ensures written { OnOk result (IfSome (R.remaining source.old) (λ input.
        (output : List ℕ) × IsOutput job input output × Appends (W.written sink.old) (W.written sink.new) output)) }

    // The source is read to its end, unless a read fails or memory runs out.
    ensures ended { OnOk result (IsAtEnd (R.remaining source.new)) }
    ensures drained { IfErr result (λ error. error ≢ fault.Read → error ≢ fault.OutOfMemory → IsAtEnd (R.remaining source.new)) }

    // A fault of the job is its fault for all the input, and nothing is written unless a write fails.
    ensures faults { IfErr result (λ error. error ≢ fault.Read → error ≢ fault.Write →
        IfSome (R.remaining source.old) (λ input. IsJobFault job input error)) }
    ensures silent { IfErr result (λ error. error ≢ fault.Write → sink.new ≡ sink.old) }

    // `Read` exactly if the source fails, and `Write` exactly if the sink fails, provided it had not failed before.
    // After `Write` a front of the output is written.
    ensures read { R.failed source.old ≡ false → (IsErrOf result fault.Read ↔ IsTrue (R.failed source.new)) }
    ensures write { W.failed sink.old ≡ false → (IsErrOf result fault.Write ↔ IsTrue (W.failed sink.new)) }
    ensures part { IfErr result (λ error. error ≡ fault.Write → IfSome (R.remaining source.old) (λ input.
        (output : List ℕ) × IsOutput job input output × AppendsBeginning (W.written sink.old) (W.written sink.new) output)) }
{
    let input = read_all(alloc, source)?;
    let output = output(alloc, input, &job)?;
    write_all(sink, output.as_slice())?;
    Ok(())
}

/// Returns the output of the job for the input, or fails with its fault. A zone may be large, so the input is dropped
/// once it is read.
fn output(alloc: Global, input: Vec<u8>, job: &Job) -> Result<Vec<u8>, Fault>
    ensures ok { IfOk result (λ output. IsOutput job.now input.items output.items) }
    ensures err { IfErr result (IsJobFault job.now input.items) }
{
    match job {
        Job::Send {
            origin,
            class,
            id,
            apex,
            max,
            spelling,
        } => {
            let zone = read_zone(alloc, input, origin, *class)?;
            send_zone(alloc, &zone, *id, apex, *max, *spelling)
        }
        Job::Receive {
            class,
            id,
            apex,
            layout,
        } => receive_text(alloc, input, *class, *id, apex, *layout),
        Job::Check { origin, class } => {
            let count = count_zone(alloc, input, origin, *class)?;
            let line = count_line(alloc, count)?;
            Ok(line)
        }
        Job::Canon { origin, class } => {
            let zone = read_zone(alloc, input, origin, *class)?;
            let octets = zone.canonical(alloc)?;
            Ok(octets)
        }
    }
}

/// Returns the line with the number of a zone's records. Fails if out of memory.
fn count_line(alloc: Global, count: usize) -> Result<Vec<u8>, AllocError>
    ensures { IfOk result (λ line. (records : List Record) → count ≡ length records → line.items ≡ count_line records) }
{
    let line = format!(in alloc; "{count} records\n")?;
    Ok(line.into_bytes())
}

/// Returns the stream of the zone for the job's query. Fails if nothing is sent for it, or if out of memory.
fn send_zone(
    alloc: Global,
    zone: &Zone,
    id: u16,
    apex: &Option<Name<Vec<u8>>>,
    max: u16,
    spelling: Spelling,
) -> Result<Vec<u8>, Fault>
    ensures ok { (origin : Option (List (List ℕ))) (class : ℕ) (input : List ℕ)
        → IsZoneText input origin class zone.now.records → zone.now.class ≡ class
        → IfOk result (λ output. IsSendOutput origin class id apex.now max spelling input output.items) }
    ensures err { (origin : Option (List (List ℕ))) (class : ℕ) (input : List ℕ)
        → IsZoneText input origin class zone.now.records → zone.now.class ≡ class
        → IfErr result (IsSendJobFault origin class id apex.now max spelling input) }
{
    let query = zone_query(alloc, id, apex, zone)?;
    match send(alloc, zone, query.as_slice(), max, spelling) {
        Ok(stream) => Ok(stream),
        Err(error) => Err(Fault::from(error)),
    }
}

/// Parses the zone of the text, with the job's origin and class. Fails with the first rule that the text breaks, or if
/// out of memory.
fn read_zone(
    alloc: Global,
    input: Vec<u8>,
    origin: &Option<Name<Vec<u8>>>,
    class: Class,
) -> Result<Zone, ZoneError>
    ensures ok { IfOk result (λ zone. IsZoneText input.items origin.now class zone.records) }
    ensures class_is { IfOk result (λ zone. zone.class ≡ class) }
    ensures err { IfErr result (IsZoneFault input.items origin.now class) }
{
    match origin {
        Some(name) => {
            let name = name.for_ref();
            Zone::from_text(alloc, input, Some(&name), class)
        }
        None => Zone::from_text(alloc, input, None, class),
    }
}

/// Counts the records of the zone of the text, with the job's origin and class. Not all of them are kept in memory.
/// Fails with the first rule that the text breaks, or if out of memory.
fn count_zone(
    alloc: Global,
    input: Vec<u8>,
    origin: &Option<Name<Vec<u8>>>,
    class: Class,
) -> Result<usize, ZoneError>
    ensures ok { IfOk result (λ count. (records : List Record) × IsZoneText input.items origin.now class records × (count ≡ length records)) }
    ensures err { IfErr result (IsZoneFault input.items origin.now class) }
{
    match origin {
        Some(name) => {
            let name = name.for_ref();
            Zone::count_records(alloc, input, Some(&name), class)
        }
        None => Zone::count_records(alloc, input, None, class),
    }
}

/// Returns the text of the zone whose transfer the input begins with, for the job's query. Fails if it begins with no
/// such transfer, or if out of memory.
fn receive_text(
    alloc: Global,
    input: Vec<u8>,
    class: Class,
    id: u16,
    apex: &Name<Vec<u8>>,
    layout: DisplayKind,
) -> Result<Vec<u8>, Fault>
    ensures ok { IfOk result (λ output. IsReceiveOutput class id apex.now layout input.items output.items) }
    ensures err { IfErr result (IsReceiveJobFault class id apex.now input.items) }
{
    let query = axfr_query(alloc, id, class, &apex.for_ref())?;
    let zone = receive_zone(alloc, input.as_slice(), query.as_slice())?;
    drop(input);
    let text = zone.print(alloc, layout)?;
    Ok(text)
}

/// Receives the zone whose transfer the input begins with, for the query. Fails if it begins with no such transfer, or
/// if out of memory.
fn receive_zone(alloc: Global, input: &[u8], query: &[u8]) -> Result<Zone, ReceiveError>
    ensures ok { IfOk result (λ zone. IsReceived query.now input.now zone.records) }
    ensures err { IfErr result (IsNotReceived query.now input.now) }
{
    let mut receiver = Receiver::new(alloc, query)?;
    receiver.feed(input)?;
    receiver.into_zone()
}

/// Returns the query for the zone's transfer, by the job's name, or by the zone's own if the job gives none. Fails if
/// out of memory.
fn zone_query(
    alloc: Global,
    id: u16,
    apex: &Option<Name<Vec<u8>>>,
    zone: &Zone,
) -> Result<Vec<u8>, AllocError>
    ensures { IfOk result (λ octets. octets.items ≡ query_octets (query_of id zone.now.class apex.now zone.now.records)) }
{
    match apex {
        Some(name) => axfr_query(alloc, id, zone.class(), &name.for_ref()),
        None => axfr_query(alloc, id, zone.class(), &zone.apex()),
    }
}
