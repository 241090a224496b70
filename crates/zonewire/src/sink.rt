//! Sinks for the program's output.
ghost use Rattle.std.specs.Prelude.{◌≡◌, ◌<◌, ◌≤◌, ℕ, Bool, List, Option, false, true, length, IfOk, OnOk, OnErr};
ghost use Rattle.std.specs.Io.KnownBytes.{Appends, WriteAppends};
ghost use Rattle.zonewire.specs.Stream.{AppendsBeginning, MarksFailure};

use std::io::Write;
use thiserror::Error;

/// A write failed.
#[derive(Clone, Copy, Debug, PartialEq, Eq, Error)]
#[error("write failed")]
pub struct SinkError;

/// Octets are written to a sink.
///
/// `written` is the octets that it took, if the sink knows them. `failed` is false until a write fails, and true from
/// then on.
pub trait Sink {
    ghost written: { Self → Option (List ℕ) };

    ghost failed: { Self → Bool };

    /// Takes at least one octet from the front of a piece that is not empty, and returns how many. Fails with
    /// `SinkError` if the write fails, and then takes nothing.
    fn write_some(&mut self, piece: &[u8]) -> Result<usize, SinkError>
        requires { 0 < length piece.now }
        ensures some { IfOk result (λ n. 0 < n) }
        ensures within { IfOk result (λ n. n ≤ length piece.now) }
        ensures octets { WriteAppends (written self.old) (written self.new) result piece.now }
        ensures marks { MarksFailure (failed self.old) (failed self.new) result };
}

/// A `Write` of `std` as a sink.
#[derive(Debug, Drop)]
pub struct StdSink<W: Write> {
    writer: W,
    has_failed: bool,
}

impl<W: Write> StdSink<W> {
    /// Returns a sink over this writer. No write has failed.
    pub fn new(writer: W) -> StdSink<W>
        ensures { result ≡ record { writer = writer; has_failed = false } }
    {
        StdSink {
            writer,
            has_failed: false,
        }
    }
}

impl<W: Write> Sink for StdSink<W> {
    ghost written = { λ s. W.contents s.writer };

    ghost failed = { λ s. s.has_failed };

    /// An interruption, and a write that takes nothing, are failed writes too.
    fn write_some(&mut self, piece: &[u8]) -> Result<usize, SinkError> {
        match self.writer.write(piece) {
            Ok(count) if count > 0 => Ok(count),
            _ => {
                self.has_failed = true;
                Err(SinkError)
            }
        }
    }
}

/// Writes all the octets. If a write fails, a front of them is written.
pub(crate) fn write_all<S: Sink>(sink: &mut S, octets: &[u8]) -> Result<(), SinkError>
    ensures whole { OnOk result (Appends (S.written sink.old) (S.written sink.new) octets.now) }
    ensures part { OnErr result
        (AppendsBeginning (S.written sink.old) (S.written sink.new) octets.now) }
    ensures marks { MarksFailure (S.failed sink.old) (S.failed sink.new) result }
{
    let mut rest = octets;
    while !rest.is_empty() {
        let count = sink.write_some(rest)?;
        rest = &rest[count..];
    }
    Ok(())
}
