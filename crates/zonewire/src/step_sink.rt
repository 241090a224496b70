//! A sink in memory with one write that may fail.
ghost use Rattle.std.specs.Prelude.{◌≡◌, ◌<◌, ◌≤◌, Some, [], false, length, IfOk, IsErr};
ghost use Rattle.std.specs.Io.KnownBytes.{WriteAppends};
ghost use Rattle.zonewire.specs.Steps.{less_one};
ghost use Rattle.zonewire.specs.Stream.{MarksFailure};

use crate::sink::{Sink, SinkError};
use std::alloc::Global;
use std::marker::Model;

/// A sink in memory. Each call takes one octet. One call may fail, and so does a call that runs out of memory.
#[derive(Debug, Drop)]
pub struct StepSink {
    written: Vec<u8>,
    fails_at: Option<usize>,
    has_failed: bool,
}

impl Model for StepSink {
    ghost use Rattle.zonewire.specs.Steps.{Steps};

    ghost Value = { Steps };

    ghost view = { λ s. record { octets = s.written.items; fails_at = s.fails_at; failed = s.has_failed } };
}

impl StepSink {
    /// Returns a sink that has taken nothing. The call with the number `fails_at`, counted from 1, fails.
    pub fn new(alloc: Global, fails_at: Option<usize>) -> StepSink
        ensures { result ≡ record { octets = []; fails_at = fails_at; failed = false } }
    {
        StepSink {
            written: Vec::new(alloc),
            fails_at,
            has_failed: false,
        }
    }

    /// Returns the octets that were written.
    pub fn written(&self) -> &[u8]
        ensures { result.now ≡ self.now.octets }
    {
        self.written.as_slice()
    }
}

impl Sink for StepSink {
    ghost written = { λ s. Some s.octets };

    ghost failed = { λ s. s.failed };

    fn write_some(&mut self, piece: &[u8]) -> Result<usize, SinkError>
        requires { 0 < length piece.now }
        ensures octets { WriteAppends (Some self.old.octets) (Some self.new.octets) result piece.now }
        ensures marks { MarksFailure self.old.failed self.new.failed result }

        // Each call takes one octet. The call with the number fails.
        ensures one { IfOk result (λ n. n ≡ 1) }
        ensures fails { self.old.fails_at ≡ Some 1 → IsErr result }
        ensures counts { self.new.fails_at ≡ less_one self.old.fails_at }
    {
        let fails = self.fails_at == Some(1);
        self.fails_at = self.fails_at.map(|k| k.saturating_sub(1));
        if fails || self.written.extend_from_slice(&piece[..1]).is_err() {
            self.has_failed = true;
            return Err(SinkError);
        }
        Ok(1)
    }
}
