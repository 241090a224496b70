//! A source in memory with one read that may fail.
ghost use Rattle.std.specs.Prelude.{◌≡◌, ◌<◌, ◌≤◌, ◌↔◌, Some, false, length, IfOk, IsErr};
ghost use Rattle.std.specs.Io.KnownBytes.{ReadConsumes};
ghost use Rattle.zonewire.specs.Steps.{less_one};
ghost use Rattle.zonewire.specs.Stream.{MarksFailure};

use crate::source::{Source, SourceError};
use std::marker::Model;

/// A source in memory. Each call reads one octet, or none at the end. One call may fail.
#[derive(Debug, Drop)]
pub struct StepSource<'a> {
    left: &'a [u8],
    fails_at: Option<usize>,
    has_failed: bool,
}

impl<'a> Model for StepSource<'a> {
    ghost use Rattle.zonewire.specs.Steps.{Steps};

    ghost Value = { Steps };

    ghost view = { λ s. record { octets = s.left.now; fails_at = s.fails_at; failed = s.has_failed } };
}

impl<'a> StepSource<'a> {
    /// Returns a source of these octets. The call with the number `fails_at`, counted from 1, fails.
    pub fn new(octets: &'a [u8], fails_at: Option<usize>) -> StepSource<'a>
        ensures { result ≡ record { octets = octets.now; fails_at = fails_at; failed = false } }
    {
        StepSource {
            left: octets,
            fails_at,
            has_failed: false,
        }
    }

    /// Returns the octets that are left.
    pub fn left(&self) -> &'a [u8]
        ensures { result.now ≡ self.now.octets }
    {
        self.left
    }
}

impl<'a> Source for StepSource<'a> {
    ghost remaining = { λ s. Some s.octets };

    ghost failed = { λ s. s.failed };

    fn read_some(&mut self, piece: &mut [u8]) -> Result<usize, SourceError>
        requires { 0 < length piece.old }
        ensures within { IfOk result (λ n. n ≤ length piece.new) }
        ensures octets { ReadConsumes (Some self.old.octets) (Some self.new.octets) result piece.new }
        ensures marks { MarksFailure self.old.failed self.new.failed result }

        // Each call reads at most one octet. The call with the number fails, and no other.
        ensures one { IfOk result (λ n. n ≤ 1) }
        ensures fails { IsErr result ↔ (self.old.fails_at ≡ Some 1) }
        ensures counts { self.new.fails_at ≡ less_one self.old.fails_at }
    {
        let fails = self.fails_at == Some(1);
        self.fails_at = self.fails_at.map(|k| k.saturating_sub(1));
        if fails {
            self.has_failed = true;
            return Err(SourceError);
        }
        let count = self.left.len().min(1);
        piece[..count].copy_from_slice(&self.left[..count]);
        self.left = &self.left[count..];
        Ok(count)
    }
}
