//! Pushing an OPT record (RFC 6891 6.1).
use super::SectionBuilder;
use crate::opt::OptBuilder;
use crate::section::Additionals;
use dns_name::{AppendError, Composer};
use dns_sections::PushError;

impl<Target: Composer> SectionBuilder<Target, Additionals> {
    ghost use Rattle.std.specs.Prelude.{◌≡◌, OnOk, OnErr, IfErr};
    ghost use Rattle.dns_builder.specs.OptAdded.{AddsOpt, RefusesOpt};
    ghost use Rattle.dns_builder.specs.OptSeen.{opt_in, OnlyBuilds};
    ghost use Rattle.dns_builder.specs.Steps.{KeepsLimits};
    ghost use Rattle.dns_builder.specs.Seen.{draft_of, target_in};

    /// Appends an OPT record and counts it. The closure builds the record, starting from zeros and no options. It must
    /// change only the record and the response code, as the calls of the builder do. If the call fails, nothing
    /// changes, not even the response code.
    ///
    /// Fails with `ShortBuf` only if the target is too full, with the error of the first call in the closure that
    /// failed, whatever the closure returns, with the closure's error, with `LimitExceeded` if the message would be as
    /// long as the push limit or longer, with `CountOverflow` if the section has 65,535 records, and with `OutOfMemory`
    /// if out of memory.
    pub fn opt<F>(&mut self, op: F) -> Result<(), PushError>
    where
        F: FnOnce(&mut OptBuilder<Target>) -> Result<(), AppendError>,
        requires callable { F.IsAlwaysCallable op }
        requires builds { OnlyBuilds Target.list Target.known Target.bound Target.stays F.FnOnce op }
        ensures ok { OnOk result (AddsOpt F.FnOnce (opt_in Target.list) op Target.spelling (draft_of self.old) (draft_of self.new)) }
        ensures err { OnErr result ((draft_of self.new) ≡ (draft_of self.old)) }
        ensures why { IfErr result (RefusesOpt F.FnOnce (opt_in Target.list) op Target.spelling (draft_of self.old)) }
        ensures limits { KeepsLimits (draft_of self.old) (draft_of self.new) }
        ensures stays { Target.stays (target_in self.old) (target_in self.new) }
    {
        self.draft.push_opt(op)
    }
}
