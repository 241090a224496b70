//! Pushing an OPT record that a closure builds.
ghost use Rattle.std.specs.Prelude.{◌≡◌, length, OnOk, OnErr, IfErr};
ghost use Rattle.dns_builder.specs.OptAdded.{AddsOpt, RefusesOpt};
ghost use Rattle.dns_builder.specs.OptSeen.{opt_in, OnlyBuilds};
ghost use Rattle.dns_builder.specs.Steps.{KeepsLimits};
ghost use Rattle.dns_builder.specs.Seen.{draft_in, held_in};

use super::Draft;
use crate::opt::OptBuilder;
use dns_name::{AppendError, Composer};
use dns_sections::PushError;

impl<Target: Composer> Draft<Target> {
    /// Appends the OPT record that the closure builds, counts it in the additional section, which must be the last, and
    /// sets the response code in the header. If the call fails, nothing changes.
    pub(crate) fn push_opt<F>(&mut self, op: F) -> Result<(), PushError>
    where
        F: FnOnce(&mut OptBuilder<Target>) -> Result<(), AppendError>,
        requires last { length (draft_in self.old).starts ≡ 4 }
        requires callable { F.IsAlwaysCallable op }
        requires builds { OnlyBuilds Target.list Target.known Target.bound Target.stays F.FnOnce op }
        ensures ok { OnOk result (AddsOpt F.FnOnce (opt_in Target.list) op Target.spelling (draft_in self.old) (draft_in self.new)) }
        ensures err { OnErr result ((draft_in self.new) ≡ (draft_in self.old)) }
        ensures why { IfErr result (RefusesOpt F.FnOnce (opt_in Target.list) op Target.spelling (draft_in self.old)) }
        ensures limits { KeepsLimits (draft_in self.old) (draft_in self.new) }
        ensures starts { (draft_in self.new).starts ≡ (draft_in self.old).starts }
        ensures stays { Target.stays (held_in self.old) (held_in self.new) }
    {
        let len = self.opt.target.octets().len();
        let header = self.opt.append_opt(op)?;
        self.count_or_cut(3, len)?;
        self.set_header(header);
        Ok(())
    }
}
