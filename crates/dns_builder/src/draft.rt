//! The common part of all builders: a target, the start of each section in it, and the push limit.
ghost use Rattle.std.specs.Prelude.{◌≡◌, ◌≤◌, ◌<◌, ℕ, true, length, slice_index};
ghost use Rattle.dns_name.specs.Remembered.{is_free};

mod opt;
mod push;
mod steps;
mod views;

use crate::opt::OptBuilder;
use arrayvec::ArrayVec;
use dns_name::{AppendError, Composer};

/// A message that is being built.
#[derive(Debug, Drop)]
pub(crate) struct Draft<Target: Composer> {
    /// The target, and the OPT record at its end while one is built.
    opt: OptBuilder<Target>,
    /// The start of each section that was started.
    starts: ArrayVec<usize, 4>,
    /// Items are pushed only if the message stays shorter than this.
    limit: usize,
    ghost header: { 12 ≤ length (Target.list opt.target) },
    ghost free: { is_free 0 12 (Target.known opt.target) ≡ true },
    ghost behind: { (number : ℕ) → number < length starts.items → 12 ≤ slice_index starts.items number },
}

impl<Target: Composer + Drop> Draft<Target> {
    ghost use Rattle.std.specs.Prelude.{Err, IfOk, OnOk};
    ghost use Rattle.dns_octets.specs.Builder.{IsWithin, IsPast};
    ghost use Rattle.dns_octets.specs.declared.error.AppendError.TheVariants.{ShortBuf, BadLength};
    ghost use Rattle.dns_builder.specs.Seen.{draft_in, held_in};
    ghost use Rattle.dns_builder.specs.Built.{empty_draft};

    /// Empties the target, and appends a header of twelve octets that are zero.
    pub(crate) fn new(mut target: Target) -> Result<Self, AppendError>
        ensures ok { IfOk result (λ draft. draft_in draft ≡ empty_draft (Target.bound target)) }
        ensures short { result ≡ Err ShortBuf → IsPast (Target.bound target) 12 }
        ensures fits { OnOk result (IsWithin (Target.bound target) 12) }
        ensures not_bad { result ≡ Err BadLength → ⊥ }
        ensures stays { IfOk result (λ draft. Target.stays target (held_in draft)) }
    {
        target.truncate(0);
        target.append_slice(&[0; 12])?;
        Ok(Draft {
            opt: OptBuilder::over(target),
            starts: ArrayVec::new(),
            limit: usize::MAX,
        })
    }
}
