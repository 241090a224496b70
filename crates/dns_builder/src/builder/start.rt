//! Starting a message.
use super::SectionBuilder;
use crate::draft::Draft;
use crate::section::Start;
use dns_name::{AppendError, Composer};
use std::alloc::Global;
use std::marker::PhantomData;

impl<Target: Composer + Drop> SectionBuilder<Target, Start> {
    ghost use Rattle.std.specs.Prelude.{◌≡◌, Err, IfOk, OnOk};
    ghost use Rattle.dns_octets.specs.Builder.{IsWithin, IsPast};
    ghost use Rattle.dns_octets.specs.declared.error.AppendError.TheVariants.{ShortBuf, BadLength};
    ghost use Rattle.dns_builder.specs.Built.{IsDraftOf, nothing_built};
    ghost use Rattle.dns_builder.specs.Seen.{draft_of, target_in};

    /// Empties the target, and returns a builder of a message in it, with all header bits clear.
    ///
    /// Fails with `ShortBuf` only if the target may not hold the twelve octets of a header, and with `OutOfMemory` if
    /// out of memory.
    pub fn from_target(target: Target) -> Result<Self, AppendError>
        ensures ok { IfOk result (λ builder. IsDraftOf Target.spelling nothing_built (draft_of builder)) }
        ensures limit { IfOk result (λ builder. (draft_of builder).limit ≡ usize.MAX) }
        ensures bound { IfOk result (λ builder. (draft_of builder).bound ≡ Target.bound target) }
        ensures short { result ≡ Err ShortBuf → IsPast (Target.bound target) 12 }
        ensures fits { OnOk result (IsWithin (Target.bound target) 12) }
        ensures not_bad { result ≡ Err BadLength → ⊥ }
        ensures stays { IfOk result (λ builder. Target.stays target (target_in builder)) }
    {
        let draft = Draft::new(target)?;
        Ok(SectionBuilder {
            draft,
            section: PhantomData,
        })
    }
}

impl SectionBuilder<Vec<u8>, Start> {
    ghost use Rattle.std.specs.Prelude.{◌≡◌, IfOk, IfErr};
    ghost use Rattle.dns_name.specs.Spelling.{plain};
    ghost use Rattle.dns_builder.specs.Built.{IsDraftOf, nothing_built};
    ghost use Rattle.dns_builder.specs.Seen.{draft_of};

    /// Returns a builder of a message over a vector, with all header bits clear. Fails only with `OutOfMemory`.
    pub fn new_vec(alloc: Global) -> Result<Self, AppendError>
        ensures ok { IfOk result (λ builder. IsDraftOf plain nothing_built (draft_of builder)) }
        ensures limit { IfOk result (λ builder. (draft_of builder).limit ≡ usize.MAX) }
        ensures memory { IfErr result (λ error. error ≡ AppendError.OutOfMemory) }
    {
        SectionBuilder::from_target(Vec::new(alloc))
    }
}
