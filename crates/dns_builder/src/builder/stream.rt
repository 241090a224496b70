//! Starting a message for a stream transport (RFC 1035 4.2.2).
use super::SectionBuilder;
use crate::section::Start;
use dns_compress::StreamTarget;
use dns_name::AppendError;
use std::alloc::Global;

impl SectionBuilder<StreamTarget<Vec<u8>>, Start> {
    ghost use Rattle.std.specs.Prelude.{◌≡◌, Some, IfOk, IfErr};
    ghost use Rattle.dns_name.specs.Spelling.{plain};
    ghost use Rattle.dns_builder.specs.Built.{IsDraftOf, nothing_built};
    ghost use Rattle.dns_builder.specs.Seen.{draft_of};

    /// Returns a builder of a message after its length, over a vector that grows on this allocator. All header bits are
    /// clear, and the message has at most 65,535 octets. Fails only with `OutOfMemory`.
    pub fn new_stream_vec(alloc: Global) -> Result<Self, AppendError>
        ensures ok { IfOk result (λ builder. IsDraftOf plain nothing_built (draft_of builder)) }
        ensures limit { IfOk result (λ builder. (draft_of builder).limit ≡ usize.MAX) }
        ensures bound { IfOk result (λ builder. (draft_of builder).bound ≡ Some 65535) }
        ensures memory { IfErr result (λ error. error ≡ AppendError.OutOfMemory) }
    {
        SectionBuilder::from_target(StreamTarget::new_vec(alloc)?)
    }
}
