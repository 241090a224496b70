//! Why octets were not appended to a name.
ghost use Rattle.std.specs.Prelude.{◌≡◌};
ghost use Rattle.dns_wire.specs.declared.push_error.PushError.TheVariants as push_error;

use dns_octets::AppendError;
use thiserror::Error;

/// Why octets or a label were not appended to a name.
#[derive(Clone, Copy, Debug, PartialEq, Eq, Error)]
pub enum PushError {
    /// The label would have more than 63 octets (RFC 1035, section 2.3.4).
    #[error("long label")]
    LongLabel,
    /// The name would have more than 254 octets, and no room for the root.
    #[error("long domain name")]
    LongName,
    /// Out of memory, or the target is too full.
    #[error("short buffer")]
    ShortBuf,
}

impl From<AppendError> for PushError {
    ghost from_gives = { λ _ error. error ≡ push_error.ShortBuf };

    fn from(_: AppendError) -> PushError {
        PushError::ShortBuf
    }
}
