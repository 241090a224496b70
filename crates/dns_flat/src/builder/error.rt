//! Why a name was not appended to one that is built.
ghost use Rattle.std.specs.Prelude.{◌≡◌};
ghost use Rattle.dns_flat.specs.declared.builder.error.PushNameError.TheVariants as push_name_error;

use dns_octets::AppendError;
use thiserror::Error;

/// Why a name was not appended to another one.
#[derive(Clone, Copy, Debug, PartialEq, Eq, Error)]
pub enum PushNameError {
    /// The name would be too long.
    #[error("long domain name")]
    LongName,
    /// There is no room or no memory for it.
    #[error("short buffer")]
    ShortBuf,
}

impl From<AppendError> for PushNameError {
    ghost from_gives = { λ _ error. error ≡ push_name_error.ShortBuf };

    fn from(_: AppendError) -> PushNameError {
        PushNameError::ShortBuf
    }
}
