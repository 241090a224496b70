//! Why a text is not rewritten.
ghost use Rattle.std.specs.Prelude.{◌≡◌};
ghost use Rattle.zone_forms.specs.declared.error.FormError.TheVariants.{OutOfMemory};

use std::alloc::AllocError;
use thiserror::Error;

/// Why a text is not rewritten.
#[derive(Clone, Copy, Debug, PartialEq, Eq, Error)]
pub enum FormError {
    /// The row that begins in this line, counted from 1, is no entry of a zone file.
    #[error("line {0} does not read")]
    Line(usize),
    /// Out of memory.
    #[error("out of memory")]
    OutOfMemory,
}

impl From<AllocError> for FormError {
    ghost from_gives = { λ _ error. error ≡ OutOfMemory };

    fn from(_: AllocError) -> FormError {
        FormError::OutOfMemory
    }
}
