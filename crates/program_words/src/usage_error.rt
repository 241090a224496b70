//! Why the words of the command line are not known.
ghost use Rattle.std.specs.Prelude.{◌≡◌};
ghost use Rattle.program_words.specs.declared.usage_error.UsageError.TheVariants.{OutOfMemory};

use std::alloc::AllocError;

/// Why the words are not known.
#[derive(Debug, Drop, PartialEq, Eq)]
pub enum UsageError {
    /// A word is not UTF-8.
    NotText,
    /// Out of memory.
    OutOfMemory,
}

impl From<AllocError> for UsageError {
    ghost from_gives = { λ _ fault. fault ≡ OutOfMemory };

    fn from(_: AllocError) -> UsageError {
        UsageError::OutOfMemory
    }
}
