//! What reading a part of an entry came to.
ghost use Rattle.std.specs.Prelude.{◌≡◌, IfOk, IfSome, IfNone, Ok, Err, false};
ghost use Rattle.dns_entry_scanner.specs.EntryError.{is_memory};
ghost use Rattle.dns_entry_scanner.specs.declared.entry_error.EntryError.{EntryError};

use dns_entry_scanner::EntryError;
use std::alloc::AllocError;

/// Returns what was read, or None if the text was refused. Fails if out of memory.
pub(crate) fn read_or_refused<T: Drop>(read: Result<T, EntryError>) -> Result<Option<T>, AllocError>
    ensures read { IfOk result (λ found. IfSome found (λ value. read ≡ Ok value)) }
    ensures refused { IfOk result (λ found. IfNone found ((error : EntryError) × (read ≡ Err error) × (is_memory error ≡ false))) }
{
    match read {
        Ok(value) => Ok(Some(value)),
        Err(error) if is_want_of_memory(error) => Err(AllocError),
        Err(_) => Ok(None),
    }
}

/// Returns whether the error is out of memory.
pub(crate) fn is_want_of_memory(error: EntryError) -> bool
    ensures { result ≡ is_memory error }
{
    matches!(error, EntryError::OutOfMemory)
}
