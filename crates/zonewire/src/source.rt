//! Sources of the program's input.
ghost use Rattle.std.specs.Prelude.{◌≡◌, ◌↔◌, ◌<◌, ◌≤◌, ℕ, Bool, List, Option, false, true, length, vec_len, IfOk, OnOk, IsTrue, IsErrOf};
ghost use Rattle.std.specs.Io.KnownBytes.{IsAtEnd, ReadConsumes};
ghost use Rattle.zonewire.specs.Stream.{MarksFailure, WereLeft};
ghost use Rattle.zonewire.specs.declared.source.ReadAllError.TheVariants.{OutOfMemory, Read};

use std::alloc::{AllocError, Global};
use std::io::Read;
use thiserror::Error;

/// A read failed.
#[derive(Clone, Copy, Debug, PartialEq, Eq, Error)]
#[error("read failed")]
pub struct SourceError;

/// Octets are read from a source.
///
/// `remaining` is the octets that are left, if the source knows them. `failed` is false until a read fails, and true
/// from then on.
pub trait Source {
    ghost remaining: { Self → Option (List ℕ) };

    ghost failed: { Self → Bool };

    /// Reads at least one octet into a piece that is not empty, or none at the end, and returns how many. Fails with
    /// `SourceError` if the read fails, and then loses no octet.
    fn read_some(&mut self, piece: &mut [u8]) -> Result<usize, SourceError>
        requires { 0 < length piece.old }
        ensures within { IfOk result (λ n. n ≤ length piece.new) }
        ensures octets { ReadConsumes (remaining self.old) (remaining self.new) result piece.new }
        ensures marks { MarksFailure (failed self.old) (failed self.new) result };
}

/// A `Read` of `std` as a source.
#[derive(Debug, Drop)]
pub struct StdSource<R: Read> {
    reader: R,
    has_failed: bool,
}

impl<R: Read> StdSource<R> {
    /// Returns a source over this reader. No read has failed.
    pub fn new(reader: R) -> StdSource<R>
        ensures { result ≡ record { reader = reader; has_failed = false } }
    {
        StdSource {
            reader,
            has_failed: false,
        }
    }
}

impl<R: Read> Source for StdSource<R> {
    ghost remaining = { λ s. R.remaining s.reader };

    ghost failed = { λ s. s.has_failed };

    /// An interruption is a failed read too.
    fn read_some(&mut self, piece: &mut [u8]) -> Result<usize, SourceError> {
        match self.reader.read(piece) {
            Ok(count) => Ok(count),
            Err(_) => {
                self.has_failed = true;
                Err(SourceError)
            }
        }
    }
}

/// Why `read_all` failed.
#[derive(Clone, Copy, Debug, PartialEq, Eq, Error)]
pub(crate) enum ReadAllError {
    /// A read failed.
    #[error("read failed")]
    Read,
    /// Out of memory.
    #[error("out of memory")]
    OutOfMemory,
}

impl From<SourceError> for ReadAllError {
    ghost from_gives = { λ _ e. e ≡ Read };

    fn from(_error: SourceError) -> ReadAllError {
        ReadAllError::Read
    }
}

impl From<AllocError> for ReadAllError {
    ghost from_gives = { λ _ e. e ≡ OutOfMemory };

    fn from(_error: AllocError) -> ReadAllError {
        ReadAllError::OutOfMemory
    }
}

/// The number of octets that are asked for at a time.
const PIECE_LEN: usize = 65536;

/// Returns a piece to read into. Fails if out of memory.
fn new_piece(alloc: Global) -> Result<Vec<u8>, AllocError>
    ensures { IfOk result (λ piece. 0 < vec_len piece) }
{
    vec![in alloc; 0u8; PIECE_LEN]
}

/// Reads a source to its end, and returns all the octets that were left.
///
/// Fails with `Read` if a read fails, and with `OutOfMemory` if out of memory, as for a source that never ends.
pub(crate) fn read_all<S: Source>(alloc: Global, source: &mut S) -> Result<Vec<u8>, ReadAllError>
    ensures octets { IfOk result (λ v. WereLeft (S.remaining source.old) v.items) }
    ensures ended { OnOk result (IsAtEnd (S.remaining source.new)) }
    ensures failed { S.failed source.old ≡ false
        → (IsErrOf result ReadAllError.Read ↔ IsTrue (S.failed source.new)) }
{
    let mut piece = new_piece(alloc)?;
    let mut octets = Vec::new(alloc);
    loop {
        let count = source.read_some(piece.as_mut_slice())?;
        if count == 0 {
            return Ok(octets);
        }
        octets.extend_from_slice(&piece[..count])?;
    }
}
