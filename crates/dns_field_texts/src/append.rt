//! Octets that a word stands for, appended to others.
ghost use Rattle.std.specs.Prelude.{◌≡◌, ◌≤◌, ◌++◌, length, true, OnOk, IfErr};
ghost use Rattle.dns_field_texts.specs.Appended.{GoesOn, counted};
ghost use Rattle.dns_field_texts.specs.declared.append.WordError.TheVariants.{OutOfMemory};

use dns_name::OctetsBuilder;
use dns_text::ScannerError;

/// Why the octets of a word were not appended.
#[derive(Clone, Copy, Debug, PartialEq, Eq)]
pub enum WordError {
    /// The word stands for no such octets.
    Invalid,
    /// There is no memory for the octets.
    OutOfMemory,
}

/// Appends octets behind their length octet. Fails if out of memory; it may then have appended some.
pub(crate) fn append_counted(new: &[u8], octets: &mut Vec<u8>) -> Result<(), WordError>
    requires { length new.now ≤ 255 }
    ensures ok { OnOk result (octets.new.items ≡ octets.old.items ++ counted new.now) }
    ensures err { IfErr result (λ error. error ≡ OutOfMemory) }
    ensures more { GoesOn octets.old.items octets.new.items }
{
    match octets.push(new.len() as u8) {
        Ok(()) => {}
        Err(_) => return Err(WordError::OutOfMemory),
    }
    match octets.append_slice(new) {
        Ok(()) => Ok(()),
        Err(_) => Err(WordError::OutOfMemory),
    }
}

/// Appends octets. Fails with `short_buf` if out of memory.
pub fn append_octets<Error: ScannerError>(new: &[u8], octets: &mut Vec<u8>) -> Result<(), Error>
    ensures ok { OnOk result (octets.new.items ≡ octets.old.items ++ new.now) }
    ensures err { IfErr result (λ error. Error.is_short error ≡ true) }
    ensures more { GoesOn octets.old.items octets.new.items }
{
    match octets.extend_from_slice(new) {
        Ok(()) => Ok(()),
        Err(_) => Err(Error::short_buf()),
    }
}
