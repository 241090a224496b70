//! The rest of an entry in an encoding of RFC 4648.
ghost use Rattle.std.specs.Prelude.{◌≡◌, List, ℕ, [], false, IfOk, IfErr, OnErr};
ghost use Rattle.std.specs.Str.{chars};
ghost use Rattle.dns_scan.specs.Base.{Decodes};
ghost use Rattle.dns_scan.specs.ScanError.{is_want_of_room};
ghost use Rattle.dns_scan.specs.Token.{IsEntry, IsWord, IsEnding, SameNames};

use super::decoder::decode_into;
use super::{DecodeError, Encoding};
use crate::{Scanner, ScannerError};
use dns_name::{FreezeBuilder, Octets};

/// Decodes all words that are left in an entry, joined to one text.
pub(crate) fn scan_entry<E: Encoding, S: Scanner>(scanner: &mut S) -> Result<S::Octets, S::Error>
    ensures ok { IfOk result (λ octets. (text : List ℕ) × IsEntry IsWord (S.tokens scanner.old) text
        × Decodes E.BASE (chars text) (⟦<S::Octets as Octets>⟧.list octets) × (S.tokens scanner.new ≡ [])) }
    ensures err { IfErr result (λ error. S.Error.is_short error ≡ false → (text octets : List ℕ) → IsEntry IsWord (S.tokens scanner.old) text
        → Decodes E.BASE (chars text) octets → ⊥) }
    ensures end { IfErr result (λ error. S.Error.is_short error ≡ false → S.Error.is_end error ≡ false) }
    ensures left { OnErr result (IsEnding (S.tokens scanner.new) (S.tokens scanner.old)) }
    ensures names { SameNames (S.names scanner.old) (S.names scanner.new) }
{
    let text = scanner.scan_ascii_entry()?;
    let builder = scanner.octets_builder()?;
    match decode_into::<E, S::OctetsBuilder>(builder, text.as_str()) {
        Ok(builder) => Ok(builder.freeze()),
        Err(error) => Err(scan_error(error)),
    }
}

/// Returns the scanner's error for a decoding error.
pub(crate) fn scan_error<Error: ScannerError>(error: DecodeError) -> Error
    ensures short { Error.is_short result ≡ is_want_of_room error }
    ensures end { Error.is_end result ≡ false }
{
    match error {
        DecodeError::ShortBuf => Error::short_buf(),
        DecodeError::IllegalChar(_) => Error::custom("illegal character"),
        DecodeError::TrailingInput => Error::custom("trailing input"),
        DecodeError::ShortInput => Error::custom("incomplete input"),
    }
}
