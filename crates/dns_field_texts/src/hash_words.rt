//! Salts and hashes of owners as words (RFC 5155, section 3.3).
ghost use Rattle.std.specs.Prelude.{◌≡◌, ◌<◌, ◌≤◌, ◌↔◌, List, ℕ, [], ◌∷◌, length, IsTrue, Some, IfOk, IfErr, IfSome, IfNone, OnOk, false};
ghost use Rattle.std.specs.Str.{chars, IsAscii};
ghost use Rattle.dns_scan.specs.Encodings.{Decodes16, Decodes32};
ghost use Rattle.dns_scan.specs.ScanError.{is_want_of_room};
ghost use Rattle.dns_field_texts.specs.Appended.{GoesOn, AppendsCounted};
ghost use Rattle.dns_field_texts.specs.HashWords.{IsCountable, IsSaltWord, IsHashWord, salt_written};
ghost use Rattle.dns_field_texts.specs.declared.append.WordError.TheVariants.{Invalid};

use crate::append::{WordError, append_counted};
use dns_text::{DecodeError, base16, base32};
use std::alloc::Global;
use std::{fmt, str};

/// Appends the octets of a salt behind their length octet: `-` for none, or at most 255 octets in base 16.
///
/// Fails with `Invalid` if the text is none of a salt, and if out of memory. It may then have appended some octets.
pub fn append_salt(text: &[u8], octets: &mut Vec<u8>) -> Result<(), WordError>
    ensures ok { OnOk result (AppendsCounted (IsSaltWord text.now) octets.old.items octets.new.items) }
    ensures err { IfErr result (λ error. error ≡ Invalid → (salt : List ℕ) → IsSaltWord text.now salt → ⊥) }
    ensures more { GoesOn octets.old.items octets.new.items }
{
    if is_minus(text) {
        return append_counted(&[], octets);
    }
    let salt = match decoded_16(*octets.allocator(), text) {
        Ok(salt) => salt,
        Err(error) => return Err(error),
    };
    if !is_countable(salt.as_slice()) {
        return Err(WordError::Invalid);
    }
    append_counted(salt.as_slice(), octets)
}

/// Appends the octets of a hash behind their length octet: at least one and at most 255 octets in base 32.
///
/// Fails with `Invalid` if the text is none of a hash, and if out of memory. It may then have appended some octets.
pub fn append_hash(text: &[u8], octets: &mut Vec<u8>) -> Result<(), WordError>
    ensures ok { OnOk result (AppendsCounted (IsHashWord text.now) octets.old.items octets.new.items) }
    ensures err { IfErr result (λ error. error ≡ Invalid → (hash : List ℕ) → IsHashWord text.now hash → ⊥) }
    ensures more { GoesOn octets.old.items octets.new.items }
{
    let hash = match decoded_32(*octets.allocator(), text) {
        Ok(hash) => hash,
        Err(error) => return Err(error),
    };
    if !is_countable(hash.as_slice()) {
        return Err(WordError::Invalid);
    }
    append_counted(hash.as_slice(), octets)
}

/// Returns whether the text is a minus sign.
fn is_minus(text: &[u8]) -> bool
    ensures { IsTrue result ↔ (text.now ≡ 45 ∷ []) }
{
    matches!(text, [b'-'])
}

/// Returns whether there are 1 to 255 octets.
fn is_countable(octets: &[u8]) -> bool
    ensures some { IsTrue result → (0 < length octets.now) × (length octets.now ≤ 255) }
    ensures none { (IsTrue result → ⊥) → IsCountable octets.now → ⊥ }
{
    0 < octets.len() && octets.len() <= 255
}

/// Returns the octets of a text in base 16.
fn decoded_16(alloc: Global, text: &[u8]) -> Result<Vec<u8>, WordError>
    ensures ok { IfOk result (λ octets. Decodes16 text.now octets.items) }
    ensures err { IfErr result (λ error. error ≡ Invalid → (octets : List ℕ) → Decodes16 text.now octets → ⊥) }
{
    let Some(text) = ascii(text) else {
        return Err(WordError::Invalid);
    };
    match base16::decode(alloc, text) {
        Ok(octets) => Ok(octets),
        Err(error) => Err(word_error(error)),
    }
}

/// Returns the octets of a text in base 32.
fn decoded_32(alloc: Global, text: &[u8]) -> Result<Vec<u8>, WordError>
    ensures ok { IfOk result (λ octets. Decodes32 text.now octets.items) }
    ensures err { IfErr result (λ error. error ≡ Invalid → (octets : List ℕ) → Decodes32 text.now octets → ⊥) }
{
    let Some(text) = ascii(text) else {
        return Err(WordError::Invalid);
    };
    match base32::decode(alloc, text) {
        Ok(octets) => Ok(octets),
        Err(error) => Err(word_error(error)),
    }
}

/// Returns the text as characters, if all are ASCII.
fn ascii(text: &[u8]) -> Option<&str>
    ensures some { IfSome result (λ same. (same.now ≡ text.now) × (chars same.now ≡ text.now)) }
    ensures none { IfNone result (IsAscii text.now → ⊥) }
{
    if !text.is_ascii() {
        return None;
    }
    Some(unsafe { str::from_utf8_unchecked(text) })
}

/// Returns the error for a decoding error.
fn word_error(error: DecodeError) -> WordError
    ensures { result ≡ Invalid → is_want_of_room error ≡ false }
{
    match error {
        DecodeError::ShortBuf => WordError::OutOfMemory,
        DecodeError::IllegalChar(_) => WordError::Invalid,
        DecodeError::TrailingInput => WordError::Invalid,
        DecodeError::ShortInput => WordError::Invalid,
    }
}

/// What shows a salt: `-` for no octets, or base 16 in capitals.
#[derive(Debug, Drop)]
pub struct DisplaySalt<'a>(pub &'a [u8]);

impl fmt::Display for DisplaySalt<'_> {
    ghost output = { λ salt. Some (salt_written salt.0.now) };

    fn fmt<W: fmt::Write>(&self, f: &mut fmt::Formatter<W>) -> fmt::Result {
        if self.0.is_empty() {
            f.write_char('-')
        } else {
            write!(f, "{}", base16::display(self.0))
        }
    }
}
