//! Octets in base 16, decoded straight behind other octets (RFC 4648 8).
ghost use Rattle.std.specs.Prelude.{◌≡◌, ◌∷◌, ◌++◌, [], List, ℕ, false, IfErr, IfOk, IfSome, IfNone, IsSome, IsTrue, OnOk};
ghost use Rattle.std.specs.Char.{digit_value};
ghost use Rattle.dns_scan.specs.Encodings.{Decodes16};
ghost use Rattle.dns_scan.specs.ScanError.{is_want_of_room};
ghost use Rattle.dns_scan.specs.Token.{SameNames};
ghost use Rattle.dns_scan_data.specs.Appended.{GoesOn};
ghost use Rattle.dns_scan_data.specs.AppendedHex.{AppendsHex, AppendsPairs, BeginsWithNoPair, BeginsWithPairs, IsHexDigit, SpellsNoHex, SpellsPairs};

use crate::hex_piece::{PIECE_LEN, decode_piece};
use dns_text::{DecodeError, Scanner, ScannerError};
use std::alloc::AllocError;

/// Scans all words that are left, joined to one text in base 16, and appends its octets.
///
/// Words of whole pairs of digits are decoded where they are, up to the first other word.
///
/// Fails as `base16::scan_entry` does. It may then have appended some of the octets.
pub(crate) fn scan_hex_into<S: Scanner>(
    scanner: &mut S,
    octets: &mut Vec<u8>,
) -> Result<(), S::Error>
    ensures ok { OnOk result (AppendsHex (S.tokens scanner.old) (S.tokens scanner.new) octets.old.items octets.new.items) }
    ensures err { IfErr result (λ error. S.Error.is_short error ≡ false → SpellsNoHex (S.tokens scanner.old)) }
    ensures names { SameNames (S.names scanner.old) (S.names scanner.new) }
    ensures more { GoesOn octets.old.items octets.new.items }
{
    while scanner.continues() {
        match append_next_text(scanner, octets) {
            Ok(true) => {}
            Ok(false) => return scan_joined_into(scanner, octets),
            Err(error) => return Err(error),
        }
        match scanner.scan_ascii_str(any_word) {
            Ok(()) => {}
            Err(error) => return Err(error),
        }
    }
    Ok(())
}

/// Takes any word.
fn any_word(_word: &str) -> Option<()>
    ensures { IsSome result }
{
    Some(())
}

/// Appends the octets of the next token's text if that is whole pairs of hexadecimal digits, and returns whether it is.
/// Otherwise nothing is appended.
///
/// Fails with an error other than `short_buf` only if there is no token. It may have appended some of the octets if it
/// fails.
fn append_next_text<S: Scanner>(scanner: &S, octets: &mut Vec<u8>) -> Result<bool, S::Error>
    ensures yes { IfOk result (λ whole. IsTrue whole → BeginsWithPairs (S.tokens scanner.now) octets.old.items octets.new.items) }
    ensures no { IfOk result (λ whole. (IsTrue whole → ⊥) → octets.new.items ≡ octets.old.items) }
    ensures err { IfErr result (λ error. S.Error.is_short error ≡ false → S.tokens scanner.now ≡ []) }
    ensures more { GoesOn octets.old.items octets.new.items }
{
    let text = match scanner.peek_text() {
        Ok(text) => text,
        Err(error) => return Err(error),
    };
    let before = octets.len();
    match append_pairs(text, octets) {
        Ok([]) => Ok(true),
        Ok(_) => {
            octets.truncate(before);
            Ok(false)
        }
        Err(_) => Err(S::Error::short_buf()),
    }
}

/// Joins all words that are left to one text in base 16, and appends its octets.
///
/// Fails as `scan_hex_into` does.
fn scan_joined_into<S: Scanner>(scanner: &mut S, octets: &mut Vec<u8>) -> Result<(), S::Error>
    ensures ok { OnOk result (AppendsHex (S.tokens scanner.old) (S.tokens scanner.new) octets.old.items octets.new.items) }
    ensures err { IfErr result (λ error. S.Error.is_short error ≡ false → SpellsNoHex (S.tokens scanner.old)) }
    ensures names { SameNames (S.names scanner.old) (S.names scanner.new) }
    ensures more { GoesOn octets.old.items octets.new.items }
{
    let text = match scanner.scan_ascii_entry() {
        Ok(text) => text,
        Err(error) => return Err(error),
    };
    match append_hex(text.as_bytes(), octets) {
        Ok(()) => Ok(()),
        Err(error) => Err(scan_error(error)),
    }
}

/// Returns the scanner's error for a decoding error.
fn scan_error<Error: ScannerError>(error: DecodeError) -> Error
    ensures { Error.is_short result ≡ is_want_of_room error }
{
    match error {
        DecodeError::ShortBuf => Error::short_buf(),
        DecodeError::IllegalChar(_) => Error::custom("illegal character"),
        DecodeError::TrailingInput => Error::custom("trailing input"),
        DecodeError::ShortInput => Error::custom("incomplete input"),
    }
}

/// Appends the octets that a text of hexadecimal digits spells, two digits for each.
///
/// Fails with `IllegalChar` if another octet is in it, with `ShortInput` if the last digit stands alone, and with
/// `ShortBuf` if out of memory. It may then have appended some of the octets.
fn append_hex(text: &[u8], octets: &mut Vec<u8>) -> Result<(), DecodeError>
    ensures ok { OnOk result ((new : List ℕ) × Decodes16 text.now new × (octets.new.items ≡ octets.old.items ++ new)) }
    ensures err { IfErr result (λ error. is_want_of_room error ≡ false → (new : List ℕ) → Decodes16 text.now new → ⊥) }
    ensures more { GoesOn octets.old.items octets.new.items }
{
    match append_pairs(text, octets) {
        Ok([]) => Ok(()),
        Ok([first, ..]) if hex_value(*first) > 15 => {
            Err(DecodeError::IllegalChar(char::from(*first)))
        }
        Ok([_]) => Err(DecodeError::ShortInput),
        Ok([_, second, ..]) => Err(DecodeError::IllegalChar(char::from(*second))),
        Err(_) => Err(DecodeError::ShortBuf),
    }
}

/// Appends the octets of the pairs of digits that the text begins with, and returns what is left of it: no octets, a
/// single one, or two and more of which the first two are no pair of digits.
///
/// Fails if out of memory. It may then have appended some of the octets.
fn append_pairs<'t>(text: &'t [u8], octets: &mut Vec<u8>) -> Result<&'t [u8], AllocError>
    ensures ok { IfOk result (λ left. AppendsPairs text.now left.now octets.old.items octets.new.items) }
    ensures all { IfOk result (λ left. BeginsWithNoPair left.now) }
    ensures more { GoesOn octets.old.items octets.new.items }
{
    let mut left = append_pieces(text, octets)?;
    octets.reserve(left.len() / 2)?;
    while let [high, low, behind @ ..] = left {
        let Some(octet) = pair_octet(*high, *low) else {
            return Ok(left);
        };
        octets.push_reserved(octet);
        left = behind;
    }
    Ok(left)
}

/// Appends the octets of the pieces of sixteen digits that the text begins with, and returns what is left of it: fewer
/// than sixteen octets, or a piece with an octet that is no digit.
///
/// Fails if out of memory. It may then have appended some of the octets.
fn append_pieces<'t>(text: &'t [u8], octets: &mut Vec<u8>) -> Result<&'t [u8], AllocError>
    ensures ok { IfOk result (λ left. AppendsPairs text.now left.now octets.old.items octets.new.items) }
    ensures more { GoesOn octets.old.items octets.new.items }
{
    let mut left = text;
    while let Some((digits, behind)) = left.split_first_chunk::<PIECE_LEN>() {
        let Some(piece) = decode_piece(digits) else {
            return Ok(left);
        };
        octets.extend_from_slice(&piece)?;
        left = behind;
    }
    Ok(left)
}

/// Returns the octet that two hexadecimal digits spell, or `None` if one of them is no digit.
#[inline(always)]
fn pair_octet(high: u8, low: u8) -> Option<u8>
    ensures some { IfSome result (λ octet. SpellsPairs (high ∷ low ∷ []) (octet ∷ [])) }
    ensures none { IfNone result (IsHexDigit high → IsHexDigit low → ⊥) }
{
    let (high, low) = (hex_value(high), hex_value(low));
    if high > 15 || low > 15 {
        return None;
    }
    Some(16 * high + low)
}

/// Returns the value of a hexadecimal digit, in upper or lower case, or a number above 15 for any other octet.
#[inline(always)]
pub(crate) fn hex_value(octet: u8) -> u8
    ensures { result ≡ digit_value octet }
{
    VALUES[octet as usize]
}

/// The value of each octet as a digit, those after 9 being letters in either case, and 36 for those that are none.
static VALUES: [u8; 256] = [
    36, 36, 36, 36, 36, 36, 36, 36, 36, 36, 36, 36, 36, 36, 36, 36, 36, 36, 36, 36, 36, 36, 36, 36,
    36, 36, 36, 36, 36, 36, 36, 36, 36, 36, 36, 36, 36, 36, 36, 36, 36, 36, 36, 36, 36, 36, 36, 36,
    0, 1, 2, 3, 4, 5, 6, 7, 8, 9, 36, 36, 36, 36, 36, 36, 36, 10, 11, 12, 13, 14, 15, 16, 17, 18,
    19, 20, 21, 22, 23, 24, 25, 26, 27, 28, 29, 30, 31, 32, 33, 34, 35, 36, 36, 36, 36, 36, 36, 10,
    11, 12, 13, 14, 15, 16, 17, 18, 19, 20, 21, 22, 23, 24, 25, 26, 27, 28, 29, 30, 31, 32, 33, 34,
    35, 36, 36, 36, 36, 36, 36, 36, 36, 36, 36, 36, 36, 36, 36, 36, 36, 36, 36, 36, 36, 36, 36, 36,
    36, 36, 36, 36, 36, 36, 36, 36, 36, 36, 36, 36, 36, 36, 36, 36, 36, 36, 36, 36, 36, 36, 36, 36,
    36, 36, 36, 36, 36, 36, 36, 36, 36, 36, 36, 36, 36, 36, 36, 36, 36, 36, 36, 36, 36, 36, 36, 36,
    36, 36, 36, 36, 36, 36, 36, 36, 36, 36, 36, 36, 36, 36, 36, 36, 36, 36, 36, 36, 36, 36, 36, 36,
    36, 36, 36, 36, 36, 36, 36, 36, 36, 36, 36, 36, 36, 36, 36, 36, 36, 36, 36, 36, 36, 36, 36, 36,
    36, 36, 36, 36, 36, 36, 36, 36, 36, 36, 36, 36, 36, 36,
];
