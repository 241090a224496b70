//! Octets in base 64, with padding to a multiple of four characters (RFC 4648 4), appended to others.
ghost use Rattle.std.specs.Prelude.{◌≡◌, ◌∷◌, ◌++◌, [], false, List, ℕ, IfErr, IfOk, IfSome, IsSome, IsTrue, OnOk};
ghost use Rattle.dns_scan.specs.Base.{Groups, digit_64};
ghost use Rattle.dns_scan.specs.Encodings.{Decodes64};
ghost use Rattle.dns_scan.specs.ScanError.{is_want_of_room};
ghost use Rattle.dns_scan.specs.Token.{SameNames};
ghost use Rattle.dns_scan.specs.declared.encoding.base.Base.TheVariants.{SixtyFour};
ghost use Rattle.dns_field_texts.specs.Appended.{GoesOn};
ghost use Rattle.dns_field_texts.specs.AppendedBase64.{AppendsBase64, AppendsGroups, AppendsPadded, BeginsPadded, BeginsWithGroups, IsLastWord, SpellsNoBase64};
ghost use Rattle.dns_field_texts.specs.declared.base64.NextText.TheVariants.{Groups as IsGroups, Other as IsOther, Padded as IsPadded};

use dns_text::{DecodeError, Scanner, ScannerError, base64};
use std::alloc::AllocError;

/// What the text of the next token is.
#[derive(Clone, Copy)]
pub(crate) enum NextText {
    /// Whole groups of four characters.
    Groups,
    /// Whole groups, the last one with padding.
    Padded,
    /// Neither.
    Other,
}

/// Scans all words that are left, joined to one text in base 64, and appends its octets.
///
/// Words of whole groups of characters are decoded where they are, up to the first other word.
///
/// Fails as `base64::scan_entry` does. It may then have appended some of the octets.
pub fn scan_base64_into<S: Scanner>(scanner: &mut S, octets: &mut Vec<u8>) -> Result<(), S::Error>
    ensures ok { OnOk result (AppendsBase64 (S.tokens scanner.old) (S.tokens scanner.new) octets.old.items octets.new.items) }
    ensures err { IfErr result (λ error. S.Error.is_short error ≡ false → SpellsNoBase64 (S.tokens scanner.old)) }
    ensures names { SameNames (S.names scanner.old) (S.names scanner.new) }
    ensures more { GoesOn octets.old.items octets.new.items }
{
    while scanner.continues() {
        match append_next_text(scanner, octets) {
            Ok(NextText::Groups) => {}
            Ok(NextText::Padded) => return scan_last_word(scanner),
            Ok(NextText::Other) => break,
            Err(error) => return Err(error),
        }
        match scanner.scan_ascii_str(any_word) {
            Ok(()) => {}
            Err(error) => return Err(error),
        }
    }
    scan_joined_into(scanner, octets)
}

/// Takes the next word, which is the last one with characters.
///
/// Fails with an error other than `short_buf` only if there is none, or if characters follow it.
fn scan_last_word<S: Scanner>(scanner: &mut S) -> Result<(), S::Error>
    ensures ok { OnOk result (IsLastWord (S.tokens scanner.old) × (S.tokens scanner.new ≡ [])) }
    ensures err { IfErr result (λ error. S.Error.is_short error ≡ false → IsLastWord (S.tokens scanner.old) → ⊥) }
    ensures names { SameNames (S.names scanner.old) (S.names scanner.new) }
{
    match scanner.scan_ascii_str(any_word) {
        Ok(()) => {}
        Err(error) => return Err(error),
    }
    if !scanner.continues() {
        return Ok(());
    }
    match scanner.scan_ascii_entry() {
        Ok(text) if text.is_empty() => Ok(()),
        Ok(_) => Err(S::Error::custom("trailing input")),
        Err(error) => Err(error),
    }
}

/// Takes any word.
fn any_word(_word: &str) -> Option<()>
    ensures { IsSome result }
{
    Some(())
}

/// Appends the octets of the next token's text if that is whole groups of four characters, of which the last one may have
/// padding, and returns what it is. Otherwise nothing is appended.
///
/// Fails with an error other than `short_buf` only if there is no token. It may have appended some of the octets if it fails.
fn append_next_text<S: Scanner>(scanner: &S, octets: &mut Vec<u8>) -> Result<NextText, S::Error>
    ensures groups { IfOk result (λ next. next ≡ IsGroups → BeginsWithGroups (S.tokens scanner.now) octets.old.items octets.new.items) }
    ensures padded { IfOk result (λ next. next ≡ IsPadded → BeginsPadded (S.tokens scanner.now) octets.old.items octets.new.items) }
    ensures other { IfOk result (λ next. next ≡ IsOther → octets.new.items ≡ octets.old.items) }
    ensures err { IfErr result (λ error. S.Error.is_short error ≡ false → S.tokens scanner.now ≡ []) }
    ensures more { GoesOn octets.old.items octets.new.items }
{
    let text = match scanner.peek_text() {
        Ok(text) => text,
        Err(error) => return Err(error),
    };
    let before = octets.len();
    let left = match append_groups(text, octets) {
        Ok(left) => left,
        Err(_) => return Err(S::Error::short_buf()),
    };
    if left.is_empty() {
        return Ok(NextText::Groups);
    }
    match append_padded(left, octets) {
        Ok(true) => Ok(NextText::Padded),
        Ok(false) => {
            octets.truncate(before);
            Ok(NextText::Other)
        }
        Err(_) => Err(S::Error::short_buf()),
    }
}

/// Joins all words that are left to one text in base 64, and appends its octets.
///
/// Fails as `scan_base64_into` does.
fn scan_joined_into<S: Scanner>(scanner: &mut S, octets: &mut Vec<u8>) -> Result<(), S::Error>
    ensures ok { OnOk result (AppendsBase64 (S.tokens scanner.old) (S.tokens scanner.new) octets.old.items octets.new.items) }
    ensures err { IfErr result (λ error. S.Error.is_short error ≡ false → SpellsNoBase64 (S.tokens scanner.old)) }
    ensures names { SameNames (S.names scanner.old) (S.names scanner.new) }
    ensures more { GoesOn octets.old.items octets.new.items }
{
    let text = match scanner.scan_ascii_entry() {
        Ok(text) => text,
        Err(error) => return Err(error),
    };
    match append_base64(text.as_bytes(), octets) {
        Ok(()) => Ok(()),
        Err(error) => Err(scan_error(error)),
    }
}

/// Returns the scanner's error for a decoding error.
fn scan_error<Error: ScannerError>(error: DecodeError) -> Error
    ensures { Error.is_short result ≡ is_want_of_room error }
{
    match error {
        DecodeError::ShortBuf => Error::short_buf(),
        DecodeError::IllegalChar(_) => Error::custom("illegal character"),
        DecodeError::TrailingInput => Error::custom("trailing input"),
        DecodeError::ShortInput => Error::custom("incomplete input"),
    }
}

/// Appends the octets of a text, whole groups of four characters first.
///
/// Fails as `base64::decode` does. It may then have appended some of the octets.
fn append_base64(text: &[u8], octets: &mut Vec<u8>) -> Result<(), DecodeError>
    ensures ok { OnOk result ((new : List ℕ) × Decodes64 text.now new × (octets.new.items ≡ octets.old.items ++ new)) }
    ensures err { IfErr result (λ error. is_want_of_room error ≡ false → (new : List ℕ) → Decodes64 text.now new → ⊥) }
    ensures more { GoesOn octets.old.items octets.new.items }
{
    match append_groups(text, octets) {
        Ok(left) => append_last(left, octets),
        Err(_) => Err(DecodeError::ShortBuf),
    }
}

/// Appends the octets of the whole groups of four characters that the text begins with, and returns what is left: fewer than
/// four characters, or four of which one is not in the alphabet, and all behind them.
///
/// Fails if out of memory, and then appends nothing.
fn append_groups<'t>(text: &'t [u8], octets: &mut Vec<u8>) -> Result<&'t [u8], AllocError>
    ensures ok { IfOk result (λ left. AppendsGroups text.now left.now octets.old.items octets.new.items) }
    ensures more { GoesOn octets.old.items octets.new.items }
{
    octets.reserve(text.len() / 4 * 3)?;
    let mut left = text;
    while let [first, second, third, fourth, behind @ ..] = left {
        let Some(group) = group_octets(*first, *second, *third, *fourth) else {
            break;
        };
        let [x, y, z] = group;
        octets.push_reserved(x);
        octets.push_reserved(y);
        octets.push_reserved(z);
        left = behind;
    }
    Ok(left)
}

/// Returns the three octets of four characters, or `None` if one of them is not in the alphabet.
#[inline(always)]
fn group_octets(first: u8, second: u8, third: u8, fourth: u8) -> Option<[u8; 3]>
    ensures { IfSome result (λ octets. Groups SixtyFour (first ∷ second ∷ third ∷ fourth ∷ []) octets) }
{
    let (a, b, c, d) = (number(first), number(second), number(third), number(fourth));
    if a > 63 || b > 63 || c > 63 || d > 63 {
        return None;
    }
    Some([a * 4 + b / 16, b % 16 * 16 + c / 4, c % 4 * 64 + d])
}

/// Appends the octets of a group with padding if the text is one, and returns whether it is. Otherwise nothing is appended.
///
/// Fails if out of memory, and then appends nothing.
fn append_padded(text: &[u8], octets: &mut Vec<u8>) -> Result<bool, AllocError>
    ensures yes { IfOk result (λ padded. IsTrue padded → AppendsPadded text.now octets.old.items octets.new.items) }
    ensures no { IfOk result (λ padded. (IsTrue padded → ⊥) → octets.new.items ≡ octets.old.items) }
    ensures same { IfErr result (λ _. octets.new.items ≡ octets.old.items) }
{
    match text {
        [first, second, b'=', b'='] => match one_octet(*first, *second) {
            Some(x) => {
                octets.push(x)?;
                Ok(true)
            }
            None => Ok(false),
        },
        [first, second, third, b'='] => match two_octets(*first, *second, *third) {
            Some(both) => {
                octets.extend_from_slice(&both)?;
                Ok(true)
            }
            None => Ok(false),
        },
        _ => Ok(false),
    }
}

/// Returns the octet of two characters, or `None` if one of them is not in the alphabet.
fn one_octet(first: u8, second: u8) -> Option<u8>
    ensures { IfSome result (λ octet. Groups SixtyFour (first ∷ second ∷ []) (octet ∷ [])) }
{
    let (a, b) = (number(first), number(second));
    if a > 63 || b > 63 {
        return None;
    }
    Some(a * 4 + b / 16)
}

/// Returns the two octets of three characters, or `None` if one of them is not in the alphabet.
fn two_octets(first: u8, second: u8, third: u8) -> Option<[u8; 2]>
    ensures { IfSome result (λ octets. Groups SixtyFour (first ∷ second ∷ third ∷ []) octets) }
{
    let (a, b, c) = (number(first), number(second), number(third));
    if a > 63 || b > 63 || c > 63 {
        return None;
    }
    Some([a * 4 + b / 16, b % 16 * 16 + c / 4])
}

/// Returns the number of a character, or 64 if it is not in the alphabet.
#[inline(always)]
fn number(character: u8) -> u8
    ensures { result ≡ digit_64 character }
{
    NUMBERS[character as usize]
}

/// The number of each octet as a character, and 64 for those that are not in the alphabet.
static NUMBERS: [u8; 256] = [
    64, 64, 64, 64, 64, 64, 64, 64, 64, 64, 64, 64, 64, 64, 64, 64, 64, 64, 64, 64, 64, 64, 64, 64,
    64, 64, 64, 64, 64, 64, 64, 64, 64, 64, 64, 64, 64, 64, 64, 64, 64, 64, 64, 62, 64, 64, 64, 63,
    52, 53, 54, 55, 56, 57, 58, 59, 60, 61, 64, 64, 64, 64, 64, 64, 64, 0, 1, 2, 3, 4, 5, 6, 7, 8,
    9, 10, 11, 12, 13, 14, 15, 16, 17, 18, 19, 20, 21, 22, 23, 24, 25, 64, 64, 64, 64, 64, 64, 26,
    27, 28, 29, 30, 31, 32, 33, 34, 35, 36, 37, 38, 39, 40, 41, 42, 43, 44, 45, 46, 47, 48, 49, 50,
    51, 64, 64, 64, 64, 64, 64, 64, 64, 64, 64, 64, 64, 64, 64, 64, 64, 64, 64, 64, 64, 64, 64, 64,
    64, 64, 64, 64, 64, 64, 64, 64, 64, 64, 64, 64, 64, 64, 64, 64, 64, 64, 64, 64, 64, 64, 64, 64,
    64, 64, 64, 64, 64, 64, 64, 64, 64, 64, 64, 64, 64, 64, 64, 64, 64, 64, 64, 64, 64, 64, 64, 64,
    64, 64, 64, 64, 64, 64, 64, 64, 64, 64, 64, 64, 64, 64, 64, 64, 64, 64, 64, 64, 64, 64, 64, 64,
    64, 64, 64, 64, 64, 64, 64, 64, 64, 64, 64, 64, 64, 64, 64, 64, 64, 64, 64, 64, 64, 64, 64, 64,
    64, 64, 64, 64, 64, 64, 64, 64, 64, 64, 64, 64, 64, 64,
];

/// Appends the octets of a text, character by character. Fails as `append_base64` does.
fn append_last(text: &[u8], octets: &mut Vec<u8>) -> Result<(), DecodeError>
    ensures ok { OnOk result ((new : List ℕ) × Decodes64 text.now new × (octets.new.items ≡ octets.old.items ++ new)) }
    ensures err { IfErr result (λ error. is_want_of_room error ≡ false → (new : List ℕ) → Decodes64 text.now new → ⊥) }
    ensures more { GoesOn octets.old.items octets.new.items }
{
    let mut decoder: base64::Decoder<Vec<u8>> = base64::Decoder::new(*octets.allocator());
    for octet in text {
        decoder.push(char::from(*octet))?;
    }
    let new = decoder.finalize()?;
    match octets.extend_from_slice(&new) {
        Ok(()) => Ok(()),
        Err(_) => Err(DecodeError::ShortBuf),
    }
}
