//! Hardware addresses as text: two hexadecimal digits for each octet, with `-` between them (RFC 7043, sections 3.2 and
//! 4.2).
ghost use Rattle.std.specs.Prelude.{◌≡◌, ◌<◌, ◌∷◌, ◌++◌, List, ℕ, Some, IfErr, IfSome, IfNone, OnOk};
ghost use Rattle.std.specs.Char.{digit_value};
ghost use Rattle.std.specs.Fmt.{DisplaysOnOk};
ghost use Rattle.std.specs.List.{flat_map};
ghost use Rattle.dns_field_texts.specs.Appended.{GoesOn, Appends};
ghost use Rattle.dns_field_texts.specs.Hardware.{IsHexPair, IsHardwareText, hardware_written, small_digit, small_pair};
ghost use Rattle.dns_field_texts.specs.HardwareParts.{IsBehind, BeginsWithPair, minus_pair};
ghost use Rattle.dns_field_texts.specs.declared.append.WordError.TheVariants.{Invalid};

use crate::append::WordError;
use std::fmt;

/// Appends the octets of an address of `count` octets, as 6 or 8.
///
/// Fails with `Invalid` if the text is none of such an address, and if out of memory. It may then have appended some
/// octets.
pub fn append_hardware(text: &[u8], count: usize, octets: &mut Vec<u8>) -> Result<(), WordError>
    ensures ok { OnOk result (Appends (IsHardwareText count text.now) octets.old.items octets.new.items) }
    ensures err { IfErr result (λ error. error ≡ Invalid → (address : List ℕ) → IsHardwareText count text.now address → ⊥) }
    ensures more { GoesOn octets.old.items octets.new.items }
{
    let mut left = text;
    for index in 0..count {
        let Some(pair) = behind_minus(left, index) else {
            return Err(WordError::Invalid);
        };
        let Some((octet, behind)) = split_pair(pair) else {
            return Err(WordError::Invalid);
        };
        match octets.push(octet) {
            Ok(()) => left = behind,
            Err(_) => return Err(WordError::OutOfMemory),
        }
    }
    if left.is_empty() {
        Ok(())
    } else {
        Err(WordError::Invalid)
    }
}

/// Returns what is behind the minus sign that stands before each octet but the first.
fn behind_minus(text: &[u8], index: usize) -> Option<&[u8]>
    ensures some { IfSome result (λ behind. IsBehind index text.now behind.now) }
    ensures none { IfNone result ((behind : List ℕ) → IsBehind index text.now behind → ⊥) }
{
    match (index, text) {
        (0, text) => Some(text),
        (_, [b'-', behind @ ..]) => Some(behind),
        _ => None,
    }
}

/// Returns the octet of the two digits that the text begins with, and what is behind them.
fn split_pair(text: &[u8]) -> Option<(u8, &[u8])>
    ensures some { IfSome result (λ parts. BeginsWithPair text.now parts.0 parts.1.now) }
    ensures none { IfNone result ((octet : ℕ) (behind : List ℕ) → BeginsWithPair text.now octet behind → ⊥) }
{
    let (&high, behind) = text.split_first()?;
    let (&low, behind) = behind.split_first()?;
    Some((16 * hex_value(high)? + hex_value(low)?, behind))
}

/// Returns the value of a hexadecimal digit, in upper or lower case.
fn hex_value(octet: u8) -> Option<u8>
    ensures some { IfSome result (λ value. (value ≡ digit_value octet) × (value < 16)) }
    ensures none { IfNone result (digit_value octet < 16 → ⊥) }
{
    match octet {
        b'0'..=b'9' => Some(octet - b'0'),
        b'A'..=b'F' => Some(octet - 55),
        b'a'..=b'f' => Some(octet - 87),
        _ => None,
    }
}

/// What shows a hardware address, in lower case.
#[derive(Debug, Drop)]
pub struct DisplayHardware<'a>(pub &'a [u8]);

impl fmt::Display for DisplayHardware<'_> {
    ghost output = { λ address. Some (hardware_written address.0.now) };

    fn fmt<W: fmt::Write>(&self, f: &mut fmt::Formatter<W>) -> fmt::Result {
        write_hardware(f, self.0)
    }
}

/// Writes a hardware address.
fn write_hardware<W: fmt::Write>(f: &mut fmt::Formatter<W>, octets: &[u8]) -> fmt::Result
    ensures { DisplaysOnOk W.write_str_gives f.old result (Some (hardware_written octets.now)) f.new }
{
    let Some((&first, behind)) = octets.split_first() else {
        return Ok(());
    };
    write_octet(f, first)?;
    write_behind(f, behind)
}

/// Writes the octets, each behind a minus sign.
fn write_behind<W: fmt::Write>(f: &mut fmt::Formatter<W>, octets: &[u8]) -> fmt::Result
    ensures { DisplaysOnOk W.write_str_gives f.old result (Some (flat_map minus_pair octets.now)) f.new }
{
    for octet in octets {
        f.write_char('-')?;
        write_octet(f, *octet)?;
    }
    Ok(())
}

/// Writes an octet in two digits.
fn write_octet<W: fmt::Write>(f: &mut fmt::Formatter<W>, octet: u8) -> fmt::Result
    ensures { DisplaysOnOk W.write_str_gives f.old result (Some (small_pair octet)) f.new }
{
    f.write_char(small_digit(octet / 16))?;
    f.write_char(small_digit(octet % 16))
}

/// Returns the digit of a number, in lower case.
fn small_digit(number: u8) -> char
    requires { number < 16 }
    ensures is { result ≡ small_digit number }
    ensures ascii { result < 128 }
{
    match number {
        0..=9 => char::from(b'0' + number),
        _ => char::from(b'a' - 10 + number),
    }
}
