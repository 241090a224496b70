//! The numbers of locations in text (RFC 1876 3).
ghost use Rattle.std.specs.Prelude.{◌≡◌, ◌<◌, ◌≤◌, ◌^◌, ℕ, IfNone, IfSome};
ghost use Rattle.dns_field_texts.specs.LocationParts.{GoesOnWith, IsAltitude, IsDecimal, IsLength, IsPart};

use crate::text::split_first;

/// Returns the altitude that a text in metres writes, in centimetres above 100,000 m below the spheroid.
pub(crate) fn read_altitude(text: &[u8]) -> Option<u32>
    ensures some { IfSome result (λ altitude. IsAltitude altitude text.now) }
    ensures none { IfNone result ((altitude : ℕ) → IsAltitude altitude text.now → ⊥) }
{
    let (&first, behind) = text.split_first()?;
    if first == b'-' {
        let depth = read_metres(behind, 10_000_000)?;
        return Some((10_000_000 - depth) as u32);
    }
    let height = read_metres(text, 4_284_967_295)?;
    Some((10_000_000 + height) as u32)
}

/// Returns the centimetres of a text in metres, with or without its unit, if they are at most that many.
pub(crate) fn read_metres(text: &[u8], most: u64) -> Option<u64>
    requires { most ≤ 9000000000 }
    ensures some { IfSome result (λ value. IsLength most value text.now) }
    ensures none { IfNone result ((value : ℕ) → IsLength most value text.now → ⊥) }
{
    let (&last, numeral) = text.split_last()?;
    if last == b'm' {
        return read_numeral(numeral, 2, most);
    }
    read_numeral(text, 2, most)
}

/// Returns the number that a text with at most that many decimals writes, in units of the last of them, if it is at most
/// `most`.
pub(crate) fn read_numeral(text: &[u8], places: usize, most: u64) -> Option<u64>
    requires places { places ≤ 3 }
    requires most { most ≤ 9000000000 }
    ensures some { IfSome result (λ value. IsPart places most value text.now) }
    ensures none { IfNone result ((value : ℕ) → IsPart places most value text.now → ⊥) }
{
    let (whole, behind) = split_first(text, b'.');
    let Some(fraction) = behind else {
        return read_decimal(whole, &[], places, most);
    };
    if fraction.is_empty() {
        return None;
    }
    read_decimal(whole, fraction, places, most)
}

/// Returns the number that the digits before and after a point write, in units of the last of that many decimals, if it
/// is at most `most`.
fn read_decimal(whole: &[u8], fraction: &[u8], places: usize, most: u64) -> Option<u64>
    requires places { places ≤ 3 }
    requires most { most ≤ 9000000000 }
    ensures some { IfSome result (IsDecimal places most whole.now fraction.now) }
    ensures none { IfNone result ((value : ℕ) → IsDecimal places most whole.now fraction.now value → ⊥) }
{
    if whole.is_empty() || fraction.len() > places {
        return None;
    }
    let value = push_digits(0, whole, most)?;
    let value = push_digits(value, fraction, most)?;
    push_digits(value, &b"000"[..places - fraction.len()], most)
}

/// Returns the number with these digits behind it, if it is at most `most`.
fn push_digits(front: u64, digits: &[u8], most: u64) -> Option<u64>
    requires front { front ≤ most }
    requires most { most ≤ 9000000000 }
    ensures some { IfSome result (GoesOnWith front digits.now most) }
    ensures none { IfNone result ((value : ℕ) → GoesOnWith front digits.now most value → ⊥) }
{
    let mut value = front;
    let mut left = digits;
    while let Some((&digit, behind)) = left.split_first() {
        if !digit.is_ascii_digit() {
            return None;
        }
        value = value * 10 + u64::from(digit - b'0');
        if value > most {
            return None;
        }
        left = behind;
    }
    Some(value)
}
