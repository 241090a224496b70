//! Addresses of version 6 in text (RFC 4291 2.2).
ghost use Rattle.std.specs.Prelude.{◌≡◌, ◌≤◌, ℕ, List, length, take, drop, IfSome, IfNone};
ghost use Rattle.std.specs.Net.Addr.{ipv6_segments};
ghost use Rattle.std.specs.Net.Grammar.{IsColonHex};
ghost use Rattle.dns_scan_data.specs.ColonHex.{BeginsWithGroup, BeginsWithGroups, BeginsWithHexDigit};

use crate::hex::hex_value;
use std::net::Ipv6Addr;

/// Returns the address that the text writes in groups of hexadecimal digits.
///
/// Texts of such groups alone are read here. Others, as those with an address of version 4 at their end, are read by std.
///
/// It is not inlined: the reader of a row is, and would grow by all of this for each record.
#[inline(never)]
pub(crate) fn colon_hex_in(text: &[u8]) -> Option<Ipv6Addr>
    ensures some { IfSome result (λ address. IsColonHex text.now (ipv6_segments address)) }
    ensures none { IfNone result ((segments : List ℕ) → IsColonHex text.now segments → ⊥) }
{
    match groups_in(text) {
        Some(address) => Some(address),
        None => Ipv6Addr::parse_ascii(text).ok(),
    }
}

/// Returns the address that the text writes in groups of hexadecimal digits alone, all eight, or some with `::` in place of those that
/// are zero.
fn groups_in(text: &[u8]) -> Option<Ipv6Addr>
    ensures { IfSome result (λ address. IsColonHex text.now (ipv6_segments address)) }
{
    let mut segments = [0; 8];
    let (count, left) = read_groups(text, &mut segments);
    if count == 8 {
        return if left.is_empty() {
            Some(Ipv6Addr::from_segments(segments))
        } else {
            None
        };
    }
    let [b':', b':', behind @ ..] = left else {
        return None;
    };
    let mut tail = [0; 7];
    let (tail_count, left) = read_groups(behind, &mut tail[..7 - count]);
    if !left.is_empty() {
        return None;
    }
    segments[8 - tail_count..].copy_from_slice(&tail[..tail_count]);
    Some(Ipv6Addr::from_segments(segments))
}

/// Reads the groups that the text begins with, with colons between them, as far as there is room for them. Returns how many they are
/// and what is left of the text.
#[inline(always)]
fn read_groups<'t>(text: &'t [u8], segments: &mut [u16]) -> (usize, &'t [u8])
    ensures groups { BeginsWithGroups text.now (take result.0 segments.new) result.1.now }
    ensures within { result.0 ≤ length segments.old }
    ensures others { drop result.0 segments.new ≡ drop result.0 segments.old }
{
    let mut left = text;
    let mut count = 0;
    while count < segments.len() {
        let group = match left {
            [b':', group @ ..] if count > 0 => group,
            _ if count > 0 => break,
            _ => left,
        };
        let Some((segment, behind)) = split_group(group) else {
            break;
        };
        segments[count] = segment;
        count += 1;
        left = behind;
    }
    (count, left)
}

/// Splits off the group that the text begins with: its first digits, at most four. Returns its number.
#[inline(always)]
fn split_group(text: &[u8]) -> Option<(u16, &[u8])>
    ensures { IfSome result (λ split. BeginsWithGroup text.now split.0 split.1.now) }
{
    let (first, left) = split_digit(text)?;
    let Some((second, behind)) = split_digit(left) else {
        return Some((first, left));
    };
    let two = 16 * first + second;
    let Some((third, left)) = split_digit(behind) else {
        return Some((two, behind));
    };
    let three = 16 * two + third;
    let Some((fourth, behind)) = split_digit(left) else {
        return Some((three, left));
    };
    Some((16 * three + fourth, behind))
}

/// Splits off the hexadecimal digit that the text begins with. Returns its value.
#[inline(always)]
fn split_digit(text: &[u8]) -> Option<(u16, &[u8])>
    ensures { IfSome result (λ split. BeginsWithHexDigit text.now split.0 split.1.now) }
{
    let (&digit, left) = text.split_first()?;
    let value = hex_value(digit);
    if value > 15 {
        return None;
    }
    Some((u16::from(value), left))
}
