//! Hexadecimal digits, decoded sixteen at a time (RFC 4648 8).
ghost use Rattle.std.specs.Prelude.{◌≡◌, IsTrue, IfSome, map};
ghost use Rattle.std.specs.Char.{digit_value};
ghost use Rattle.std.specs.List.{AllByRecursion};
ghost use Rattle.dns_scan_data.specs.AppendedHex.{IsHexDigit, SpellsPairs};

use std::simd::prelude::*;

/// How many digits are decoded together.
pub(crate) const PIECE_LEN: usize = 16;

/// Returns the octets that sixteen digits spell, or None if one of these octets is no digit.
pub(crate) fn decode_piece(digits: &[u8; PIECE_LEN]) -> Option<[u8; PIECE_LEN / 2]>
    ensures { IfSome result (λ octets. SpellsPairs digits.now octets) }
{
    let digits = u8x16::from_slice(digits);
    if !are_digits(digits) {
        return None;
    }
    let values = digit_values(digits);
    let high = values.swizzle::<8>([0, 2, 4, 6, 8, 10, 12, 14]);
    let low = values.swizzle::<8>([1, 3, 5, 7, 9, 11, 13, 15]);
    Some((high * u8x8::splat(16) + low).to_array())
}

/// Returns whether all of sixteen octets are hexadecimal digits.
#[inline(always)]
fn are_digits(octets: u8x16) -> bool
    ensures { IsTrue result → AllByRecursion IsHexDigit octets }
{
    let numbers = (octets - u8x16::splat(b'0')).simd_lt(u8x16::splat(10));
    let capitals = (octets - u8x16::splat(b'A')).simd_lt(u8x16::splat(6));
    let small = (octets - u8x16::splat(b'a')).simd_lt(u8x16::splat(6));
    (numbers | capitals | small).all()
}

/// Returns the values of sixteen digits.
#[inline(always)]
fn digit_values(digits: u8x16) -> u8x16
    requires { AllByRecursion IsHexDigit digits }
    ensures { result ≡ map digit_value digits }
{
    let letters = digits.simd_lt(u8x16::splat(b'a')).select(
        digits - u8x16::splat(b'A' - 10),
        digits - u8x16::splat(b'a' - 10),
    );
    digits
        .simd_lt(u8x16::splat(b'A'))
        .select(digits - u8x16::splat(b'0'), letters)
}
