//! The digits of octets in base 16, sixteen octets at a time.
ghost use Rattle.std.specs.Prelude.{◌≡◌, ◌<◌, ◌≤◌, ◌*◌, true, length, map, take};
ghost use Rattle.std.specs.Fmt.{digit_glyph};
ghost use Rattle.std.specs.List.{AllByRecursion};
ghost use Rattle.dns_name.specs.UnknownText.{hex_of};
ghost use Rattle.dns_scan.specs.Base.{IsHexNumber};

use std::simd::prelude::*;

/// How many octets at most are written before their digits are handed on.
pub(super) const PIECE_LEN: usize = 128;

/// How many octets are written together.
const LANES: usize = 16;

/// Writes two hexadecimal digits, in capitals, for each of at most 128 octets, from the start of `digits` on.
///
/// The last sixteen octets are written together, even where some of them have been written before.
pub(super) fn write_digits(octets: &[u8], digits: &mut [u8; 2 * PIECE_LEN])
    requires { length octets.now ≤ 128 }
    ensures { take (2 * length octets.now) digits.new ≡ hex_of octets.now }
{
    if octets.len() < LANES {
        return write_few(octets, digits);
    }
    let last = octets.len() - LANES;
    let mut at = 0;
    while at < last {
        digits[2 * at..2 * at + 2 * LANES].copy_from_slice(&sixteen_digits(&octets[at..]));
        at += LANES;
    }
    digits[2 * last..2 * last + 2 * LANES].copy_from_slice(&sixteen_digits(&octets[last..]));
}

/// The same, one octet after another.
fn write_few(octets: &[u8], digits: &mut [u8; 2 * PIECE_LEN])
    requires { length octets.now ≤ 128 }
    ensures { take (2 * length octets.now) digits.new ≡ hex_of octets.now }
{
    for index in 0..octets.len() {
        digits[2 * index] = hex_digit(octets[index] / 16);
        digits[2 * index + 1] = hex_digit(octets[index] % 16);
    }
}

/// Returns the hexadecimal digit of a number, in capitals.
fn hex_digit(number: u8) -> u8
    requires { number < 16 }
    ensures { result ≡ digit_glyph true number }
{
    if number < 10 {
        b'0' + number
    } else {
        b'A' + (number - 10)
    }
}

/// Returns the hexadecimal digits, in capitals, of the first sixteen octets.
#[inline(always)]
fn sixteen_digits(octets: &[u8]) -> [u8; 32]
    requires { 16 ≤ length octets.now }
    ensures { result ≡ hex_of (take 16 octets.now) }
{
    let octets = u8x16::from_slice(octets);
    let high = digits_of(octets / u8x16::splat(16));
    let low = digits_of(octets % u8x16::splat(16));
    high.shuffle::<32>(
        low,
        [
            0, 16, 1, 17, 2, 18, 3, 19, 4, 20, 5, 21, 6, 22, 7, 23, 8, 24, 9, 25, 10, 26, 11, 27,
            12, 28, 13, 29, 14, 30, 15, 31,
        ],
    )
    .to_array()
}

/// Returns the hexadecimal digits of sixteen numbers below 16, in capitals.
#[inline(always)]
fn digits_of(numbers: u8x16) -> u8x16
    requires { AllByRecursion IsHexNumber numbers }
    ensures { result ≡ map (digit_glyph true) numbers }
{
    numbers.simd_lt(u8x16::splat(10)).select(
        numbers + u8x16::splat(b'0'),
        numbers + u8x16::splat(b'A' - 10),
    )
}
