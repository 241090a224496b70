//! Numbers as words of digits, which may begin with zeros.
ghost use Rattle.std.specs.Prelude.{◌≡◌, ◌^◌};
ghost use Rattle.std.specs.Char.{is_ascii_digit};
ghost use Rattle.std.specs.List.{list_all};
ghost use Rattle.dns_name.specs.Mnemonic.{number_spelled};
ghost use Rattle.dns_scan.specs.Scans.{ScansWord};

use crate::digits::number_of;
use crate::{Scan, Scanner};

impl<S: Scanner> Scan<S> for u8 {
    ghost scans = { λ scanner number left. ScansWord (number_spelled (2 ^ 8)) (S.tokens scanner) number left };

    fn scan(scanner: &mut S) -> Result<u8, S::Error> {
        scanner.scan_ascii_str(spelled_u8)
    }
}

impl<S: Scanner> Scan<S> for u16 {
    ghost scans = { λ scanner number left. ScansWord (number_spelled (2 ^ 16)) (S.tokens scanner) number left };

    fn scan(scanner: &mut S) -> Result<u16, S::Error> {
        scanner.scan_ascii_str(spelled_u16)
    }
}

impl<S: Scanner> Scan<S> for u32 {
    ghost scans = { λ scanner number left. ScansWord (number_spelled (2 ^ 32)) (S.tokens scanner) number left };

    fn scan(scanner: &mut S) -> Result<u32, S::Error> {
        scanner.scan_ascii_str(spelled_u32)
    }
}

impl<S: Scanner> Scan<S> for u64 {
    ghost scans = { λ scanner number left. ScansWord (number_spelled (2 ^ 64)) (S.tokens scanner) number left };

    fn scan(scanner: &mut S) -> Result<u64, S::Error> {
        scanner.scan_ascii_str(spelled_u64)
    }
}

impl<S: Scanner> Scan<S> for u128 {
    ghost scans = { λ scanner number left. ScansWord (number_spelled (2 ^ 128)) (S.tokens scanner) number left };

    fn scan(scanner: &mut S) -> Result<u128, S::Error> {
        scanner.scan_ascii_str(spelled_u128)
    }
}

/// Returns the number below 2^8 that these digits spell, if they spell one.
#[tactic(auto, using(crate::proofs::DigitNumbers::number_below, crate::proofs::DigitNumbers::number_in_none))]
fn spelled_u8(text: &str) -> Option<u8>
    ensures { result ≡ number_spelled (2 ^ 8) text.now }
{
    let Some(number) = number_of(text.as_bytes()) else {
        return None;
    };
    if number < 256 {
        Some(number as u8)
    } else {
        None
    }
}

/// Returns the number below 2^16 that these digits spell, if they spell one.
#[tactic(auto, using(crate::proofs::DigitNumbers::number_below, crate::proofs::DigitNumbers::number_in_none))]
fn spelled_u16(text: &str) -> Option<u16>
    ensures { result ≡ number_spelled (2 ^ 16) text.now }
{
    let Some(number) = number_of(text.as_bytes()) else {
        return None;
    };
    if number < 65536 {
        Some(number as u16)
    } else {
        None
    }
}

/// Returns the number below 2^32 that these digits spell, if they spell one.
pub(crate) fn spelled_u32(text: &str) -> Option<u32>
    ensures { result ≡ number_spelled (2 ^ 32) text.now }
{
    number_of(text.as_bytes())
}

/// Returns the number below 2^64 that these digits spell, if they spell one.
#[tactic(auto, using(crate::proofs::Numerals::spelled_rules))]
fn spelled_u64(text: &str) -> Option<u64>
    ensures { result ≡ number_spelled (2 ^ 64) text.now }
{
    if !are_digits(text) {
        return None;
    }
    text.parse().ok()
}

/// Returns the number below 2^128 that these digits spell, if they spell one.
#[tactic(auto, using(crate::proofs::Numerals::spelled_rules))]
fn spelled_u128(text: &str) -> Option<u128>
    ensures { result ≡ number_spelled (2 ^ 128) text.now }
{
    if !are_digits(text) {
        return None;
    }
    text.parse().ok()
}

/// Returns whether these are decimal digits alone.
fn are_digits(text: &str) -> bool
    ensures { result ≡ list_all is_ascii_digit text.now }
{
    text.as_bytes().iter().all(u8::is_ascii_digit)
}
