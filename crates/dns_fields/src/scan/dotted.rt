//! Addresses of version 4 in text.
ghost use Rattle.std.specs.Prelude.{◌≡◌, ◌∷◌, ◌<◌, ◌+◌, ℕ, List, IfSome, IfNone, option_copied};
ghost use Rattle.std.specs.Net.Addr.{ipv4_octets};
ghost use Rattle.std.specs.Net.Grammar.{IsDotted};
ghost use Rattle.std.specs.Net.Reader.{read_byte, read_ipv4, read_octet, read_view};
ghost use Rattle.dns_fields.specs.Digits.{BeginsWithDigit};

use std::net::Ipv4Addr;

/// Returns the address that the text writes in four decimal numbers, without leading zeros.
pub(super) fn ipv4_in(text: &[u8]) -> Option<Ipv4Addr>
    ensures some { IfSome result (λ address. IsDotted text.now (ipv4_octets address)) }
    ensures none { IfNone result ((octets : List ℕ) → IsDotted text.now octets → ⊥) }
{
    let Some((address, rest)) = split_address(text) else {
        return None;
    };
    if rest.is_empty() { Some(address) } else { None }
}

/// Splits off the address that the text begins with.
#[tactic(auto, unfolding(std::specs::Net::Reader::read_ipv4))]
fn split_address(text: &[u8]) -> Option<(Ipv4Addr, &[u8])>
    ensures { read_view ipv4_octets result ≡ read_ipv4 text.now }
{
    let (a, rest) = split_number(text)?;
    let (b, rest) = split_number(split_dot(rest)?)?;
    let (c, rest) = split_number(split_dot(rest)?)?;
    let (d, rest) = split_number(split_dot(rest)?)?;
    Some((Ipv4Addr::new(a, b, c, d), rest))
}

/// Splits the dot off that the text begins with.
#[inline(always)]
fn split_dot(text: &[u8]) -> Option<&[u8]>
    ensures { option_copied result ≡ read_byte 46 text.now }
{
    match text.split_first() {
        Some((b'.', rest)) => Some(rest),
        _ => None,
    }
}

/// Splits the digit off that the text begins with, and returns its value.
#[inline(always)]
fn split_digit(text: &[u8]) -> Option<(u8, &[u8])>
    ensures some { IfSome result (λ split. BeginsWithDigit text.now split.0 split.1.now) }
    ensures none { IfNone result ((n : ℕ) (rest : List ℕ) → BeginsWithDigit text.now n rest → ⊥) }
{
    match text.split_first() {
        Some((&digit, rest)) if matches!(digit, b'0'..=b'9') => Some((digit - b'0', rest)),
        _ => None,
    }
}

/// Splits off the number that the digits at the beginning of the text write: at most 255, without a leading zero.
#[inline(always)]
fn split_number(text: &[u8]) -> Option<(u8, &[u8])>
    ensures { read_view (λ n. n) result ≡ read_octet text.now }
{
    let Some((first, rest)) = split_digit(text) else {
        return None;
    };
    let Some((second, behind)) = split_digit(rest) else {
        return Some((first, rest));
    };
    if first == 0 {
        return None;
    }
    let two = 10 * first + second;
    let Some((third, last)) = split_digit(behind) else {
        return Some((two, behind));
    };
    let number = 10 * u16::from(two) + u16::from(third);
    if number > 255 {
        return None;
    }
    match split_digit(last) {
        Some(_) => None,
        None => Some((number as u8, last)),
    }
}
