//! Decimal digits.
ghost use Rattle.std.specs.Prelude.{◌≡◌, true, false, IfSome, IfNone};
ghost use Rattle.std.specs.Char.{is_ascii_digit};
ghost use Rattle.std.specs.List.{list_all};

use std::str;

/// Returns whether all octets are decimal digits.
pub(crate) fn are_digits(octets: &[u8]) -> bool
    ensures { result ≡ list_all is_ascii_digit octets.now }
{
    octets.iter().all(u8::is_ascii_digit)
}

/// Returns the text of the octets if all are decimal digits.
#[tactic(auto, using(dns_values::proofs::Words::spelled_rules))]
pub(crate) fn as_digits(octets: &[u8]) -> Option<&str>
    ensures some { IfSome result (λ text. (list_all is_ascii_digit octets.now ≡ true) × (text.now ≡ octets.now)) }
    ensures none { IfNone result (list_all is_ascii_digit octets.now ≡ false) }
{
    if !are_digits(octets) {
        return None;
    }
    // Digits are ASCII.
    Some(unsafe { str::from_utf8_unchecked(octets) })
}
