//! Whether octets are service parameters (RFC 9460 2.2).
ghost use Rattle.std.specs.Prelude.{◌≡◌, ◌⊎◌, ◌%◌, ◌<◌, ◌^◌, ◌↔◌, ◌++◌, ◌∷◌, [], List, ℕ, length, IsTrue, IfSome, IfNone};
ghost use Rattle.std.specs.Int.{to_be_bytes, w16};
ghost use Rattle.dns_service_parameters.specs.declared.form.Form.TheVariants.{Keys, Strings};
ghost use Rattle.dns_service_parameters.specs.Service.{HoldsParameters, IsAmong, keys_of};
ghost use Rattle.dns_service_parameters.specs.ServiceParts.{Decides, HasMandatory, HoldsOrdered, HoldsValue, StartsWithPart, StartsWithNone};

use crate::form::Form;
use crate::keys::form_at;

/// Returns whether the octets are service parameters.
pub fn are_parameters(octets: &[u8]) -> bool
    ensures { IsTrue result ↔ HoldsParameters octets.now }
{
    if !are_ordered(octets) {
        return false;
    }
    if !has_mandatory(octets) {
        return false;
    }
    if !has_key(octets, 2) {
        return true;
    }
    has_key(octets, 1)
}

/// Returns whether the octets are parameters with ascending keys.
fn are_ordered(octets: &[u8]) -> bool
    ensures { IsTrue result ↔ HoldsOrdered 0 octets.now }
{
    let mut rest = octets;
    let mut least = 0;
    while let Some((key, value, behind)) = split_part(rest) {
        if u32::from(key) < least || !is_value(form_at(key), value) {
            return false;
        }
        least = u32::from(key) + 1;
        rest = behind;
    }
    rest.is_empty()
}

/// Returns whether a key is among those of the parameters.
fn has_key(octets: &[u8], wanted: u16) -> bool
    ensures { Decides octets.now (λ parameters. IsAmong wanted (keys_of parameters)) result }
{
    let mut rest = octets;
    while let Some((key, _, behind)) = split_part(rest) {
        if key == wanted {
            return true;
        }
        rest = behind;
    }
    false
}

/// Returns whether each mandatory key is among those of the parameters. Both ascend.
fn has_mandatory(octets: &[u8]) -> bool
    ensures { Decides octets.now HasMandatory result }
{
    let Some((first_key, mut wanted, _)) = split_part(octets) else {
        return true;
    };
    if first_key != 0 {
        return true;
    }
    let mut rest = octets;
    while let Some((key, _, behind)) = split_part(rest) {
        wanted = behind_key(wanted, key);
        rest = behind;
    }
    wanted.is_empty()
}

/// Returns what is behind the key, if the octets begin with it, and else the octets.
fn behind_key(octets: &[u8], key: u16) -> &[u8]
    ensures { (octets.now ≡ to_be_bytes w16 key ++ result.now)
        ⊎ ((result.now ≡ octets.now) × ((behind : List ℕ) → octets.now ≡ to_be_bytes w16 key ++ behind → ⊥)) }
{
    match split_number(octets) {
        Some((first, behind)) if first == key => behind,
        _ => octets,
    }
}

/// Returns whether the octets are a value of the form.
pub(crate) fn is_value(form: Form, octets: &[u8]) -> bool
    ensures { IsTrue result ↔ HoldsValue form octets.now }
{
    match form {
        Form::Keys => are_keys(octets),
        Form::Strings => are_strings(octets),
        Form::Nothing => octets.is_empty(),
        Form::Number => octets.len() == 2,
        Form::Ipv4s => are_pieces(octets, 4),
        Form::Ipv6s => are_pieces(octets, 16),
        Form::Encoded => !octets.is_empty(),
        Form::Plain => true,
    }
}

/// Returns whether the octets are one or more keys, which ascend, and not the key 0.
fn are_keys(octets: &[u8]) -> bool
    ensures { IsTrue result ↔ HoldsValue Keys octets.now }
{
    let mut rest = octets;
    let mut least = 1;
    while let Some((key, behind)) = split_number(rest) {
        if u32::from(key) < least {
            return false;
        }
        least = u32::from(key) + 1;
        rest = behind;
    }
    rest.is_empty() && !octets.is_empty()
}

/// Returns whether the octets are one or more strings, none of them empty.
fn are_strings(octets: &[u8]) -> bool
    ensures { IsTrue result ↔ HoldsValue Strings octets.now }
{
    let mut rest = octets;
    while let Some((len, behind)) = split_octet(rest) {
        let len = usize::from(len);
        if len == 0 || behind.len() < len {
            return false;
        }
        let (_, others) = behind.split_at(len);
        rest = others;
    }
    !octets.is_empty()
}

/// Returns whether the octets are one or more pieces of that size.
fn are_pieces(octets: &[u8], size: usize) -> bool
    requires { 0 < size }
    ensures { IsTrue result ↔ ((0 < length octets.now) × (length octets.now % size ≡ 0)) }
{
    !octets.is_empty() && octets.len() % size == 0
}

/// Splits a key and its value off the front.
pub(crate) fn split_part(octets: &[u8]) -> Option<(u16, &[u8], &[u8])>
    ensures some { IfSome result (λ split. StartsWithPart octets.now split.0 split.1.now split.2.now) }
    ensures none { IfNone result (StartsWithNone octets.now) }
{
    let (key, behind) = split_number(octets)?;
    let (len, behind) = split_number(behind)?;
    let len = usize::from(len);
    if behind.len() < len {
        return None;
    }
    let (value, rest) = behind.split_at(len);
    Some((key, value, rest))
}

/// Splits a number of 16 bits off the front.
fn split_number(octets: &[u8]) -> Option<(u16, &[u8])>
    ensures some { IfSome result (λ split. (split.0 < 2 ^ 16) × (octets.now ≡ to_be_bytes w16 split.0 ++ split.1.now)) }
    ensures none { IfNone result (length octets.now < 2) }
{
    let (high, behind) = split_octet(octets)?;
    let (low, rest) = split_octet(behind)?;
    Some((u16::from_be_bytes([high, low]), rest))
}

/// Splits an octet off the front.
fn split_octet(octets: &[u8]) -> Option<(u8, &[u8])>
    ensures some { IfSome result (λ split. (split.0 < 2 ^ 8) × (octets.now ≡ split.0 ∷ split.1.now)) }
    ensures none { IfNone result (octets.now ≡ []) }
{
    let (&first, rest) = octets.split_first()?;
    Some((first, rest))
}
