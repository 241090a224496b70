//! The items of a value that is a list.
ghost use Rattle.std.specs.Prelude.{◌≡◌, ◌<◌, length, None, Some, IfSome, IfNone};
ghost use Rattle.std.specs.Net.Addr.{ipv4_octets, ipv6_segments, segments_of};
ghost use Rattle.dns_service_parameters.specs.ServiceShown as shown;

use crate::form::Form;
use std::net::{Ipv4Addr, Ipv6Addr};

/// Splits an item of a list off the front, without the length of a string.
pub(crate) fn split_item(form: Form, octets: &[u8]) -> Option<(&[u8], &[u8])>
    ensures some { IfSome result (λ split.
        (shown.take_item form octets.now ≡ Some (split.0.now, split.1.now)) × shown.IsItem form split.0.now) }
    ensures less { IfSome result (λ split. length split.1.now < length octets.now) }
    ensures none { IfNone result (shown.take_item form octets.now ≡ None) }
{
    match form {
        Form::Strings => split_string(octets),
        Form::Keys => split_size(octets, 2),
        Form::Ipv4s => split_size(octets, 4),
        Form::Ipv6s => split_size(octets, 16),
        Form::Nothing | Form::Number | Form::Encoded | Form::Plain => split_size(octets, 1),
    }
}

/// Splits a string off the front, without its length. It is cut if there are fewer octets.
fn split_string(octets: &[u8]) -> Option<(&[u8], &[u8])>
    ensures some { IfSome result (λ split.
        (shown.take_string octets.now ≡ Some (split.0.now, split.1.now)) × (length split.1.now < length octets.now)) }
    ensures none { IfNone result (shown.take_string octets.now ≡ None) }
{
    let (&len, behind) = octets.split_first()?;
    let len = usize::from(len);
    if behind.len() < len {
        return Some((behind, &[]));
    }
    Some(behind.split_at(len))
}

/// Splits that many octets off the front.
fn split_size(octets: &[u8], size: usize) -> Option<(&[u8], &[u8])>
    requires { 0 < size }
    ensures some { IfSome result (λ split.
        (shown.take_size size octets.now ≡ Some (split.0.now, split.1.now)) × (length split.0.now ≡ size)
        × (length split.1.now < length octets.now)) }
    ensures none { IfNone result (shown.take_size size octets.now ≡ None) }
{
    if octets.len() < size {
        return None;
    }
    Some(octets.split_at(size))
}

/// Returns the number of 16 bits that the octets begin with.
pub(crate) fn first_number(octets: &[u8]) -> u16
    ensures { result ≡ shown.first_number octets.now }
{
    match octets {
        [high, low, ..] => u16::from_be_bytes([*high, *low]),
        _ => 0,
    }
}

/// Returns the address of four octets, and `0.0.0.0` of other octets.
pub(crate) fn ipv4_of(octets: &[u8]) -> Ipv4Addr
    ensures { length octets.now ≡ 4 → ipv4_octets result ≡ octets.now }
{
    match <[u8; 4]>::try_from(octets) {
        Ok(all) => Ipv4Addr::from_octets(all),
        Err(_) => Ipv4Addr::from_octets([0; 4]),
    }
}

/// Returns the address of sixteen octets, and `::` of other octets.
pub(crate) fn ipv6_of(octets: &[u8]) -> Ipv6Addr
    ensures { length octets.now ≡ 16 → ipv6_segments result ≡ segments_of octets.now }
{
    match <[u8; 16]>::try_from(octets) {
        Ok(all) => Ipv6Addr::from_octets(all),
        Err(_) => Ipv6Addr::from_octets([0; 16]),
    }
}
