//! The values of named keys in text (RFC 9460 7, 8 and A.1).
ghost use Rattle.std.specs.Prelude.{◌≡◌, ◌++◌, false, IfErr, IfNone, IfSome, OnErr, OnOk, List, ℕ, Option, IfOk, option_map};
ghost use Rattle.std.specs.Int.{to_be_bytes, w16};
ghost use Rattle.std.specs.List.{flat_map};
ghost use Rattle.dns_scan.specs.ScanError.{is_want_of_room};
ghost use Rattle.dns_service_parameters.specs.declared.form.Form.TheVariants.{Encoded, Ipv4s, Ipv6s, Keys, Strings};
ghost use Rattle.dns_service_parameters.specs.ServiceParts.{AscendFrom};
ghost use Rattle.dns_service_parameters.specs.ServiceRead.{AppendsString, AppendsValue, SpellsKeys, SpellsNoValue, StartsWithString, other_items};
ghost use Rattle.dns_service_parameters.specs.ServiceText.{item_octet};

use crate::form::Form;
use crate::keys::{read_key, read_number};
use dns_field_texts::{append_octets, split_first};
use dns_text::{DecodeError, ScannerError, base64};
use std::alloc::Global;
use std::net::{Ipv4Addr, Ipv6Addr};

/// Appends the value of the form that a text writes.
///
/// Fails with an error other than `short_buf` only if it writes none. It may then have appended a part of the value.
pub(crate) fn append_value<Error: ScannerError>(
    form: Form,
    text: &[u8],
    value: &mut Vec<u8>,
) -> Result<(), Error>
    ensures ok { OnOk result (AppendsValue form text.now value.old.items value.new.items) }
    ensures err { IfErr result (λ error. Error.is_short error ≡ false → SpellsNoValue form text.now) }
{
    match form {
        Form::Keys => append_keys(text, value),
        Form::Strings => append_strings(text, value),
        Form::Nothing => {
            if text.is_empty() {
                Ok(())
            } else {
                Err(Error::custom("a key that has no value"))
            }
        }
        Form::Number => match read_number(text) {
            Some(number) => append_octets(&number.to_be_bytes(), value),
            None => Err(Error::custom("bad number")),
        },
        Form::Ipv4s => append_ipv4s(text, value),
        Form::Ipv6s => append_ipv6s(text, value),
        Form::Encoded => append_encoded(text, value),
        Form::Plain => append_octets(text, value),
    }
}

/// Appends the keys of a list, ascending.
fn append_keys<Error: ScannerError>(text: &[u8], value: &mut Vec<u8>) -> Result<(), Error>
    ensures ok { OnOk result (AppendsValue Keys text.now value.old.items value.new.items) }
    ensures err { IfErr result (λ error. Error.is_short error ≡ false → SpellsNoValue Keys text.now) }
{
    let mut keys: Vec<u16> = read_keys(text, *value.allocator())?;
    keys.sort_unstable();
    append_ascending(&keys, value)
}

/// Returns the keys of a list, in its order.
fn read_keys<Error: ScannerError>(text: &[u8], alloc: Global) -> Result<Vec<u16>, Error>
    ensures ok { IfOk result (λ keys. SpellsKeys text.now keys.items) }
    ensures err { IfErr result (λ error. Error.is_short error ≡ false → (keys : List ℕ) → SpellsKeys text.now keys → ⊥) }
{
    let mut keys: Vec<u16> = Vec::new(alloc);
    let mut left = Some(text);
    while let Some(items) = left {
        let (item, rest) = split_first(items, b',');
        let Some(word) = read_key(item) else {
            return Err(Error::custom("bad key"));
        };
        if keys.push(word.key).is_err() {
            return Err(Error::short_buf());
        }
        left = rest;
    }
    Ok(keys)
}

/// Appends keys. Fails with an error other than `short_buf` only if they do not ascend or are not above 0.
fn append_ascending<Error: ScannerError>(keys: &[u16], value: &mut Vec<u8>) -> Result<(), Error>
    ensures ok { OnOk result
        (AscendFrom 1 keys.now × (value.new.items ≡ value.old.items ++ flat_map (to_be_bytes w16) keys.now)) }
    ensures err { IfErr result (λ error. Error.is_short error ≡ false → AscendFrom 1 keys.now → ⊥) }
{
    let mut least = 1;
    for &key in keys {
        if u32::from(key) < least {
            return Err(Error::custom("bad mandatory key"));
        }
        least = u32::from(key) + 1;
        append_octets(&key.to_be_bytes(), value)?;
    }
    Ok(())
}

/// Appends the strings of a list, each behind its length.
fn append_strings<Error: ScannerError>(text: &[u8], value: &mut Vec<u8>) -> Result<(), Error>
    ensures ok { OnOk result (AppendsValue Strings text.now value.old.items value.new.items) }
    ensures err { IfErr result (λ error. Error.is_short error ≡ false → SpellsNoValue Strings text.now) }
{
    let mut left = Some(text);
    while let Some(items) = left {
        left = append_string(items, value)?;
    }
    Ok(())
}

/// Appends the first string of a list behind its length, and returns the other strings, if there are any.
fn append_string<'a, Error: ScannerError>(
    text: &'a [u8],
    value: &mut Vec<u8>,
) -> Result<Option<&'a [u8]>, Error>
    ensures ok { IfOk result (λ others.
        AppendsString text.now (option_map (λ rest. rest.now) others) value.old.items value.new.items) }
    ensures err { IfErr result (λ error.
        Error.is_short error ≡ false → (string : List ℕ) (others : Option (List ℕ)) → StartsWithString text.now string others → ⊥) }
{
    let mut string = Vec::new(*value.allocator());
    let mut left = text;
    while let Some((octet, behind)) = split_item_octet(left) {
        if string.push(octet).is_err() {
            return Err(Error::short_buf());
        }
        left = behind;
    }
    if string.is_empty() || string.len() > 255 {
        return Err(Error::custom("bad length of a string"));
    }
    let others = behind_comma(left)?;
    append_octets(&[string.len() as u8], value)?;
    append_octets(&string, value)?;
    Ok(others)
}

/// Splits an octet of an item off the front of a list.
fn split_item_octet(text: &[u8]) -> Option<(u8, &[u8])>
    ensures some { IfSome result (λ split. text.now ≡ item_octet split.0 ++ split.1.now) }
    ensures none { IfNone result ((octet : ℕ) (behind : List ℕ) → text.now ≡ item_octet octet ++ behind → ⊥) }
{
    let (&first, behind) = text.split_first()?;
    if first == b',' {
        return None;
    }
    if first != b'\\' {
        return Some((first, behind));
    }
    let (&octet, rest) = behind.split_first()?;
    if octet == b',' || octet == b'\\' {
        Some((octet, rest))
    } else {
        None
    }
}

/// Returns what is behind a comma, if there is anything.
fn behind_comma<Error: ScannerError>(text: &[u8]) -> Result<Option<&[u8]>, Error>
    ensures ok { IfOk result (λ others. text.now ≡ other_items (option_map (λ rest. rest.now) others)) }
    ensures err { OnErr result ((others : Option (List ℕ)) → text.now ≡ other_items others → ⊥) }
{
    match text.split_first() {
        None => Ok(None),
        Some((&first, others)) => {
            if first == b',' {
                Ok(Some(others))
            } else {
                Err(Error::custom("bad escape in a list"))
            }
        }
    }
}

/// Appends the addresses of a list.
fn append_ipv4s<Error: ScannerError>(text: &[u8], value: &mut Vec<u8>) -> Result<(), Error>
    ensures ok { OnOk result (AppendsValue Ipv4s text.now value.old.items value.new.items) }
    ensures err { IfErr result (λ error. Error.is_short error ≡ false → SpellsNoValue Ipv4s text.now) }
{
    let mut left = Some(text);
    while let Some(items) = left {
        let (item, rest) = split_first(items, b',');
        let Ok(address) = Ipv4Addr::parse_ascii(item) else {
            return Err(Error::custom("bad address"));
        };
        append_octets(&address.octets(), value)?;
        left = rest;
    }
    Ok(())
}

/// Appends the addresses of a list.
fn append_ipv6s<Error: ScannerError>(text: &[u8], value: &mut Vec<u8>) -> Result<(), Error>
    ensures ok { OnOk result (AppendsValue Ipv6s text.now value.old.items value.new.items) }
    ensures err { IfErr result (λ error. Error.is_short error ≡ false → SpellsNoValue Ipv6s text.now) }
{
    let mut left = Some(text);
    while let Some(items) = left {
        let (item, rest) = split_first(items, b',');
        let Ok(address) = Ipv6Addr::parse_ascii(item) else {
            return Err(Error::custom("bad address"));
        };
        append_octets(&address.octets(), value)?;
        left = rest;
    }
    Ok(())
}

/// Appends the octets of a text in base 64.
fn append_encoded<Error: ScannerError>(text: &[u8], value: &mut Vec<u8>) -> Result<(), Error>
    ensures ok { OnOk result (AppendsValue Encoded text.now value.old.items value.new.items) }
    ensures err { IfErr result (λ error. Error.is_short error ≡ false → SpellsNoValue Encoded text.now) }
{
    if !text.is_ascii() {
        return Err(Error::custom("bad base 64"));
    }
    let Ok(text) = str::from_utf8(text) else {
        return Err(Error::custom("bad base 64"));
    };
    let octets: Vec<u8> = match base64::decode(*value.allocator(), text) {
        Ok(octets) => octets,
        Err(error) => return Err(encoding_error(error)),
    };
    if octets.is_empty() {
        return Err(Error::custom("a value without octets"));
    }
    append_octets(&octets, value)
}

/// Returns the error for one of decoding.
fn encoding_error<Error: ScannerError>(error: DecodeError) -> Error
    ensures { Error.is_short result ≡ is_want_of_room error }
{
    match error {
        DecodeError::ShortBuf => Error::short_buf(),
        DecodeError::IllegalChar(_) => Error::custom("bad base 64"),
        DecodeError::TrailingInput => Error::custom("bad base 64"),
        DecodeError::ShortInput => Error::custom("bad base 64"),
    }
}
