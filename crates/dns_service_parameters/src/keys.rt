//! The keys that have a name.
ghost use Rattle.std.specs.Prelude.{◌≡◌, ◌<◌, ◌^◌, ◌↔◌, ℕ, Some, length, slice_index, IfSome, IfNone, IsTrue};
ghost use Rattle.std.specs.Char.{is_ascii_digit};
ghost use Rattle.std.specs.List.{list_all};
ghost use Rattle.std.specs.Option.{option_copied};
ghost use Rattle.dns_values.specs.Mnemonic.{number_spelled};
ghost use Rattle.dns_service_parameters.specs.Service as table;
ghost use Rattle.dns_service_parameters.specs.ServiceRead.{IsKeyWord};
ghost use Rattle.dns_service_parameters.specs.ServiceText.{SpellsKey, number_word};

use crate::form::Form;

/// Returns the form of the values of a key.
#[tactic(auto, unfolding(crate::specs::Service::form_at))]
pub(crate) fn form_at(key: u16) -> Form
    ensures { result ≡ table.form_at key }
{
    match key {
        0 => Form::Keys,
        1 => Form::Strings,
        2 | 8 => Form::Nothing,
        3 => Form::Number,
        4 => Form::Ipv4s,
        5 => Form::Encoded,
        6 => Form::Ipv6s,
        _ => Form::Plain,
    }
}

/// Returns the name of a key, if it has one.
#[tactic(auto, unfolding(crate::specs::Service::name_of))]
pub(crate) fn name_of(key: u16) -> Option<&'static str>
    ensures { option_copied result ≡ table.name_of key }
{
    match key {
        0 => Some("mandatory"),
        1 => Some("alpn"),
        2 => Some("no-default-alpn"),
        3 => Some("port"),
        4 => Some("ipv4hint"),
        5 => Some("ech"),
        6 => Some("ipv6hint"),
        7 => Some("dohpath"),
        8 => Some("ohttp"),
        _ => None,
    }
}

/// A key as it is written.
#[derive(Clone, Copy, Debug, PartialEq, Eq)]
pub(crate) struct KeyWord {
    /// The number of the key.
    pub key: u16,
    /// Whether it is written by its name.
    pub named: bool,
}

/// Returns the key that a word is the name or the number of.
pub(crate) fn read_key(word: &[u8]) -> Option<KeyWord>
    ensures some { IfSome result (IsKeyWord word.now) }
    ensures none { IfNone result ((key : ℕ) → SpellsKey word.now key → ⊥) }
{
    match key_named(word) {
        Some(key) => Some(KeyWord { key, named: true }),
        None => match key_numbered(word) {
            Some(key) => Some(KeyWord { key, named: false }),
            None => None,
        },
    }
}

/// Returns the key of a name.
fn key_named(word: &[u8]) -> Option<u16>
    ensures some { IfSome result (λ key. table.name_of key ≡ Some word.now) }
    ensures none { IfNone result ((key : ℕ) → table.name_of key ≡ Some word.now → ⊥) }
{
    for key in 0..9 {
        if is_name(key, word) {
            return Some(key);
        }
    }
    None
}

/// Returns whether the word is the name of the key.
fn is_name(key: u16, word: &[u8]) -> bool
    ensures { IsTrue result ↔ (table.name_of key ≡ Some word.now) }
{
    match name_of(key) {
        Some(name) => name.as_bytes() == word,
        None => false,
    }
}

/// Returns the number behind `key`, which has no leading zeros.
fn key_numbered(word: &[u8]) -> Option<u16>
    ensures some { IfSome result (λ key. (word.now ≡ number_word key) × (key < 2 ^ 16)) }
    ensures none { IfNone result ((key : ℕ) → key < 2 ^ 16 → word.now ≡ number_word key → ⊥) }
{
    if word.len() < 3 || word[0] != b'k' || word[1] != b'e' || word[2] != b'y' {
        return None;
    }
    let digits = &word[3..];
    if has_leading_zero(digits) {
        return None;
    }
    read_number(digits)
}

/// Returns whether there is a zero before other digits.
fn has_leading_zero(digits: &[u8]) -> bool
    ensures { IsTrue result ↔ ((1 < length digits.now) × (slice_index digits.now 0 ≡ 48)) }
{
    digits.len() > 1 && digits[0] == b'0'
}

/// Returns the number of 16 bits that the digits write.
#[tactic(auto, using(dns_values::proofs::Words::spelled_rules, dns_field_texts::proofs::ParsedNumbers::parsed_rules))]
pub(crate) fn read_number(digits: &[u8]) -> Option<u16>
    ensures { result ≡ number_spelled (2 ^ 16) digits.now }
{
    if !are_digits(digits) {
        return None;
    }
    // Digits are ASCII.
    let text = unsafe { str::from_utf8_unchecked(digits) };
    text.parse().ok()
}

/// Returns whether all octets are decimal digits.
fn are_digits(octets: &[u8]) -> bool
    ensures { result ≡ list_all is_ascii_digit octets.now }
{
    octets.iter().all(u8::is_ascii_digit)
}
