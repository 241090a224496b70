//! Strings up to the end (RFC 1035 3.3.14).
ghost use Rattle.std.specs.Prelude.{◌≡◌, ◌<◌, ◌↔◌, List, ℕ, length, IsTrue, IsSome, IfSome, IfNone};
ghost use Rattle.std.proofs.Common.{refl};
ghost use Rattle.dns_scan.specs.CharStr.{StartsWithString};
ghost use Rattle.dns_fields.specs.Fields as fields;
ghost use Rattle.dns_fields.specs.Fields.{IsField, field_octets};
ghost use Rattle.dns_fields.specs.Strings.{AreStringOctets, AreCut, strings_of};

use super::LastValue;
use dns_name::{Octets, Parser};
use dns_text::CharStr;
use std::marker::Model;

/// One or more strings, which have all octets that are left. They are held as on the wire, each after its length.
///
/// A contract sees the list of the strings.
#[derive(Debug, Drop)]
pub struct Strings<Octs: Octets> {
    octets: Octs,
}

impl<Octs: Octets> Model for Strings<Octs> {
    ghost Value = { List (List ℕ) };

    ghost view = { λ it. strings_of (Octs.list it.octets) };

    ghost invariant = { λ it. (0 < length (strings_of (Octs.list it.octets))) × AreCut (Octs.list it.octets) };
}

impl<Octs: Octets> Strings<Octs> {
    /// Returns the strings that the octets are, or None if they are not one or more strings.
    pub fn from_octets(octets: Octs) -> Option<Self>
    where
        Octs: Drop,
        ensures some { IfSome result (λ found. Octs.list octets ≡ field_octets (fields.strings found)) }
        ensures field { IfSome result (λ found. IsField (fields.strings found)) }
        ensures are { IsSome result ↔ AreStringOctets (Octs.list octets) }
    {
        if !are_strings(octets.octets()) {
            return None;
        }
        Some(Strings { octets })
    }

    /// The strings that the octets are.
    pub(crate) fn of_strings(octets: Octs) -> Self
        requires { AreStringOctets (Octs.list octets) }
        ensures { Octs.list octets ≡ field_octets (fields.strings result) }
    {
        Strings { octets }
    }

    /// Returns the octets of the strings, each after its length.
    pub fn as_slice(&self) -> &[u8]
        ensures octets { result.now ≡ field_octets (fields.strings self.now) }
        ensures are { IsField (fields.strings self.now) }
    {
        self.octets.octets()
    }

    /// Returns the strings, one after another.
    pub fn iter(&self) -> StringsIter<'_>
        ensures { result ≡ self.now }
    {
        StringsIter {
            octets: self.octets.octets(),
        }
    }
}

impl<Octs: Octets> LastValue for Strings<Octs> {
    ghost kind = { fields.Strings };

    ghost field = { fields.strings };

    fn last_octets(&self) -> &[u8] {
        self.as_slice()
    }

    ghost stays = { refl };

    ghost unnamed = { refl };

    ghost is_last = { λ _. record { kind = refl; lowered = refl; folded = refl; written = refl } };
}

/// Strings, one after another.
///
/// A contract sees the list of the strings that are left.
#[derive(Debug, Drop)]
pub struct StringsIter<'a> {
    octets: &'a [u8],
}

impl<'a> Model for StringsIter<'a> {
    ghost Value = { List (List ℕ) };

    ghost view = { λ it. strings_of it.octets.now };

    ghost invariant = { λ it. AreCut it.octets.now };
}

impl<'a> Iterator for StringsIter<'a> {
    ghost use Rattle.std.specs.Iterator.{YieldsFirstBy, item_count};

    type Item = CharStr<&'a [u8]>;

    ghost next_gives = { YieldsFirstBy (λ string. string) (λ strings. strings) };

    ghost remaining = { item_count (λ strings. strings) };

    fn next(&mut self) -> Option<CharStr<&'a [u8]>> {
        let (string, behind) = split_string(self.octets)?;
        self.octets = behind;
        Some(string)
    }
}

/// Returns the string that the octets begin with, and what follows it, or None if there is none.
fn split_string(octets: &[u8]) -> Option<(CharStr<&[u8]>, &[u8])>
    ensures some { IfSome result (λ found. StartsWithString octets.now found.0 found.1.now) }
    ensures none { IfNone result ((string rest : List ℕ) → StartsWithString octets.now string rest → ⊥) }
{
    let mut parser = Parser::from_ref(octets);
    match CharStr::parse(&mut parser) {
        Ok(string) => Some((string, parser.peek_all())),
        Err(_) => None,
    }
}

/// Whether the octets are one or more strings.
fn are_strings(octets: &[u8]) -> bool
    ensures { IsTrue result ↔ AreStringOctets octets.now }
{
    if octets.is_empty() {
        return false;
    }
    let mut rest = octets;
    while !rest.is_empty() {
        let Some((_, behind)) = split_string(rest) else {
            return false;
        };
        rest = behind;
    }
    true
}
