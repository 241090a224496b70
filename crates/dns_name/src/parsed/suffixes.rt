//! The suffixes of names in messages.
ghost use Rattle.std.specs.Prelude.{◌≡◌, ◌≤◌, ◌∷◌, length};

use super::ParsedName;
use dns_octets::Octets;
use std::marker::Model;

/// A name in a message and its parents, up to the root.
#[derive(Debug, Drop)]
pub struct ParsedSuffixIter<'a> {
    name: Option<ParsedName<&'a [u8]>>,
}

impl<'a> Model for ParsedSuffixIter<'a> {
    ghost use Rattle.std.specs.Prelude.{List, ℕ};

    ghost Value = { List (List (List ℕ)) };

    ghost use Rattle.dns_name.specs.Suffixes.{suffixes_left};

    ghost view = { λ it. suffixes_left it.name };
}

impl<Octs: Octets> ParsedName<Octs> {
    ghost use Rattle.dns_name.specs.ParsedName.{labels_in};
    ghost use Rattle.dns_wire.specs.Suffix.{suffixes};

    /// Returns the name itself, its parent, and so on up to the root.
    pub fn iter_suffixes(&self) -> ParsedSuffixIter<'_>
        ensures suffixes { result ≡ suffixes (labels_in Octs.list self.now) }
        ensures few { length result ≤ 128 }
    {
        ParsedSuffixIter {
            name: Some(self.ref_octets()),
        }
    }
}

impl<'a> Iterator for ParsedSuffixIter<'a> {
    ghost use Rattle.std.specs.Iterator.{YieldsFirstBy, item_count};
    ghost use Rattle.dns_name.specs.ParsedName.{labels_of};

    type Item = ParsedName<&'a [u8]>;

    ghost next_gives = { YieldsFirstBy labels_of (λ names. names) };

    ghost remaining = { item_count (λ names. names) };

    fn next(&mut self) -> Option<ParsedName<&'a [u8]>> {
        let name = self.name?;
        self.name = name.to_parent();
        Some(name)
    }
}

impl<'a> ParsedName<&'a [u8]> {
    ghost use Rattle.dns_name.specs.ParsedName.{labels_of};
    ghost use Rattle.dns_wire.specs.Suffix.{suffixes};
    ghost use Rattle.dns_name.specs.Suffixes.{suffixes_left};

    /// Returns the parent, or `None` for the root.
    fn to_parent(&self) -> Option<Self>
        ensures { suffixes (labels_of self.now) ≡ labels_of self.now ∷ suffixes_left result }
    {
        let mut parent = *self;
        match parent.parent() {
            Some(()) => Some(parent),
            None => None,
        }
    }
}
