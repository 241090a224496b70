//! Iterators over the strings of TXT data.
ghost use Rattle.std.specs.Prelude.{◌≡◌, List, ℕ};

use dns_fields::StringsIter;
use dns_text::CharStr;
use std::marker::Model;

/// An iterator over the octets of each string. A contract sees the list of the strings that are left.
#[derive(Debug, Drop)]
pub struct TxtIter<'a> {
    strings: StringsIter<'a>,
}

impl<'a> Model for TxtIter<'a> {
    ghost Value = { List (List ℕ) };

    ghost view = { λ it. it.strings };
}

impl<'a> TxtIter<'a> {
    /// Iterates over all of these strings.
    pub(crate) fn over(strings: StringsIter<'a>) -> Self
        ensures { result ≡ strings.entry }
    {
        TxtIter { strings }
    }
}

impl<'a> Iterator for TxtIter<'a> {
    ghost use Rattle.std.specs.Iterator.{YieldsFirstBy, item_count};

    type Item = &'a [u8];

    ghost next_gives = { YieldsFirstBy (λ string. string.now) (λ strings. strings) };

    ghost remaining = { item_count (λ strings. strings) };

    fn next(&mut self) -> Option<&'a [u8]> {
        match self.strings.next() {
            Some(string) => Some(string.into_octets()),
            None => None,
        }
    }
}

/// An iterator over the strings. A contract sees the list of those that are left.
#[derive(Debug, Drop)]
pub struct TxtCharStrIter<'a> {
    strings: StringsIter<'a>,
}

impl<'a> Model for TxtCharStrIter<'a> {
    ghost Value = { List (List ℕ) };

    ghost view = { λ it. it.strings };
}

impl<'a> TxtCharStrIter<'a> {
    /// Iterates over all of these strings.
    pub(crate) fn over(strings: StringsIter<'a>) -> Self
        ensures { result ≡ strings.entry }
    {
        TxtCharStrIter { strings }
    }
}

impl<'a> Iterator for TxtCharStrIter<'a> {
    ghost use Rattle.std.specs.Iterator.{YieldsFirstBy, item_count};

    type Item = CharStr<&'a [u8]>;

    ghost next_gives = { YieldsFirstBy (λ string. string) (λ strings. strings) };

    ghost remaining = { item_count (λ strings. strings) };

    fn next(&mut self) -> Option<CharStr<&'a [u8]>> {
        self.strings.next()
    }
}
