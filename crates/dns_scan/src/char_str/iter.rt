//! The octets of character strings, one after another.
ghost use Rattle.std.specs.Prelude.{◌≡◌, List, ℕ};

use std::marker::Model;

/// The octets of a character string that are left.
#[derive(Debug, Drop)]
pub struct CharStrIter<'a> {
    octets: &'a [u8],
}

impl<'a> Model for CharStrIter<'a> {
    ghost Value = { List ℕ };

    ghost view = { λ it. it.octets.now };
}

impl<'a> CharStrIter<'a> {
    /// Iterates over all of these octets.
    pub(crate) fn over(octets: &'a [u8]) -> Self
        ensures { result ≡ octets.now }
    {
        CharStrIter { octets }
    }
}

impl Iterator for CharStrIter<'_> {
    ghost use Rattle.std.specs.Iterator.{YieldsFirst, item_count};

    type Item = u8;

    ghost next_gives = { YieldsFirst (λ octets. octets) };

    ghost remaining = { item_count (λ octets. octets) };

    fn next(&mut self) -> Option<u8> {
        let (&octet, behind) = self.octets.split_first()?;
        self.octets = behind;
        Some(octet)
    }
}
