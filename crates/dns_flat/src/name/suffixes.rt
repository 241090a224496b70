//! The suffixes of flat names.
ghost use Rattle.std.specs.Prelude.{◌≡◌, ◌≤◌, ◌∷◌, length, IfSome};
ghost use Rattle.dns_label.specs.Labels.{labels_at};
ghost use Rattle.dns_wire.specs.Flat.{IsWritten};
ghost use Rattle.dns_flat.specs.FlatSuffixes.{suffixes_in, IsLeftFlat};
ghost use Rattle.dns_wire.specs.Suffix.{suffixes};

use super::Name;
use crate::name_iter::split_first;
use dns_octets::Octets;
use std::marker::Model;

/// A flat name and its parents, up to the root.
#[derive(Debug, Drop)]
pub struct SuffixIter<'a> {
    /// The octets of the next name, or `None` after the root.
    rest: Option<&'a [u8]>,
}

impl<'a> Model for SuffixIter<'a> {
    ghost use Rattle.std.specs.Prelude.{List, ℕ};

    ghost Value = { List (List (List ℕ)) };

    ghost use Rattle.dns_flat.specs.FlatSuffixes.{suffixes_in, IsLeftFlat};

    ghost view = { λ it. suffixes_in it.rest };

    ghost invariant = { λ it. IsLeftFlat it.rest };
}

impl<Octs: Octets> Name<Octs> {
    /// Returns the name itself, its parent, and so on up to the root.
    pub fn iter_suffixes(&self) -> SuffixIter<'_>
        ensures suffixes { result ≡ suffixes self.now }
        ensures few { length result ≤ 128 }
    {
        SuffixIter {
            rest: Some(self.as_slice()),
        }
    }
}

impl<'a> Iterator for SuffixIter<'a> {
    ghost use Rattle.std.specs.Iterator.{YieldsFirstBy, item_count};

    type Item = Name<&'a [u8]>;

    ghost next_gives = { YieldsFirstBy (λ name. name) (λ names. names) };

    ghost remaining = { item_count (λ names. names) };

    fn next(&mut self) -> Option<Name<&'a [u8]>> {
        let octets = self.rest?;
        self.rest = parent_octets(octets);
        Some(Name::from_octets_unchecked(octets))
    }
}

/// Returns the octets of the parent of a name, or `None` for the root.
fn parent_octets(octets: &[u8]) -> Option<&[u8]>
    requires { IsWritten octets.now }
    ensures left { IsLeftFlat result }
    ensures suffixes { suffixes (labels_at octets.now 0) ≡ labels_at octets.now 0 ∷ suffixes_in result }
{
    let (label, behind) = split_first(octets)?;
    if label.is_root() {
        return None;
    }
    Some(behind)
}
