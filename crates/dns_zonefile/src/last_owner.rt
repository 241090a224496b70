//! The owner of the last record. A row that begins with white space has the same owner (RFC 1035 5.1).
ghost use Rattle.std.specs.Prelude.{◌≡◌, List, ℕ, Some, None, length, take};
ghost use Rattle.dns_label.specs.Name.{wire};
ghost use Rattle.dns_zonefile.specs.ComposedRow.{BeginsWithName};

use dns_name::{Name, Octets};
use std::marker::Model;

/// The owner of the last record, if there was one. Setting it copies only as many octets as the name has.
#[derive(Debug, Drop)]
pub(crate) struct LastOwner {
    /// The octets of the name, followed by octets without a meaning.
    octets: [u8; 255],
    /// The length of the name in octets. 0 if there was no record.
    len: usize,
}

impl Model for LastOwner {
    ghost use Rattle.std.specs.Prelude.{◌≡◌, ◌≤◌, List, Option, ℕ, length, take};
    ghost use Rattle.dns_zonefile.specs.LastOwner.{HoldsName, name_in};

    ghost Value = { Option (List (List ℕ)) };

    ghost view = { λ last. name_in (take last.len last.octets) };

    ghost invariant = { λ last. (length last.octets ≡ 255) × (last.len ≤ 255) × HoldsName (take last.len last.octets) };
}

impl LastOwner {
    /// Returns the value before the first record.
    pub(crate) fn none() -> Self
        ensures { result ≡ None }
    {
        LastOwner {
            octets: [0; 255],
            len: 0,
        }
    }

    /// Sets the name.
    pub(crate) fn set<Octs: Octets>(&mut self, name: &Name<Octs>)
        ensures { self.new ≡ Some name.now }
    {
        let octets = name.as_slice();
        self.octets[..octets.len()].copy_from_slice(octets);
        self.len = octets.len();
    }

    /// Sets the name to that which the first `len` octets are.
    pub(crate) fn set_first(&mut self, octets: &[u8], len: usize)
        requires { (name : List (List ℕ)) × BeginsWithName octets.now len name }
        ensures { (name : List (List ℕ)) → BeginsWithName octets.now len name → self.new ≡ Some name }
    {
        copy_name(&mut self.octets, octets, len);
        self.len = len;
    }

    /// Returns the name, if there is one.
    pub(crate) fn get(&self) -> Option<Name<&[u8]>>
        ensures { result ≡ self.now }
    {
        if self.len == 0 {
            return None;
        }
        Some(Name::from_octets_unchecked(&self.octets[..self.len]))
    }
}

/// Copies the name that the first `len` octets are. A short one is copied with what is behind it, 32 octets in all: two stores, where
/// a copy of just its octets takes a call.
fn copy_name(to: &mut [u8; 255], octets: &[u8], len: usize)
    requires { (name : List (List ℕ)) × BeginsWithName octets.now len name }
    ensures name { (name : List (List ℕ)) → BeginsWithName octets.now len name → take len to.new ≡ wire name }
    ensures size { length to.new ≡ 255 }
{
    if len <= 32 && octets.len() >= 32 {
        to[..32].copy_from_slice(&octets[..32]);
        return;
    }
    to[..len].copy_from_slice(&octets[..len]);
}
