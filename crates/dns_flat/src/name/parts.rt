//! Parts of absolute names.
//!
//! A place is a number of octets from the start of the name. A call that takes places requires that labels begin there;
//! `is_label_start` tells.
ghost use Rattle.std.specs.Prelude.{◌≡◌, ◌≤◌, ◌↔◌, ◌∷◌, ◌++◌, List, ℕ, [], Some, length, slice_get, IsTrue, IfSome, IfNone, IfOk, IfErr};
ghost use Rattle.dns_label.specs.Label.{label_octets};
ghost use Rattle.dns_label.specs.Name.{with_root, low};
ghost use Rattle.dns_wire.specs.Parts.{IsLabelStart, IsFront, IsBack, IsBetween};
ghost use Rattle.dns_wire.specs.Suffix.{EndsWith, StartsWith};

use super::Name;
use crate::name_iter::split_first;
use crate::{RelativeName, ToName};
use dns_label::Label;
use dns_octets::{Octets, Truncate};
use dns_wire::ToLabelIter;
use dns_wire::compare::starts_with;

impl<Octs: Octets> Name<Octs> {
    /// Returns whether a label begins at the place. The root's label counts too.
    pub fn is_label_start(&self, place: usize) -> bool
        ensures { IsTrue result ↔ IsLabelStart self.now place }
    {
        self.for_relative().is_label_start(place)
    }

    /// Returns the first label, which is the root's if there is no other.
    pub fn first(&self) -> Label<'_>
        ensures { Some (label_octets result) ≡ slice_get (with_root self.now) 0 }
    {
        match self.iter().next() {
            Some(label) => label,
            None => unreachable!(),
        }
    }

    /// Returns the last label, which is the root's.
    pub fn last(&self) -> Label<'_>
        ensures { Some (label_octets result) ≡ slice_get (with_root self.now) (length self.now) }
    {
        Label::root()
    }

    /// Returns whether the labels begin with those of the other name, up to ASCII case (RFC 4343).
    pub fn starts_with<N: ToLabelIter>(&self, start: &N) -> bool
        ensures { IsTrue result ↔ StartsWith (low (with_root self.now)) (low (N.labels start.now)) }
    {
        starts_with(self, start)
    }

    /// Returns the labels from the place `start` to the place `end`.
    pub fn slice(&self, start: usize, end: usize) -> RelativeName<&[u8]>
        requires start { IsLabelStart self.now start }
        requires end { IsLabelStart self.now end }
        requires in_order { start ≤ end }
        ensures { IsBetween self.now start end result }
    {
        self.for_relative().between(start, end)
    }

    /// Returns the labels from the place `start` to the place `end`, as `slice` does.
    pub fn range(&self, start: usize, end: usize) -> RelativeName<&[u8]>
        requires start { IsLabelStart self.now start }
        requires end { IsLabelStart self.now end }
        requires in_order { start ≤ end }
        ensures { IsBetween self.now start end result }
    {
        self.slice(start, end)
    }

    /// Returns the name from the place `start` on.
    pub fn slice_from(&self, start: usize) -> Name<&[u8]>
        requires { IsLabelStart self.now start }
        ensures { IsBack self.now start result }
    {
        let (_, back) = self.as_slice().split_at(start);
        Name::from_octets_unchecked(back)
    }

    /// Returns the labels before the place, and the name from there on.
    pub fn split(&self, mid: usize) -> (RelativeName<&[u8]>, Name<&[u8]>)
        requires { IsLabelStart self.now mid }
        ensures front { IsFront self.now mid result.0 }
        ensures back { IsBack self.now mid result.1 }
    {
        (self.for_relative().front(mid), self.slice_from(mid))
    }

    /// Returns the labels before the place, in the same octets.
    pub fn truncate(self, mid: usize) -> RelativeName<Octs>
    where
        Octs: Truncate,
        requires { IsLabelStart self mid }
        ensures { IsFront self mid result }
    {
        let mut name = self.into_relative();
        name.truncate(mid);
        name
    }

    /// Returns the labels without the root's, over borrowed octets.
    fn for_relative(&self) -> RelativeName<&[u8]>
        ensures { result ≡ self.now }
    {
        let octets = self.as_slice();
        let (front, _) = octets.split_at(octets.len() - 1);
        RelativeName::of_octets(front)
    }

    /// Returns the labels without the root's, in the same octets.
    pub fn into_relative(self) -> RelativeName<Octs>
    where
        Octs: Truncate,
        ensures { result ≡ self }
    {
        let len = self.len();
        let mut octets = self.into_octets();
        octets.truncate(len - 1);
        RelativeName::of_octets(octets)
    }

    /// Returns the first label and the name after it, or `None` for the root.
    pub fn split_first(&self) -> Option<(Label<'_>, Name<&[u8]>)>
        ensures some { IfSome result (λ found. self.now ≡ label_octets found.0 ∷ found.1) }
        ensures none { IfNone result (self.now ≡ []) }
    {
        let (label, behind) = split_first(self.as_slice())?;
        if label.is_root() {
            return None;
        }
        Some((label, Name::from_octets_unchecked(behind)))
    }

    /// Returns the name without its first label, or `None` for the root.
    pub fn parent(&self) -> Option<Name<&[u8]>>
        ensures some { IfSome result (λ parent. (label : List ℕ) × (self.now ≡ label ∷ parent)) }
        ensures none { IfNone result (self.now ≡ []) }
    {
        match self.split_first() {
            Some((_, parent)) => Some(parent),
            None => None,
        }
    }

    /// Returns the labels before the other name, up to ASCII case, in the same octets. Fails if the name does not end
    /// with it, and then returns the name itself.
    pub fn strip_suffix<N: ToName>(self, base: &N) -> Result<RelativeName<Octs>, Self>
    where
        Octs: Truncate,
        ensures ok { IfOk result (λ front. (rest : List (List ℕ)) × (self ≡ front ++ rest) × (low rest ≡ low (N.name base.now))) }
        ensures err { IfErr result (λ name. (name ≡ self) × (EndsWith (low self) (low (N.name base.now)) → ⊥)) }
    {
        if !self.ends_with(base) {
            return Err(self);
        }
        let len = self.len() - usize::from(base.compose_len());
        Ok(self.truncate(len))
    }
}
