//! Parts of relative names.
//!
//! A place is a number of octets from the start of the name. A call that takes places requires that labels begin there,
//! or that the name ends there; `is_label_start` tells.
ghost use Rattle.std.specs.Prelude.{◌≡◌, ◌≤◌, ◌-◌, ◌↔◌, ◌∷◌, ◌++◌, List, ℕ, [], length, option_map, slice_get, IsTrue, IfSome, IfNone, OnOk, OnErr};
ghost use Rattle.dns_label.specs.Label.{label_octets};
ghost use Rattle.dns_label.specs.Name.{low};
ghost use Rattle.dns_wire.specs.FlatLabels.{AreLabels, flat_labels};
ghost use Rattle.dns_wire.specs.Parts.{IsLabelStart, IsFront, IsBack, IsBetween};
ghost use Rattle.dns_wire.specs.Suffix.{EndsWith, StartsWith};

use super::RelativeName;
use crate::name_iter::split_first;
use dns_label::Label;
use dns_octets::{Octets, Truncate};
use dns_wire::ToLabelIter;
use dns_wire::compare::{ends_with, starts_with};
use thiserror::Error;

/// The name does not end with the other one.
#[derive(Clone, Copy, Debug, PartialEq, Eq, Error)]
#[error("suffix not found")]
pub struct StripSuffixError;

impl<'a> RelativeName<&'a [u8]> {
    /// Returns the labels before the place.
    pub(crate) fn front(self, mid: usize) -> Self
        requires { IsLabelStart self mid }
        ensures { IsFront self.entry mid result }
    {
        let (front, _) = self.into_octets().split_at(mid);
        RelativeName::of_octets(front)
    }

    /// Returns the labels from the place on.
    pub(crate) fn back(self, mid: usize) -> Self
        requires { IsLabelStart self mid }
        ensures { IsBack self.entry mid result }
    {
        let (_, back) = self.into_octets().split_at(mid);
        RelativeName::of_octets(back)
    }

    /// Returns the labels between the places.
    pub(crate) fn between(self, start: usize, end: usize) -> Self
        requires start { IsLabelStart self start }
        requires end { IsLabelStart self end }
        requires in_order { start ≤ end }
        ensures { IsBetween self.entry start end result }
    {
        self.back(start).front(end - start)
    }

    /// Returns the first label and those after it.
    pub(crate) fn first_and_rest(self) -> Option<(Label<'a>, Self)>
        ensures some { IfSome result (λ found. self.entry ≡ label_octets found.0 ∷ found.1) }
        ensures none { IfNone result (self.entry ≡ []) }
    {
        let (label, behind) = split_first(self.into_octets())?;
        Some((label, RelativeName::of_octets(behind)))
    }
}

impl<Octs: Octets> RelativeName<Octs> {
    /// Returns whether a label begins at the place, or the name ends there.
    pub fn is_label_start(&self, place: usize) -> bool
        ensures { IsTrue result ↔ IsLabelStart self.now place }
    {
        starts_label(self.as_slice(), place)
    }

    /// Returns the first label, or `None` if there is none.
    pub fn first(&self) -> Option<Label<'_>>
        ensures { option_map label_octets result ≡ slice_get self.now 0 }
    {
        self.iter().label(0)
    }

    /// Returns the last label, or `None` if there is none.
    pub fn last(&self) -> Option<Label<'_>>
        ensures { option_map label_octets result ≡ slice_get self.now (length self.now - 1) }
    {
        self.iter().label(self.label_count().saturating_sub(1))
    }

    /// Returns whether the labels begin with those of the other name, up to ASCII case (RFC 4343).
    pub fn starts_with<N: ToLabelIter>(&self, start: &N) -> bool
        ensures { IsTrue result ↔ StartsWith (low self.now) (low (N.labels start.now)) }
    {
        starts_with(self, start)
    }

    /// Returns whether the labels end with those of the other name, up to ASCII case (RFC 4343).
    pub fn ends_with<N: ToLabelIter>(&self, end: &N) -> bool
        ensures { IsTrue result ↔ EndsWith (low self.now) (low (N.labels end.now)) }
    {
        ends_with(self, end)
    }

    /// Returns the labels from the place `start` to the place `end`.
    pub fn slice(&self, start: usize, end: usize) -> RelativeName<&[u8]>
        requires start { IsLabelStart self.now start }
        requires end { IsLabelStart self.now end }
        requires in_order { start ≤ end }
        ensures { IsBetween self.now start end result }
    {
        self.for_ref().between(start, end)
    }

    /// Returns the labels from the place `start` to the place `end`, as `slice` does.
    pub fn range(&self, start: usize, end: usize) -> RelativeName<&[u8]>
        requires start { IsLabelStart self.now start }
        requires end { IsLabelStart self.now end }
        requires in_order { start ≤ end }
        ensures { IsBetween self.now start end result }
    {
        self.slice(start, end)
    }

    /// Returns the labels before the place, and those from there on.
    pub fn split(&self, mid: usize) -> (RelativeName<&[u8]>, RelativeName<&[u8]>)
        requires { IsLabelStart self.now mid }
        ensures front { IsFront self.now mid result.0 }
        ensures back { IsBack self.now mid result.1 }
    {
        (self.for_ref().front(mid), self.for_ref().back(mid))
    }

    /// Keeps the labels before the place.
    pub fn truncate(&mut self, mid: usize)
    where
        Octs: Truncate,
        requires { IsLabelStart self.old mid }
        ensures { IsFront self.old mid self.new }
    {
        self.octets.truncate(mid);
    }

    /// Returns the first label and those after it, or `None` if there is none.
    pub fn split_first(&self) -> Option<(Label<'_>, RelativeName<&[u8]>)>
        ensures some { IfSome result (λ found. self.now ≡ label_octets found.0 ∷ found.1) }
        ensures none { IfNone result (self.now ≡ []) }
    {
        self.for_ref().first_and_rest()
    }

    /// Returns the labels after the first, or `None` if there is none.
    pub fn parent(&self) -> Option<RelativeName<&[u8]>>
        ensures some { IfSome result (λ parent. (label : List ℕ) × (self.now ≡ label ∷ parent)) }
        ensures none { IfNone result (self.now ≡ []) }
    {
        match self.split_first() {
            Some((_, parent)) => Some(parent),
            None => None,
        }
    }

    /// Removes the labels of the other name from the end, up to ASCII case (RFC 4343). Fails if the name does not end
    /// with them, and then changes nothing.
    pub fn strip_suffix<N: ToLabelIter>(&mut self, base: &N) -> Result<(), StripSuffixError>
    where
        Octs: Truncate,
        ensures ok { OnOk result ((rest : List (List ℕ)) × (self.old ≡ self.new ++ rest) × (low rest ≡ low (N.labels base.now))) }
        ensures err { OnErr result ((self.new ≡ self.old) × (EndsWith (low self.old) (low (N.labels base.now)) → ⊥)) }
    {
        if !self.ends_with(base) {
            return Err(StripSuffixError);
        }
        let mid = self.len() - usize::from(base.compose_len());
        self.truncate(mid);
        Ok(())
    }
}

impl<Octs: Octets> ToLabelIter for RelativeName<Octs> {
    ghost use Rattle.dns_label.specs.Name.{labels_wire};
    ghost use Rattle.dns_flat.specs.Relative.{StandsIn};

    ghost labels = { λ name. name };

    ghost stands = { λ name index place. StandsIn (labels_wire name) name index place };

    fn label(&self, index: usize) -> Option<Label<'_>> {
        self.iter().label(index)
    }

    fn compose_len(&self) -> u16 {
        self.len() as u16
    }

    fn first_place(&self) -> Option<usize> {
        // Naming the field makes the facts of its type known to the prover.
        let _ = &self.octets;
        Some(0)
    }

    fn label_at(&self, _index: usize, place: Option<usize>) -> Option<(Label<'_>, Option<usize>)> {
        let place = place?;
        let (_, rest) = self.as_slice().split_at(place);
        let (label, _) = split_first(rest)?;
        Some((label, Some(place + 1 + label.len())))
    }
}

/// Returns whether a label of the octets begins at the place, or they end there.
pub(crate) fn starts_label(octets: &[u8], place: usize) -> bool
    requires { AreLabels octets.now }
    ensures { IsTrue result ↔ IsLabelStart (flat_labels octets.now) place }
{
    let mut rest = octets;
    let mut left = place;
    while left > 0 {
        let Some((label, behind)) = split_first(rest) else {
            return false;
        };
        let Some(more) = left.checked_sub(label.len() + 1) else {
            return false;
        };
        left = more;
        rest = behind;
    }
    true
}
