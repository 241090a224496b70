//! What all names have in common: their labels, one by one.
ghost use Rattle.std.specs.Prelude.{◌≡◌, ◌≤◌, ◌+◌, List, ℕ, Option, length, drop, take, option_map, slice_get, IfSome, IsTrue, ◌↔◌};
ghost use Rattle.dns_label.specs.Label.{label_octets};
ghost use Rattle.dns_label.specs.Name.{labels_wire, low};
ghost use Rattle.dns_wire.specs.Chain.{AreOfName};
ghost use Rattle.dns_wire.specs.Suffix.{EndsWith, StartsWith};

use crate::compare::{ends_with, starts_with};
use dns_label::Label;
use std::marker::Model;

/// A name that gives its labels. The last label of an absolute name is the root's, which is empty.
pub trait ToLabelIter {
    ghost labels: { Self → List (List ℕ) };

    /// Whether the label with this number is at this place.
    ghost stands: { Self → ℕ → Option ℕ → Type 0 };

    /// Returns the label with this number, counted from 0 and from the left, or None after the last one.
    fn label(&self, index: usize) -> Option<Label<'_>>
        ensures label { option_map label_octets result ≡ slice_get (labels self.now) index }
        ensures few { length (labels self.now) ≤ 128 };

    /// Returns the number of octets of the labels on the wire, each with its length octet.
    fn compose_len(&self) -> u16
        ensures { result ≡ length (labels_wire (labels self.now)) };

    /// Returns the place of the first label. What a place is depends on the type.
    fn first_place(&self) -> Option<usize>
        ensures stands { stands self.now 0 result }
        ensures are { ∥ AreOfName (labels self.now) ∥₁ }
        ensures few { length (labels self.now) ≤ 128 }
        ensures short { length (labels_wire (labels self.now)) ≤ 255 };

    /// Returns the label with this number, which is at this place, and the place of the next one. Returns None after
    /// the last label.
    ///
    /// Taking all labels one by one this way takes time in proportion to the octets and pointers of the name.
    fn label_at(&self, index: usize, place: Option<usize>) -> Option<(Label<'_>, Option<usize>)>
        requires { stands self.now index place }
        ensures label { option_map (λ found. label_octets found.0) result ≡ slice_get (labels self.now) index }
        ensures next { IfSome result (λ found. stands self.now (index + 1) found.1) }
        ensures few { length (labels self.now) ≤ 128 };

    /// Returns an iterator of the labels from the left.
    final fn iter_labels(&self) -> LabelIter<'_, Self>
        ensures labels { result ≡ labels self.now }
        ensures few { length result ≤ 128 }
        ensures short { length (labels_wire result) ≤ 255 }
        ensures are { ∥ AreOfName result ∥₁ }
    {
        LabelIter {
            name: self,
            index: 0,
            place: self.first_place(),
            most: 128,
        }
    }

    /// Returns whether the labels begin with those of the other name, up to ASCII case (RFC 4343).
    final fn starts_with<N: ToLabelIter>(&self, start: &N) -> bool
        ensures { IsTrue result ↔ StartsWith (low (labels self.now)) (low (N.labels start.now)) }
    {
        starts_with(self, start)
    }

    /// Returns whether the labels end with those of the other name, up to ASCII case (RFC 4343).
    final fn ends_with<N: ToLabelIter>(&self, end: &N) -> bool
        ensures { IsTrue result ↔ EndsWith (low (labels self.now)) (low (N.labels end.now)) }
    {
        ends_with(self, end)
    }
}

/// An iterator of the labels of a name, from the left.
#[derive(Drop)]
pub struct LabelIter<'a, N: ToLabelIter> {
    name: &'a N,
    /// The number of the next label. Its place is in `place`.
    index: usize,
    place: Option<usize>,
    /// The most labels that are still given from there on; those after them were taken from the right.
    most: usize,
}

impl<'a, N: ToLabelIter> Model for LabelIter<'a, N> {
    ghost Value = { List (List ℕ) };

    ghost view = { λ it. take it.most (drop it.index (N.labels it.name.now)) };

    ghost invariant = { λ it. N.stands it.name.now it.index it.place };
}

impl<'a, N: ToLabelIter> Iterator for LabelIter<'a, N> {
    ghost use Rattle.std.specs.Iterator.{YieldsFirstBy, item_count};

    type Item = Label<'a>;

    ghost next_gives = { YieldsFirstBy label_octets (λ labels. labels) };

    ghost remaining = { item_count (λ labels. labels) };

    fn next(&mut self) -> Option<Label<'a>> {
        if self.most == 0 {
            return None;
        }
        let (label, place) = self.name.label_at(self.index, self.place)?;
        self.index += 1;
        self.place = place;
        self.most -= 1;
        Some(label)
    }
}

impl<'a, N: ToLabelIter> DoubleEndedIterator for LabelIter<'a, N> {
    ghost use Rattle.std.specs.Iterator.{YieldsLastBy};

    ghost next_back_gives = { YieldsLastBy label_octets (λ labels. labels) };

    /// Returns the last label. It is found from the left, so the time grows with the number of labels.
    fn next_back(&mut self) -> Option<Label<'a>> {
        let labels = LabelIter {
            name: self.name,
            index: self.index,
            place: self.place,
            most: self.most,
        };
        let mut last = None;
        let mut count = 0;
        for label in labels {
            last = Some((count, label));
            count += 1;
        }
        let (front, label) = last?;
        self.most = front;
        Some(label)
    }
}
