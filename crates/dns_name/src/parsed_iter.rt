//! The labels of names, one after another.
ghost use Rattle.std.specs.Prelude.{◌≡◌, List, ℕ, option_map, slice_get, take};
ghost use Rattle.dns_label.specs.Name.{with_root};
ghost use Rattle.dns_label.specs.Label.{label_octets};
ghost use Rattle.dns_label.specs.Labels.{labels_at};
ghost use Rattle.dns_wire.specs.Parsed.{IsReadAt, IsLeft, labels_left};

use dns_label::Label;
use dns_wire::walk::split_label;
use std::marker::Model;

/// The labels of a name in a message, from the left, the root's last.
#[derive(Debug, Drop)]
pub struct ParsedNameIter<'a> {
    octets: &'a [u8],
    /// The place of the next label, or `None` after the root's.
    place: Option<usize>,
    /// How many of the labels from there on are left at most; those after them were taken from the right.
    most: usize,
}

impl<'a> Model for ParsedNameIter<'a> {
    ghost Value = { List (List ℕ) };

    ghost view = { λ it. take it.most (labels_left it.octets.now it.place) };

    ghost invariant = { λ it. IsLeft it.octets.now it.place };
}

impl<'a> ParsedNameIter<'a> {
    /// Iterates over the labels of the name that is read at the place.
    pub(crate) fn at(octets: &'a [u8], place: usize) -> Self
        requires { ∥ IsReadAt octets.now place ∥₁ }
        ensures { result ≡ with_root (labels_at octets.now place) }
    {
        ParsedNameIter {
            octets,
            place: Some(place),
            most: 128,
        }
    }

    /// Returns the label with this number, counted from 0.
    pub(crate) fn label(mut self, index: usize) -> Option<Label<'a>>
        ensures { option_map label_octets result ≡ slice_get self.entry index }
    {
        self.nth(index)
    }
}

impl<'a> Iterator for ParsedNameIter<'a> {
    ghost use Rattle.std.specs.Iterator.{YieldsFirstBy, item_count};

    type Item = Label<'a>;

    ghost next_gives = { YieldsFirstBy label_octets (λ labels. labels) };

    ghost remaining = { item_count (λ labels. labels) };

    fn next(&mut self) -> Option<Label<'a>> {
        if self.most == 0 {
            return None;
        }
        let (label, place) = split_label(self.octets, self.place?);
        self.place = place;
        self.most -= 1;
        Some(label)
    }
}

impl<'a> DoubleEndedIterator for ParsedNameIter<'a> {
    ghost use Rattle.std.specs.Iterator.{YieldsLastBy};

    ghost next_back_gives = { YieldsLastBy label_octets (λ labels. labels) };

    /// Returns the last label. It is found from the left, so this takes time linear in the number of labels.
    fn next_back(&mut self) -> Option<Label<'a>> {
        let labels = ParsedNameIter {
            octets: self.octets,
            place: self.place,
            most: self.most,
        };
        let mut last = None;
        let mut count = 0;
        for label in labels {
            last = Some((count, label));
            count += 1;
        }
        let (front, label) = last?;
        self.most = front;
        Some(label)
    }
}
