//! The labels of flat names, one after another.
ghost use Rattle.std.specs.Prelude.{◌≡◌, ◌∷◌, ◌++◌, List, ℕ, [], option_map, slice_get, IfSome, IfNone};
ghost use Rattle.dns_label.specs.Label.{label_octets};
ghost use Rattle.dns_wire.specs.FlatLabels.{AreLabels, flat_labels};

use dns_label::Label;
use std::marker::Model;

/// The labels of a flat name, from the left. For an absolute name, the root's is the last.
#[derive(Debug, Drop)]
pub struct NameIter<'a> {
    rest: &'a [u8],
}

impl<'a> Model for NameIter<'a> {
    ghost Value = { List (List ℕ) };

    ghost view = { λ it. flat_labels it.rest.now };

    ghost invariant = { λ it. AreLabels it.rest.now };
}

impl<'a> NameIter<'a> {
    /// Iterates over the labels in the octets.
    pub(crate) fn at(octets: &'a [u8]) -> Self
        requires { AreLabels octets.now }
        ensures { result ≡ flat_labels octets.now }
    {
        NameIter { rest: octets }
    }

    /// Returns the label with this number, counted from 0.
    pub(crate) fn label(mut self, index: usize) -> Option<Label<'a>>
        ensures { option_map label_octets result ≡ slice_get self.entry index }
    {
        self.nth(index)
    }
}

impl<'a> Iterator for NameIter<'a> {
    ghost use Rattle.std.specs.Iterator.{YieldsFirstBy, item_count};

    type Item = Label<'a>;

    ghost next_gives = { YieldsFirstBy label_octets (λ labels. labels) };

    ghost remaining = { item_count (λ labels. labels) };

    fn next(&mut self) -> Option<Label<'a>> {
        let (label, behind) = split_first(self.rest)?;
        self.rest = behind;
        Some(label)
    }
}

impl<'a> DoubleEndedIterator for NameIter<'a> {
    ghost use Rattle.std.specs.Iterator.{YieldsLastBy};

    ghost next_back_gives = { YieldsLastBy label_octets (λ labels. labels) };

    /// Returns the last label. It is found from the left, so this takes time linear in the number of labels.
    fn next_back(&mut self) -> Option<Label<'a>> {
        let (label, front) = split_last(self.rest)?;
        self.rest = front;
        Some(label)
    }
}

/// Returns the first label, and the octets after it, or `None` if there are no octets.
pub(crate) fn split_first(octets: &[u8]) -> Option<(Label<'_>, &[u8])>
    requires { AreLabels octets.now }
    ensures some { IfSome result (λ found. flat_labels octets.now ≡ label_octets found.0 ∷ flat_labels found.1.now) }
    ensures left { IfSome result (λ found. AreLabels found.1.now) }
    ensures none { IfNone result (flat_labels octets.now ≡ []) }
{
    if octets.is_empty() {
        return None;
    }
    match Label::split_from(octets) {
        Ok((label, behind)) => Some((label, behind)),
        Err(_) => unreachable!(),
    }
}

/// Returns the last label, and the octets before it, or `None` if there are no octets.
fn split_last(octets: &[u8]) -> Option<(Label<'_>, &[u8])>
    requires { AreLabels octets.now }
    ensures some { IfSome result (λ found. flat_labels octets.now ≡ flat_labels found.1.now ++ label_octets found.0 ∷ []) }
    ensures left { IfSome result (λ found. AreLabels found.1.now) }
    ensures none { IfNone result (flat_labels octets.now ≡ []) }
{
    let (first, behind) = split_first(octets)?;
    let mut last = first;
    let mut rest = behind;
    'labels: while let Some((label, behind)) = split_first(rest) {
        last = label;
        rest = behind;
    }
    let (front, _) = octets.split_at(octets.len() - last.len() - 1);
    Some((last, front))
}
