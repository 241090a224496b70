//! The labels of a message from a place on (RFC 1035, section 4.1.4).
ghost use Rattle.std.specs.Prelude.{◌≡◌, ◌+◌, ◌*◌, ◌≤◌, List, ℕ, [], length, drop, IfSome, IfNone};
ghost use Rattle.dns_label.specs.Label.{label_octets};
ghost use Rattle.dns_label.specs.Name.{with_root};
ghost use Rattle.dns_label.specs.Spelled.{EncodesName};
ghost use Rattle.dns_label.specs.Split.{StartsWithLabel};
ghost use Rattle.dns_label.specs.Seen.{Seen, labels_to_see};

use super::{Label, SplitLabelError};
use std::marker::Model;

/// An iterator of the labels that are seen from a place of a message on.
///
/// It ends after the root's label, or before what is neither a label nor a pointer that is followed. It follows a
/// pointer only to a place before the pointer's own, and at most 255 pointers.
#[derive(Debug, Drop)]
pub struct SliceLabelsIter<'a> {
    octets: &'a [u8],
    /// The place of the next label, or None after the last.
    place: Option<usize>,
    /// The number of pointers that may still be followed.
    pointers: u8,
}

impl<'a> Model for SliceLabelsIter<'a> {
    ghost Value = { List (List ℕ) };

    ghost view = { λ it. labels_to_see it.octets.now it.pointers it.place };
}

impl<'a> Label<'a> {
    /// Iterates over the labels that are seen from a place of a message on: all labels of the name that the message
    /// spells there, the root's last, or else those before the fault.
    pub fn iter_slice(octets: &'a [u8], start: usize) -> SliceLabelsIter<'a>
        ensures seen { Seen octets.now 255 start result }
        ensures few { length result ≤ 256 * (length octets.now + 1) }
        ensures name { (name : List (List ℕ)) (next : ℕ) → EncodesName octets.now 255 start name next → result ≡ with_root name }
    {
        SliceLabelsIter {
            octets,
            place: Some(start),
            pointers: 255,
        }
    }
}

impl<'a> Iterator for SliceLabelsIter<'a> {
    ghost use Rattle.std.specs.Iterator.{YieldsFirstBy, item_count};

    type Item = Label<'a>;

    ghost next_gives = { YieldsFirstBy label_octets (λ labels. labels) };

    ghost remaining = { item_count (λ labels. labels) };

    fn next(&mut self) -> Option<Label<'a>> {
        let start = self.place?;
        self.place = None;
        let (label, place, pointers) = find_label(self.octets, start, self.pointers)?;
        self.pointers = pointers;
        if !label.is_root() {
            self.place = Some(place + 1 + label.len());
        }
        Some(label)
    }
}

/// Returns the label at a place, with pointers followed: the label, its place, and the number of pointers that may
/// still be followed. Returns None if there is no label.
fn find_label(octets: &[u8], start: usize, pointers: u8) -> Option<(Label<'_>, usize, u8)>
    ensures found { IfSome result (λ found. (rest : List ℕ) × StartsWithLabel (drop found.1 octets.now) (label_octets found.0) rest) }
    ensures within { IfSome result (λ found. found.1 + 1 + length (label_octets found.0) ≤ length octets.now) }
    ensures there { IfSome result (λ found. (labels : List (List ℕ)) → Seen octets.now found.2 found.1 labels → Seen octets.now pointers start labels) }
    ensures none { IfNone result (Seen octets.now pointers start []) }
{
    let mut place = start;
    let mut left = pointers;
    loop {
        match Label::split_from(octets_from(octets, place)) {
            Ok((label, _)) => return Some((label, place, left)),
            Err(SplitLabelError::Pointer(target)) => {
                let target = usize::from(target);
                if target >= place || left == 0 {
                    return None;
                }
                left -= 1;
                place = target;
            }
            Err(SplitLabelError::BadType(_)) => return None,
            Err(SplitLabelError::ShortInput) => return None,
        }
    }
}

/// Returns the octets from a place on, or none if the place is past their end.
fn octets_from(octets: &[u8], place: usize) -> &[u8]
    ensures { result.now ≡ drop place octets.now }
{
    octets.get(place..).unwrap_or(&[])
}
