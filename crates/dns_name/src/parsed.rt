//! Names in messages, with pointers.
ghost use Rattle.std.specs.Prelude.{◌≡◌, ◌≤◌, ◌↔◌, List, ℕ, [], length, refl, IsTrue, IsSome, IfSome, IfOk, IfErr, OnErr};
ghost use Rattle.dns_label.specs.Name.{IsName, wire, with_root};
ghost use Rattle.dns_label.specs.Spelled.{DecodesName};
ghost use Rattle.dns_label.specs.Labels.{labels_at};
ghost use Rattle.dns_wire.specs.Cut.{IsCut};
ghost use Rattle.dns_wire.specs.Parsed.{IsReadAt, LabelsStandAt};
ghost use Rattle.dns_octets.specs.declared.error.ParseError.TheVariants.{ShortInput};

mod order;
mod parts;
mod print;
mod suffixes;

use crate::ParsedNameIter;
use dns_flat::{Name, ToName};
use dns_label::Label;
use dns_octets::{Octets, ParseError, Parser};
use dns_wire::ToLabelIter;
use dns_wire::walk::{split_label, walk_name};
use std::alloc::{AllocError, Global};
pub use suffixes::ParsedSuffixIter;

/// An absolute name at a place of a message, which may be compressed (RFC 1035 4.1.4).
///
/// It holds the message's octets up to the end of its parser, and walks them anew each time.
#[derive(Debug, Drop)]
pub struct ParsedName<Octs: Octets> {
    octets: Octs,
    start: usize,
    len: u16,
    ghost reads: { ∥ IsReadAt (Octs.list octets) start ∥₁ },
    ghost counted: { len ≡ length (wire (labels_at (Octs.list octets) start)) },
}

impl<Octs: Octets + Copy> Clone for ParsedName<Octs> {
    fn clone(&self) -> Result<Self, AllocError> {
        Ok(*self)
    }
}

impl<Octs: Octets + Copy> Copy for ParsedName<Octs> {}

impl<'a> ParsedName<&'a [u8]> {
    ghost use Rattle.dns_octets.specs.Parser.{octets_of, place_of};
    ghost use Rattle.dns_name.specs.ParsedName.{labels_of};

    /// Parses the name at the parser's place, and moves the parser after it: after its root, or after its first
    /// pointer.
    ///
    /// A pointer has to be less than its own place, at most 255 of them are followed, and the name has at most 255
    /// octets. Fails if there is no such name: with `ShortInput` exactly if the message ends after at most 254 octets
    /// of labels and 255 pointers, and else with a form error. The parser then stays where it is.
    pub fn parse(parser: &mut Parser<'a>) -> Result<Self, ParseError>
        ensures ok { IfOk result (λ name. DecodesName (octets_of parser.old) (place_of parser.old) (labels_of name) (place_of parser.new)) }
        ensures err { OnErr result ((name : List (List ℕ)) (next : ℕ) → DecodesName (octets_of parser.old) (place_of parser.old) name next → ⊥) }
        ensures short { IfErr result (λ error. (error ≡ ShortInput) ↔ IsCut (octets_of parser.old) 255 254 (place_of parser.old)) }
        ensures same { octets_of parser.new ≡ octets_of parser.old }
        ensures stays { OnErr result (parser.new ≡ parser.old) }
    {
        let octets = parser.as_slice();
        let start = parser.pos();
        let walk = walk_name(octets, start)?;
        parser.seek(walk.next)?;
        Ok(ParsedName {
            octets,
            start,
            len: walk.len,
        })
    }
}

impl<Octs: Octets> ParsedName<Octs> {
    ghost use Rattle.dns_name.specs.ParsedName.{labels_in};

    /// Returns whether this is the root, which has no label but its own.
    pub fn is_root(&self) -> bool
        ensures { IsTrue result ↔ (labels_in Octs.list self.now ≡ []) }
    {
        self.len == 1
    }

    /// Returns the number of labels, with the root's.
    pub fn label_count(&self) -> usize
        ensures { result ≡ length (with_root (labels_in Octs.list self.now)) }
    {
        self.iter().count()
    }

    /// Returns the labels from the left, the root's last.
    pub fn iter(&self) -> ParsedNameIter<'_>
        ensures labels { result ≡ with_root (labels_in Octs.list self.now) }
        ensures few { length result ≤ 128 }
    {
        ParsedNameIter::at(self.octets.octets(), self.start)
    }
}

impl<Octs: Octets> ToLabelIter for ParsedName<Octs> {
    ghost use Rattle.dns_name.specs.ParsedName.{labels_in};

    ghost labels = { λ name. with_root (labels_in Octs.list name) };

    ghost stands = { λ name index place. LabelsStandAt (Octs.list name.octets) (with_root (labels_in Octs.list name)) index place };

    fn label(&self, index: usize) -> Option<Label<'_>> {
        self.iter().label(index)
    }

    fn compose_len(&self) -> u16 {
        self.len
    }

    fn first_place(&self) -> Option<usize> {
        Some(self.start)
    }

    fn label_at(&self, _index: usize, place: Option<usize>) -> Option<(Label<'_>, Option<usize>)> {
        Some(split_label(self.octets.octets(), place?))
    }
}

impl<Octs: Octets> ToName for ParsedName<Octs> {
    ghost use Rattle.dns_name.specs.ParsedName.{labels_in, IsWrittenOut};

    ghost name = { λ name. labels_in Octs.list name };

    ghost is_absolute = { λ _. refl };

    /// Returns the octets, uncompressed, or `None` exactly if there is a pointer before the root.
    fn as_flat_slice(&self) -> Option<&[u8]>
        ensures flat { IsSome result ↔ IsWrittenOut Octs.list self.now }
        ensures octets { IfSome result (λ octets. octets.now ≡ wire (labels_in Octs.list self.now)) }
        ensures name { IsName (labels_in Octs.list self.now) }
    {
        if self.is_compressed() {
            return None;
        }
        let rest = &self.octets.octets()[self.start..];
        Some(&rest[..usize::from(self.len)])
    }

    fn to_vec(&self, alloc: Global) -> Result<Name<Vec<u8>>, AllocError> {
        let mut octets = Vec::with_capacity(alloc, usize::from(self.len))?;
        for label in self.iter() {
            octets.push(label.len() as u8)?;
            octets.extend_from_slice(label.as_slice())?;
        }
        Ok(Name::from_octets_unchecked(octets))
    }
}
