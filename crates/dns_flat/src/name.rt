//! Absolute names, flat in octets.
ghost use Rattle.std.specs.Prelude.{◌≡◌, ◌<◌, ◌≤◌, ◌↔◌, List, ℕ, [], ◌++◌, length, take, IsTrue, IsSome, IfSome, IfOk, IfErr, OnErr, OnOk, nat_eq, refl};
ghost use Rattle.std.specs.Ordering.{on};
ghost use Rattle.std.specs.Cmp.Lexicographic.{pointwise, nat_list_eq_equiv};
ghost use Rattle.std.specs.Cmp.Rules.{comparing};
ghost use Rattle.std.proofs.Common.{rules};
ghost use Rattle.dns_label.specs.Name.{IsName, wire, with_root, low};
ghost use Rattle.dns_wire.specs.Flat.{IsWritten, StartsWithName};
ghost use Rattle.dns_wire.specs.Suffix.{EndsWith};
ghost use Rattle.dns_label.specs.Labels.{labels_at};
ghost use Rattle.dns_wire.specs.Parsed.{LabelsStandAt};
ghost use Rattle.dns_wire.specs.Cut.{IsCut};
ghost use Rattle.dns_flat.specs.NoName.{IsNoName};
ghost use Rattle.dns_flat.specs.declared.name.NameError.TheVariants.{LongName};
ghost use Rattle.dns_octets.specs.Parser.{GoesOn, octets_of, place_of, rest_of};
ghost use Rattle.dns_octets.specs.declared.error.ParseError.TheVariants.{ShortInput};

mod canonical;
mod first;
mod makes;
mod order;
mod parts;
mod suffixes;

use crate::{NameIter, ToName};
use dns_label::{Label, LabelTypeError, SplitLabelError};
use dns_octets::{Octets, ParseError, Parser};
use dns_wire::ToLabelIter;
use dns_wire::compare::{ends_with, flat_ends_with};
use dns_wire::skip::skip_name;
use dns_wire::walk::split_label;
pub use first::first_name;
pub(crate) use makes::copied_name;
use std::alloc::{AllocError, Global};
use std::marker::Model;
pub use suffixes::SuffixIter;
use thiserror::Error;

/// Why octets are no name.
#[derive(Clone, Copy, Debug, PartialEq, Eq, Error)]
pub enum NameError {
    /// The octet at the place of a label's length begins no label.
    #[error("{0}")]
    BadLabel(LabelTypeError),
    /// There is a compression pointer. A flat name has none.
    #[error("compressed domain name")]
    CompressedName,
    /// There are more than 255 octets.
    #[error("long domain name")]
    LongName,
    /// There are octets after the root.
    #[error("trailing data")]
    TrailingData,
    /// The octets end before the root.
    #[error("unexpected end of input")]
    ShortInput,
}

/// An absolute name, uncompressed (RFC 1035 3.1): its labels, the root's included, in at most 255 octets.
///
/// A contract sees it as the list of its labels without the root's.
#[derive(Debug, Drop)]
pub struct Name<Octs: Octets> {
    octets: Octs,
}

impl<Octs: Octets> Model for Name<Octs> {
    ghost Value = { List (List ℕ) };

    ghost view = { λ name. labels_at (Octs.list name.octets) 0 };

    ghost invariant = { λ name. IsWritten (Octs.list name.octets) };
}

impl<Octs: Octets> Name<Octs> {
    /// The largest number of octets of a name, the root's counted (RFC 1035 2.3.4).
    pub const MAX_LEN: usize = 255;

    /// Makes a name of its octets. Fails if they are no name, uncompressed and whole: with `LongName` if there are more
    /// than 255 of them, and else with the error of what follows the first labels.
    pub fn from_octets(octets: Octs) -> Result<Self, NameError>
    where
        Octs: Drop,
        ensures ok { IfOk result (λ name. IsName name × (Octs.list octets ≡ wire name)) }
        ensures err { OnErr result ((name : List (List ℕ)) → IsName name → Octs.list octets ≡ wire name → ⊥) }
        ensures why { IfErr result (IsNoName (Octs.list octets)) }
        ensures long { IfErr result (λ error. 255 < length (Octs.list octets) → error ≡ LongName) }
    {
        check(octets.octets())?;
        Ok(Name { octets })
    }

    /// Returns the octets that hold the name.
    pub fn as_octets(&self) -> &Octs
        ensures { Octs.list result.now ≡ wire self.now }
    {
        &self.octets
    }

    /// Returns the octets that hold the name.
    pub fn into_octets(self) -> Octs
        ensures { Octs.list result ≡ wire self }
    {
        let Name { octets } = self;
        octets
    }

    /// Returns the octets, uncompressed.
    pub fn as_slice(&self) -> &[u8]
        ensures octets { result.now ≡ wire self.now }
        ensures name { IsName self.now }
    {
        self.octets.octets()
    }

    /// Returns the same name over borrowed octets.
    pub fn for_ref(&self) -> Name<&[u8]>
        ensures { result ≡ self.now }
    {
        Name {
            octets: self.octets.octets(),
        }
    }

    /// Returns the number of octets of the name, with the root's.
    pub fn len(&self) -> usize
        ensures octets { result ≡ length (wire self.now) }
        ensures name { IsName self.now }
    {
        self.as_slice().len()
    }

    /// Returns whether this is the root, which has no label but its own.
    pub fn is_root(&self) -> bool
        ensures { IsTrue result ↔ (self.now ≡ []) }
    {
        self.len() == 1
    }

    /// Returns the number of labels, with the root's.
    pub fn label_count(&self) -> usize
        ensures { result ≡ length (with_root self.now) }
    {
        self.iter().count()
    }

    /// Returns the labels from the left, the root's last.
    pub fn iter(&self) -> NameIter<'_>
        ensures labels { result ≡ with_root self.now }
        ensures few { length result ≤ 128 }
    {
        NameIter::at(self.as_slice())
    }

    /// Returns whether the name ends with another one, up to ASCII case (RFC 4343).
    pub fn ends_with<N: ToName>(&self, base: &N) -> bool
        ensures { IsTrue result ↔ EndsWith (low self.now) (low (N.name base.now)) }
    {
        match base.as_flat_slice() {
            Some(end) => flat_ends_with(self.as_slice(), end),
            None => ends_with(self, base),
        }
    }
}

impl<'a> Name<&'a [u8]> {
    /// Makes a name of its octets. Fails if they are no name, uncompressed and whole, as `from_octets` does.
    pub fn from_slice(octets: &'a [u8]) -> Result<Self, NameError>
        ensures ok { IfOk result (λ name. IsName name × (octets.now ≡ wire name)) }
        ensures err { OnErr result ((name : List (List ℕ)) → IsName name → octets.now ≡ wire name → ⊥) }
        ensures why { IfErr result (IsNoName octets.now) }
        ensures long { IfErr result (λ error. 255 < length octets.now → error ≡ LongName) }
    {
        Name::from_octets(octets)
    }

    /// Parses a name without compression pointers, and moves the parser after it.
    ///
    /// Fails if there is no such name of at most 255 octets at the parser's place: with `ShortInput` exactly if the
    /// message ends after at most 254 octets of labels, and else with a form error. The parser then stays where it is.
    pub fn parse(parser: &mut Parser<'a>) -> Result<Self, ParseError>
        ensures ok { IfOk result (λ name. IsName name × (rest_of parser.old ≡ wire name ++ rest_of parser.new)) }
        ensures place { IfOk result (λ name. GoesOn parser.old parser.new (length (wire name))) }
        ensures err { OnErr result ((name : List (List ℕ)) (rest : List ℕ) → IsName name → rest_of parser.old ≡ wire name ++ rest → ⊥) }
        ensures short { IfErr result (λ error. (error ≡ ShortInput) ↔ IsCut (octets_of parser.old) 0 254 (place_of parser.old)) }
        ensures stays { OnErr result (parser.new ≡ parser.old) }
    {
        let front = next_255(parser);
        let behind = match behind_root(front) {
            Ok(behind) => behind,
            Err(_) => return Err(refusal(parser)),
        };
        let octets = parser.parse_octets(front.len() - behind.len())?;
        Ok(Name { octets })
    }
}

/// Returns the next 255 octets, or as many as are left.
fn next_255<'a>(parser: &Parser<'a>) -> &'a [u8]
    ensures { result.now ≡ take 255 (rest_of parser.now) }
{
    match parser.peek(255) {
        Ok(front) => front,
        Err(_) => &parser.as_slice()[parser.pos()..],
    }
}

/// Returns why there is no name without pointers at the parser's place.
fn refusal(parser: &Parser<'_>) -> ParseError
    ensures { (result ≡ ShortInput) ↔ IsCut (octets_of parser.now) 0 254 (place_of parser.now) }
{
    match skip_name(parser.as_slice(), parser.pos()) {
        Ok(_) => ParseError::form_error("compressed domain name"),
        Err(error) => error,
    }
}

impl<Octs: Octets> PartialEq for Name<Octs> {
    ghost eq = { on low (pointwise (pointwise nat_eq)) };

    ghost laws = { Prim.search (comparing, rules) };

    fn eq(&self, other: &Self) -> bool {
        self.as_slice().eq_ignore_ascii_case(other.as_slice())
    }
}

impl<Octs: Octets> Eq for Name<Octs> {
    ghost laws = { Prim.search (comparing, rules) };
}

impl<Octs: Octets> ToLabelIter for Name<Octs> {
    ghost labels = { with_root };

    ghost stands = { λ name index place. LabelsStandAt (wire name) (with_root name) index place };

    fn label(&self, index: usize) -> Option<Label<'_>> {
        self.iter().label(index)
    }

    fn compose_len(&self) -> u16 {
        self.len() as u16
    }

    fn first_place(&self) -> Option<usize> {
        // Naming the field makes the facts of its type known to the prover.
        let _ = &self.octets;
        Some(0)
    }

    fn label_at(&self, _index: usize, place: Option<usize>) -> Option<(Label<'_>, Option<usize>)> {
        Some(split_label(self.as_slice(), place?))
    }
}

impl<Octs: Octets> ToName for Name<Octs> {
    ghost name = { λ name. name };

    ghost is_absolute = { λ _. refl };

    /// Returns the octets, which are always flat here.
    fn as_flat_slice(&self) -> Option<&[u8]>
        ensures flat { IsSome result }
        ensures octets { IfSome result (λ octets. octets.now ≡ wire self.now) }
        ensures name { IsName self.now }
    {
        Some(self.as_slice())
    }

    fn to_vec(&self, alloc: Global) -> Result<Name<Vec<u8>>, AllocError> {
        Ok(Name {
            octets: Vec::from_slice(alloc, self.as_slice())?,
        })
    }
}

/// Fails if the octets are no name.
fn check(octets: &[u8]) -> Result<(), NameError>
    ensures ok { OnOk result (IsWritten octets.now) }
    ensures err { OnErr result ((name : List (List ℕ)) → IsName name → octets.now ≡ wire name → ⊥) }
    ensures why { IfErr result (IsNoName octets.now) }
    ensures long { IfErr result (λ error. 255 < length octets.now → error ≡ LongName) }
{
    if octets.len() > 255 {
        return Err(NameError::LongName);
    }
    let behind = behind_root(octets)?;
    if behind.is_empty() {
        Ok(())
    } else {
        Err(NameError::TrailingData)
    }
}

/// Returns the octets after the first root.
fn behind_root(octets: &[u8]) -> Result<&[u8], NameError>
    ensures ok { IfOk result (λ behind. (name : List (List ℕ)) × StartsWithName octets.now name behind.now) }
    ensures err { OnErr result ((name : List (List ℕ)) (rest : List ℕ) → StartsWithName octets.now name rest → ⊥) }
    ensures why { IfErr result (IsNoName octets.now) }
{
    let mut rest = octets;
    loop {
        match Label::split_from(rest) {
            Ok((label, behind)) => {
                if label.is_root() {
                    return Ok(behind);
                }
                rest = behind;
            }
            Err(SplitLabelError::Pointer(_)) => return Err(NameError::CompressedName),
            Err(SplitLabelError::BadType(kind)) => return Err(NameError::BadLabel(kind)),
            Err(SplitLabelError::ShortInput) => return Err(NameError::ShortInput),
        }
    }
}
