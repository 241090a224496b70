//! Character strings (RFC 1035 3.3).
ghost use Rattle.std.specs.Prelude.{◌≡◌, ◌+◌, ◌≤◌, ◌↔◌, List, ℕ, [], length, take, fold, IsTrue, IsOk, IfOk, IfErr, OnOk, OnErr, nat_eq, Some, Err};
ghost use Rattle.std.specs.Ordering.{on, as_partial_cmp, nat_cmp};
ghost use Rattle.std.specs.Cmp.Lexicographic.{pointwise, slice_cmp};
ghost use Rattle.std.specs.Cmp.Rules.{comparing, hashing};
ghost use Rattle.std.specs.Hash as fed;
ghost use Rattle.std.proofs.Common.{rules};
ghost use Rattle.dns_name.specs.Builder.{IsPast};
ghost use Rattle.dns_name.specs.AppendError.TheVariants.{ShortBuf, BadLength};
ghost use Rattle.dns_name.specs.ParseError.TheVariants.{ShortInput};
ghost use Rattle.dns_scan.specs.CharStr.{string_wire, StartsWithString, lower};
ghost use Rattle.dns_name.specs.Parser.{GoesOn, rest_of};

mod builder;
mod iter;
mod text;

pub use builder::CharStrBuilder;
use dns_name::{
    AppendError, CanonicalOrd, Compose, EmptyBuilder, FromBuilder, Octets, OctetsBuilder,
    OctetsFrom, ParseError, Parser,
};
pub use iter::CharStrIter;
use std::alloc::Global;
use std::cmp::Ordering;
use std::hash::{Hash, Hasher};
use std::marker::Model;
pub(crate) use text::octet_of;
pub use text::{DisplayQuoted, DisplayUnquoted, FromStrError, PresentationError};
use thiserror::Error;

/// The octets are more than the 255 of a character string.
#[derive(Clone, Copy, Debug, PartialEq, Eq, Error)]
#[error("long character string")]
pub struct CharStrError;

/// A character string: at most 255 octets (RFC 1035 3.3).
///
/// A contract sees it as the list of its octets. Strings are equal, and ordered, up to ASCII case.
#[derive(Debug, Drop)]
pub struct CharStr<Octs: Octets> {
    octets: Octs,
}

impl<Octs: Octets> Model for CharStr<Octs> {
    ghost Value = { List ℕ };

    ghost view = { λ string. Octs.list string.octets };

    ghost invariant = { λ string. length (Octs.list string.octets) ≤ 255 };
}

impl<Octs: Octets> CharStr<Octs> {
    /// Returns the string of these octets. Fails if there are more than 255.
    pub fn from_octets(octets: Octs) -> Result<Self, CharStrError>
    where
        Octs: Drop,
        ensures ok { IfOk result (λ string. string ≡ Octs.list octets) }
        ensures short { IsOk result ↔ (length (Octs.list octets) ≤ 255) }
    {
        if octets.octets().len() > 255 {
            return Err(CharStrError);
        }
        Ok(CharStr { octets })
    }

    /// Returns the string of these octets, which are not too many.
    pub(crate) fn of_short(octets: Octs) -> Self
        requires { length (Octs.list octets) ≤ 255 }
        ensures { result ≡ Octs.list octets }
    {
        CharStr { octets }
    }

    /// Returns the string without octets. Its octets grow on this allocator, if they grow at all.
    pub fn empty(alloc: Global) -> Self
    where
        Octs: FromBuilder,
        Octs::Builder: EmptyBuilder,
        ensures { result ≡ [] }
    {
        CharStr {
            octets: Octs::from_builder(Octs::Builder::empty(alloc)),
        }
    }

    /// Returns the number of octets, from 0 to 255.
    pub fn len(&self) -> usize
        ensures octets { result ≡ length self.now }
        ensures short { result ≤ 255 }
    {
        self.as_slice().len()
    }

    /// Returns whether there are no octets.
    pub fn is_empty(&self) -> bool
        ensures { IsTrue result ↔ (self.now ≡ []) }
    {
        self.as_slice().is_empty()
    }

    /// Returns the octets.
    pub fn as_slice(&self) -> &[u8]
        ensures octets { result.now ≡ self.now }
        ensures short { length self.now ≤ 255 }
    {
        self.octets.octets()
    }

    /// Returns what holds the octets.
    pub fn into_octets(self) -> Octs
        ensures octets { Octs.list result ≡ self }
        ensures short { length self ≤ 255 }
    {
        let CharStr { octets } = self;
        octets
    }

    /// Returns the same string over borrowed octets.
    pub fn for_ref(&self) -> CharStr<&[u8]>
        ensures { result ≡ self.now }
    {
        CharStr {
            octets: self.as_slice(),
        }
    }

    /// Returns the octets, one after another.
    pub fn iter(&self) -> CharStrIter<'_>
        ensures { result ≡ self.now }
    {
        CharStrIter::over(self.as_slice())
    }
}

impl<'a> CharStr<&'a [u8]> {
    /// Returns the string of these octets. Fails if there are more than 255.
    pub fn from_slice(octets: &'a [u8]) -> Result<Self, CharStrError>
        ensures ok { IfOk result (λ string. string ≡ octets.now) }
        ensures short { IsOk result ↔ (length octets.now ≤ 255) }
    {
        CharStr::from_octets(octets)
    }

    /// Parses a string after its length octet, and moves the parser after the string.
    ///
    /// Fails with `ShortInput` if the octets end before the string does. The parser then stays where it is.
    pub fn parse(parser: &mut Parser<'a>) -> Result<Self, ParseError>
        ensures ok { IfOk result (λ string. StartsWithString (rest_of parser.old) string (rest_of parser.new)) }
        ensures place { IfOk result (λ string. GoesOn parser.old parser.new (length (string_wire string))) }
        ensures err { OnErr result ((string rest : List ℕ) → StartsWithString (rest_of parser.old) string rest → ⊥) }
        ensures ends { IfErr result (λ error. error ≡ ShortInput) }
        ensures stays { OnErr result (parser.new ≡ parser.old) }
    {
        let front = parser.peek(1)?;
        let number = front[0];
        let octets = parser.parse_octets(1 + usize::from(number))?;
        Ok(CharStr {
            octets: &octets[1..],
        })
    }

    /// Moves the parser after a string, as `parse` does, and returns none.
    pub fn skip(parser: &mut Parser<'a>) -> Result<(), ParseError>
        ensures ok { OnOk result ((string : List ℕ) × StartsWithString (rest_of parser.old) string (rest_of parser.new)
            × GoesOn parser.old parser.new (length (string_wire string))) }
        ensures err { OnErr result ((string rest : List ℕ) → StartsWithString (rest_of parser.old) string rest → ⊥) }
        ensures ends { IfErr result (λ error. error ≡ ShortInput) }
        ensures stays { OnErr result (parser.new ≡ parser.old) }
    {
        CharStr::parse(parser)?;
        Ok(())
    }
}

/// Writes the number of the octets, and then the octets (RFC 1035 3.3).
impl<Octs: Octets> Compose for CharStr<Octs> {
    ghost composed = { string_wire };

    fn compose<Target: OctetsBuilder>(&self, target: &mut Target) -> Result<(), AppendError> {
        let octets = self.as_slice();
        let wire = behind_number(octets);
        target.append_slice(&wire[..1 + octets.len()])
    }
}

/// Returns the number of the octets, the octets, and zeros.
fn behind_number(octets: &[u8]) -> [u8; 256]
    requires { length octets.now ≤ 255 }
    ensures wire { take (1 + length octets.now) result ≡ string_wire octets.now }
    ensures size { length result ≡ 256 }
{
    let mut wire = [0; 256];
    wire[0] = octets.len() as u8;
    wire[1..1 + octets.len()].copy_from_slice(octets);
    wire
}

impl<Octs: Octets> PartialEq for CharStr<Octs> {
    ghost eq = { on lower (pointwise nat_eq) };

    ghost laws = { Prim.search (comparing, rules) };

    fn eq(&self, other: &Self) -> bool {
        self.as_slice().eq_ignore_ascii_case(other.as_slice())
    }
}

impl<Octs: Octets> Eq for CharStr<Octs> {
    ghost laws = { Prim.search (comparing, rules) };
}

impl<Octs: Octets> PartialOrd for CharStr<Octs> {
    ghost partial_cmp = { as_partial_cmp (on lower (slice_cmp nat_cmp)) };

    ghost laws = { Prim.search (comparing, rules) };

    fn partial_cmp(&self, other: &Self) -> Option<Ordering> {
        Some(self.cmp(other))
    }
}

impl<Octs: Octets> Ord for CharStr<Octs> {
    ghost cmp = { on lower (slice_cmp nat_cmp) };

    ghost total = { Prim.search (comparing, rules) };

    ghost matches_partial_cmp = { Prim.search (comparing, rules) };

    ghost matches_eq = { Prim.search (comparing, rules) };

    fn cmp(&self, other: &Self) -> Ordering {
        compare_lower(self.as_slice(), other.as_slice())
    }
}

/// Equal strings have equal hashes: ASCII letters are hashed in lower case.
impl<Octs: Octets> Hash for CharStr<Octs> {
    ghost hash_input = { λ string. fed.slice fed.u8 (lower string) };

    ghost respects_eq = { Prim.search (hashing, rules) };

    fn hash<H: Hasher>(&self, state: &mut H) {
        hash_lower(self.as_slice(), state);
    }
}

/// Hashes octets as if ASCII letters were in lower case.
fn hash_lower<H: Hasher>(octets: &[u8], state: &mut H)
    ensures { state.new ≡ fold H.write state.old (fed.slice fed.u8 (lower octets.now)) }
{
    state.write_usize(octets.len());
    for octet in octets {
        state.write_u8(octet.to_ascii_lowercase());
    }
}

/// Compares octets as if ASCII letters were in lower case.
fn compare_lower(octets: &[u8], others: &[u8]) -> Ordering
    ensures { result ≡ slice_cmp nat_cmp (lower octets.now) (lower others.now) }
{
    let mut left = octets;
    let mut right = others;
    loop {
        match (left.split_first(), right.split_first()) {
            (Some((first, behind)), Some((other, beyond))) => {
                match first.to_ascii_lowercase().cmp(&other.to_ascii_lowercase()) {
                    Ordering::Less => return Ordering::Less,
                    Ordering::Greater => return Ordering::Greater,
                    Ordering::Equal => {}
                }
                left = behind;
                right = beyond;
            }
            (None, Some(_)) => return Ordering::Less,
            (Some(_), None) => return Ordering::Greater,
            (None, None) => return Ordering::Equal,
        }
    }
}

/// The order of the octets on the wire: the shorter string first (RFC 4034 6.3).
impl<Octs: Octets> CanonicalOrd for CharStr<Octs> {
    ghost canonical = { on string_wire (slice_cmp nat_cmp) };

    fn canonical_cmp(&self, other: &Self) -> Ordering {
        self.len()
            .cmp(&other.len())
            .then(self.as_slice().cmp(other.as_slice()))
    }
}

/// Copies the string to other octets. Fails with `ShortBuf` only if these can't hold it, and with `OutOfMemory` if out
/// of memory.
impl<Source: Octets + Drop, Octs: FromBuilder> OctetsFrom<CharStr<Source>> for CharStr<Octs>
where
    Octs::Builder: EmptyBuilder + Drop,
{
    ghost octets_from_gives = { λ source result. IfOk result (λ string. string ≡ source)
        × (result ≡ Err ShortBuf → IsPast Octs.Builder.limit (length source))
        × (result ≡ Err BadLength → ⊥) };

    fn try_octets_from(alloc: Global, source: CharStr<Source>) -> Result<Self, AppendError> {
        let mut builder = Octs::Builder::empty(alloc);
        builder.append_slice(source.as_slice())?;
        Ok(CharStr::of_short(Octs::from_builder(builder)))
    }
}
