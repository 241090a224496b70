//! Parts of names in messages.
ghost use Rattle.std.specs.Prelude.{◌≡◌, ◌∷◌, List, ℕ, [], Some, false, length, slice_get, IsTrue, ◌↔◌, IfOk, IfErr, IfSome, IfNone, OnOk, OnErr};
ghost use Rattle.dns_label.specs.Label.{label_octets};
ghost use Rattle.dns_label.specs.Name.{with_root, wire, low};
ghost use Rattle.dns_label.specs.Labels.{labels_at};
ghost use Rattle.dns_label.specs.Spelled.{DecodesName};
ghost use Rattle.dns_wire.specs.Cut.{IsCut};
ghost use Rattle.dns_wire.specs.Parsed.{IsReadAt, IsWrittenAt};
ghost use Rattle.dns_wire.specs.Suffix.{EndsWith, StartsWith};
ghost use Rattle.dns_octets.specs.declared.error.ParseError.TheVariants.{ShortInput};

use super::ParsedName;
use dns_flat::{Name, ToName};
use dns_label::{Label, SplitLabelError};
use dns_octets::{Octets, ParseError, Parser};
use dns_wire::ToLabelIter;
use dns_wire::compare::{ends_with, starts_with};
use dns_wire::skip::skip_name;
use dns_wire::walk::{label_at, split_label};

impl<'a> ParsedName<&'a [u8]> {
    ghost use Rattle.dns_octets.specs.Parser.{octets_of, place_of};
    ghost use Rattle.dns_name.specs.ParsedName.{labels_of};
    ghost use Rattle.dns_wire.specs.Skip.{Skips};

    /// Parses the name at the parser's place, over the octets that the parser borrows, as `parse` does.
    pub fn parse_ref(parser: &mut Parser<'a>) -> Result<Self, ParseError>
        ensures ok { IfOk result (λ name. DecodesName (octets_of parser.old) (place_of parser.old) (labels_of name) (place_of parser.new)) }
        ensures err { OnErr result ((name : List (List ℕ)) (next : ℕ) → DecodesName (octets_of parser.old) (place_of parser.old) name next → ⊥) }
        ensures short { IfErr result (λ error. (error ≡ ShortInput) ↔ IsCut (octets_of parser.old) 255 254 (place_of parser.old)) }
        ensures same { octets_of parser.new ≡ octets_of parser.old }
        ensures stays { OnErr result (parser.new ≡ parser.old) }
    {
        ParsedName::parse(parser)
    }

    /// Moves the parser after the name at its place, and follows no pointer.
    ///
    /// If a name is read there, it stops where `parse` does. Fails if there are no labels of at most 254 octets that
    /// the root or a pointer follows: with `ShortInput` exactly if the message ends after at most 254 octets of labels,
    /// and else with a form error. The parser then stays where it is.
    pub fn skip(parser: &mut Parser<'_>) -> Result<(), ParseError>
        ensures ok { OnOk result (Skips (octets_of parser.old) 254 (place_of parser.old) (place_of parser.new)) }
        ensures err { OnErr result ((next : ℕ) → Skips (octets_of parser.old) 254 (place_of parser.old) next → ⊥) }
        ensures short { IfErr result (λ error. (error ≡ ShortInput) ↔ IsCut (octets_of parser.old) 0 254 (place_of parser.old)) }
        ensures same { octets_of parser.new ≡ octets_of parser.old }
        ensures stays { OnErr result (parser.new ≡ parser.old) }
    {
        let next = skip_name(parser.as_slice(), parser.pos())?;
        parser.seek(next)?;
        Ok(())
    }

    /// Takes off the first label and returns it, so that the name becomes its parent. Returns `None` for the root,
    /// which does not change.
    pub fn split_first(&mut self) -> Option<Label<'a>>
        ensures some { IfSome result (λ label. labels_of self.old ≡ label_octets label ∷ labels_of self.new) }
        ensures none { IfNone result ((labels_of self.old ≡ []) × (self.new ≡ self.old)) }
    {
        let Some(first) = split_first(self.octets, self.start, self.len) else {
            return None;
        };
        self.start = first.next;
        self.len = first.len;
        Some(first.label)
    }

    /// Returns the same name, over the octets that this one borrows.
    pub fn deref_octets(&self) -> ParsedName<&'a [u8]>
        ensures { result ≡ self.now }
    {
        *self
    }
}

impl<Octs: Octets> ParsedName<Octs> {
    ghost use Rattle.dns_name.specs.ParsedName.{labels_of, labels_in, IsWrittenOut};

    /// Returns whether the name is compressed at its place: there is a pointer before its root.
    pub fn is_compressed(&self) -> bool
        ensures out { result ≡ false → IsWrittenOut Octs.list self.now }
        ensures compressed { IsTrue result → IsWrittenOut Octs.list self.now → ⊥ }
    {
        has_pointer(self.octets.octets(), self.start)
    }

    /// Returns the same name over borrowed octets.
    pub fn ref_octets(&self) -> ParsedName<&[u8]>
        ensures { labels_of result ≡ labels_in Octs.list self.now }
    {
        ParsedName {
            octets: self.octets.octets(),
            start: self.start,
            len: self.len,
        }
    }

    /// Returns the first label, which is the root's if there is no other.
    pub fn first(&self) -> Label<'_>
        ensures { Some (label_octets result) ≡ slice_get (with_root (labels_in Octs.list self.now)) 0 }
    {
        split_label(self.octets.octets(), self.start).0
    }

    /// Returns the last label, which is the root's.
    pub fn last(&self) -> Label<'_>
        ensures { Some (label_octets result) ≡ slice_get (with_root (labels_in Octs.list self.now)) (length (labels_in Octs.list self.now)) }
    {
        Label::root()
    }

    /// Returns whether the labels begin with those of the other name, up to ASCII case (RFC 4343).
    pub fn starts_with<N: ToLabelIter>(&self, start: &N) -> bool
        ensures { IsTrue result ↔ StartsWith (low (with_root (labels_in Octs.list self.now))) (low (N.labels start.now)) }
    {
        starts_with(self, start)
    }

    /// Returns whether the name ends with another one, up to ASCII case (RFC 4343).
    pub fn ends_with<N: ToName>(&self, base: &N) -> bool
        ensures { IsTrue result ↔ EndsWith (low (labels_in Octs.list self.now)) (low (N.name base.now)) }
    {
        ends_with(self, base)
    }

    /// Takes off the first label, so that the name becomes its parent. Returns `None` for the root, which does not
    /// change.
    pub fn parent(&mut self) -> Option<()>
        ensures some { IfSome result (λ _. (label : List ℕ) × (labels_in Octs.list self.old ≡ label ∷ labels_in Octs.list self.new)) }
        ensures none { IfNone result ((labels_in Octs.list self.old ≡ []) × (labels_in Octs.list self.new ≡ [])) }
    {
        let Some(first) = split_first(self.octets.octets(), self.start, self.len) else {
            return None;
        };
        self.start = first.next;
        self.len = first.len;
        Some(())
    }
}

/// Returns whether there is a pointer in the name that is read at the place.
fn has_pointer(octets: &[u8], start: usize) -> bool
    requires { ∥ IsReadAt octets.now start ∥₁ }
    ensures out { result ≡ false → IsWrittenAt octets.now start }
    ensures compressed { IsTrue result → IsWrittenAt octets.now start → ⊥ }
{
    let mut place = start;
    loop {
        match label_at(octets, place) {
            Ok((label, _)) => {
                if label.is_root() {
                    return false;
                }
                place += label.len() + 1;
            }
            Err(SplitLabelError::Pointer(_)) => return true,
            Err(SplitLabelError::BadType(_)) => unreachable!(),
            Err(SplitLabelError::ShortInput) => unreachable!(),
        }
    }
}

/// The first label of a name, and the name after it.
#[derive(Drop)]
struct First<'a> {
    label: Label<'a>,
    /// The place of the name after the label.
    next: usize,
    /// The number of octets of that name on the wire, with the root's.
    len: u16,
}

/// Splits the first label off the name of `len` octets that is read at the place. Returns `None` for the root.
fn split_first(octets: &[u8], start: usize, len: u16) -> Option<First<'_>>
    requires read { ∥ IsReadAt octets.now start ∥₁ }
    requires counted { len ≡ length (wire (labels_at octets.now start)) }
    ensures some { IfSome result (λ first. labels_at octets.now start ≡ label_octets first.label ∷ labels_at octets.now first.next) }
    ensures read { IfSome result (λ first. ∥ IsReadAt octets.now first.next ∥₁) }
    ensures counted { IfSome result (λ first. first.len ≡ length (wire (labels_at octets.now first.next))) }
    ensures none { IfNone result (labels_at octets.now start ≡ []) }
{
    let (label, next) = split_label(octets, start);
    let next = next?;
    Some(First {
        label,
        next,
        len: len - (label.len() as u16 + 1),
    })
}

impl<Octs: Octets> From<Name<Octs>> for ParsedName<Octs> {
    ghost use Rattle.dns_name.specs.ParsedName.{labels_in};

    ghost from_gives = { λ name parsed. labels_in Octs.list parsed ≡ name };

    fn from(name: Name<Octs>) -> Self {
        let len = name.len() as u16;
        ParsedName {
            octets: name.into_octets(),
            start: 0,
            len,
        }
    }
}
