//! Names that may be absolute or relative.
ghost use Rattle.std.specs.Prelude.{◌≡◌, ◌↔◌, ◌<◌, List, ℕ, Some, Err, length, not, IsTrue, IsOk, IsSome, IfOk, IfErr, IfSome, OnErr, true, false};
ghost use Rattle.dns_label.specs.Name.{IsName, wire};
ghost use Rattle.dns_name.specs.Builder.{IsPast};
ghost use Rattle.dns_label.specs.NameText.{IsAbsoluteText};
ghost use Rattle.std.specs.Iterator.{IsFinite, Drains};
ghost use Rattle.dns_name.specs.NoName.{IsNoRelativeName};
ghost use Rattle.dns_name.specs.RelativeText.{SpellsAbsolute};
ghost use Rattle.dns_name.specs.RelativeNameError.TheVariants.{LongName};
ghost use Rattle.dns_name.specs.SpelledText.{IsNotSpelled, IsNotSpelledBy};
ghost use Rattle.dns_name.specs.AppendError.TheVariants.{ShortBuf, BadLength};
ghost use Rattle.dns_text.specs.declared.uncertain.UncertainName.TheVariants.{Absolute, Relative};
ghost use Rattle.dns_text.specs.Uncertain.{is_absolute, labels_of, uncertain_octets, seen_labels, text_of, StandsIn, IsNoName, IsTextOf};

mod chain;

pub use chain::UncertainChain;
use dns_name::{
    AppendError, EmptyBuilder, FromBuilder, FromStrError, Label, Name, Octets, OctetsBuilder,
    RelativeFromStrError, RelativeName, RelativeNameError, SpelledName, ToLabelIter, laws,
};
use std::alloc::Global;
use std::fmt;

/// A name that is absolute or relative.
#[derive(Debug, Drop)]
#[derive_where(PartialEq, Eq, Hash)]
pub enum UncertainName<Octs: Octets> {
    /// With the root's label after the others.
    Absolute(Name<Octs>),
    /// Without the root's label.
    Relative(RelativeName<Octs>),
}

impl<Octs: Octets> UncertainName<Octs> {
    /// Makes a name of its octets: absolute if the root's label is the last, and relative if there is none. Fails if
    /// they are neither, uncompressed and whole, with the error that they have as a relative name.
    pub fn from_octets(octets: Octs) -> Result<Self, RelativeNameError>
    where
        Octs: Drop,
        ensures ok { IfOk result (λ name. IsName (labels_of name) × (Octs.list octets ≡ uncertain_octets name)) }
        ensures err { OnErr result (IsNoName (Octs.list octets)) }
        ensures why { IfErr result (IsNoRelativeName (Octs.list octets)) }
        ensures long { IfErr result (λ error. 254 < length (Octs.list octets) → error ≡ LongName) }
    {
        if Name::from_slice(octets.octets()).is_err() {
            return Ok(UncertainName::Relative(RelativeName::from_octets(octets)?));
        }
        match Name::from_octets(octets) {
            Ok(name) => Ok(UncertainName::Absolute(name)),
            Err(_) => Err(RelativeNameError::ShortInput),
        }
    }

    /// Reads the name that a text spells (RFC 1035 5.1): an absolute one exactly if it ends with a dot that is not
    /// escaped. The empty text is the relative name without labels.
    ///
    /// Fails with `Presentation` if the text spells no name, and with `ShortBuf` if it spells one, and there is no
    /// memory or no room for it.
    pub fn from_str(alloc: Global, text: &str) -> Result<Self, FromStrError>
    where
        Octs: FromBuilder,
        Octs::Builder: EmptyBuilder + Drop,
        ensures ok { IfOk result (IsTextOf text.now) }
        ensures err { IfErr result (IsNotSpelled text.now) }
    {
        match RelativeName::from_str(alloc, text) {
            Ok(name) => Ok(UncertainName::Relative(name)),
            Err(RelativeFromStrError::FromStr(error)) => Err(error),
            Err(RelativeFromStrError::AbsoluteName) => {
                Ok(UncertainName::Absolute(read_absolute(alloc, text)?))
            }
        }
    }

    /// Reads the name that characters spell, as `from_str` does.
    ///
    /// Fails with `Presentation` if they spell no name, maybe before it has taken all of them; and with `ShortBuf` if
    /// they spell one, and there is no memory or no room for it.
    pub fn from_chars<C: Iterator<Item = char> + Drop>(
        alloc: Global,
        chars: C,
    ) -> Result<Self, FromStrError>
    where
        Octs: FromBuilder,
        Octs::Builder: EmptyBuilder + Drop,
        requires can { C.can_next chars }
        requires ends { IsFinite (C.remaining chars) }
        ensures ok { IfOk result (λ name. (text : List ℕ) × Drains C.next_gives chars text × IsTextOf text name) }
        ensures err { IfErr result (IsNotSpelledBy C.next_gives chars) }
    {
        match SpelledName::from_chars(alloc, chars)? {
            SpelledName::Absolute(name) => Ok(UncertainName::Absolute(name)),
            SpelledName::Relative(name) => Ok(UncertainName::Relative(name)),
        }
    }

    /// Returns whether the name is absolute.
    pub fn is_absolute(&self) -> bool
        ensures { result ≡ is_absolute self.now }
    {
        matches!(self, UncertainName::Absolute(_))
    }

    /// Returns whether the name is relative.
    pub fn is_relative(&self) -> bool
        ensures { result ≡ not (is_absolute self.now) }
    {
        matches!(self, UncertainName::Relative(_))
    }

    /// Returns the absolute name, or `None` if the name is relative.
    pub fn as_absolute(&self) -> Option<&Name<Octs>>
        ensures some { IsSome result ↔ (is_absolute self.now ≡ true) }
        ensures name { IfSome result (λ name. self.now ≡ Absolute name.now) }
    {
        match self {
            UncertainName::Absolute(name) => Some(name),
            UncertainName::Relative(_) => None,
        }
    }

    /// Returns the relative name, or `None` if the name is absolute.
    pub fn as_relative(&self) -> Option<&RelativeName<Octs>>
        ensures some { IsSome result ↔ (is_absolute self.now ≡ false) }
        ensures name { IfSome result (λ name. self.now ≡ Relative name.now) }
    {
        match self {
            UncertainName::Absolute(_) => None,
            UncertainName::Relative(name) => Some(name),
        }
    }

    /// Returns the name with the root's label, which it appends in the same octets if it is not there yet.
    ///
    /// Fails with `ShortBuf` only if these can't hold another octet, and with `OutOfMemory` if out of memory. An
    /// absolute name never fails.
    pub fn into_absolute(self) -> Result<Name<Octs>, AppendError>
    where
        Octs: OctetsBuilder + Drop,
        ensures ok { IfOk result (λ name. name ≡ labels_of self) }
        ensures absolute { is_absolute self ≡ true → IsOk result }
        ensures short { result ≡ Err ShortBuf → (octets : Octs) × (Octs.list octets ≡ uncertain_octets self)
            × IsPast (Octs.bound octets) (length (wire (labels_of self))) }
        ensures not_bad { result ≡ Err BadLength → ⊥ }
    {
        match self {
            UncertainName::Absolute(name) => Ok(name),
            UncertainName::Relative(name) => name.into_absolute(),
        }
    }

    /// Returns the absolute name. Fails if the name is relative, and then returns it.
    pub fn try_into_absolute(self) -> Result<Name<Octs>, Self>
        ensures ok { IfOk result (λ name. self ≡ Absolute name) }
        ensures err { IfErr result (λ name. (name ≡ self) × (is_absolute self ≡ false)) }
    {
        match self {
            UncertainName::Absolute(absolute) => Ok(absolute),
            UncertainName::Relative(name) => Err(UncertainName::Relative(name)),
        }
    }

    /// Returns the relative name. Fails if the name is absolute, and then returns it.
    pub fn try_into_relative(self) -> Result<RelativeName<Octs>, Self>
        ensures ok { IfOk result (λ name. self ≡ Relative name) }
        ensures err { IfErr result (λ name. (name ≡ self) × (is_absolute self ≡ true)) }
    {
        match self {
            UncertainName::Absolute(name) => Err(UncertainName::Absolute(name)),
            UncertainName::Relative(name) => Ok(name),
        }
    }

    /// Returns the octets that hold the name.
    pub fn as_octets(&self) -> &Octs
        ensures { Octs.list result.now ≡ uncertain_octets self.now }
    {
        match self {
            UncertainName::Absolute(name) => name.as_octets(),
            UncertainName::Relative(name) => name.as_octets(),
        }
    }

    /// Returns the octets, uncompressed.
    pub fn as_slice(&self) -> &[u8]
        ensures octets { result.now ≡ uncertain_octets self.now }
        ensures name { IsName (labels_of self.now) }
    {
        match self {
            UncertainName::Absolute(name) => name.as_slice(),
            UncertainName::Relative(name) => name.as_slice(),
        }
    }
}

/// Reads the absolute name of a text that is known to spell one. Fails only if there is no memory or no room for it.
fn read_absolute<Octs: FromBuilder>(alloc: Global, text: &str) -> Result<Name<Octs>, FromStrError>
where
    Octs::Builder: EmptyBuilder + Drop,
    requires { SpellsAbsolute text.now }
    ensures ok { IfOk result (IsAbsoluteText text.now) }
    ensures err { IfErr result (IsNotSpelled text.now) }
{
    laws::text_spells_one_name();
    Name::from_str(alloc, text)
}

impl<Octs: Octets> From<Name<Octs>> for UncertainName<Octs> {
    ghost from_gives = { λ name uncertain. uncertain ≡ Absolute name };

    fn from(name: Name<Octs>) -> Self {
        UncertainName::Absolute(name)
    }
}

impl<Octs: Octets> From<RelativeName<Octs>> for UncertainName<Octs> {
    ghost from_gives = { λ name uncertain. uncertain ≡ Relative name };

    fn from(name: RelativeName<Octs>) -> Self {
        UncertainName::Relative(name)
    }
}

/// Shows the name with a dot between two labels, and one after the last label of an absolute name.
impl<Octs: Octets> fmt::Display for UncertainName<Octs> {
    ghost output = { λ name. Some (text_of name) };

    fn fmt<W: fmt::Write>(&self, f: &mut fmt::Formatter<W>) -> fmt::Result {
        match self {
            UncertainName::Absolute(name) => name.fmt(f),
            UncertainName::Relative(name) => name.fmt(f),
        }
    }
}

impl<Octs: Octets> ToLabelIter for UncertainName<Octs> {
    ghost labels = { seen_labels };

    ghost stands = { StandsIn };

    fn label(&self, index: usize) -> Option<Label<'_>> {
        match self {
            UncertainName::Absolute(name) => name.label(index),
            UncertainName::Relative(name) => name.label(index),
        }
    }

    fn compose_len(&self) -> u16 {
        match self {
            UncertainName::Absolute(name) => name.compose_len(),
            UncertainName::Relative(name) => name.compose_len(),
        }
    }

    fn first_place(&self) -> Option<usize> {
        match self {
            UncertainName::Absolute(name) => name.first_place(),
            UncertainName::Relative(name) => name.first_place(),
        }
    }

    fn label_at(&self, index: usize, place: Option<usize>) -> Option<(Label<'_>, Option<usize>)> {
        match self {
            UncertainName::Absolute(name) => name.label_at(index, place),
            UncertainName::Relative(name) => name.label_at(index, place),
        }
    }
}
