//! Relative names, flat in octets.
ghost use Rattle.std.specs.Prelude.{◌≡◌, ◌<◌, ◌≤◌, ◌↔◌, List, ℕ, [], ◌∷◌, ◌++◌, length, IsTrue, IfOk, IfErr, OnErr, OnOk};
ghost use Rattle.dns_label.specs.Name.{IsName, labels_wire};
ghost use Rattle.dns_label.specs.Labels.{labels_at};
ghost use Rattle.dns_wire.specs.Flat.{IsWritten};
ghost use Rattle.dns_flat.specs.NoName.{IsNoRelativeName};
ghost use Rattle.dns_flat.specs.declared.relative.RelativeNameError.TheVariants.{LongName};

mod canonical;
mod makes;
mod order;
mod parts;

use crate::NameIter;
use dns_label::{Label, LabelTypeError, SplitLabelError};
use dns_octets::Octets;
pub(crate) use makes::copied_relative;
pub use parts::StripSuffixError;
use std::marker::Model;
use thiserror::Error;

/// Why octets are no relative name.
#[derive(Clone, Copy, Debug, PartialEq, Eq, Error)]
pub enum RelativeNameError {
    /// The octet at the place of a label's length begins no label.
    #[error("{0}")]
    BadLabel(LabelTypeError),
    /// There is a compression pointer. A flat name has none.
    #[error("compressed domain name")]
    CompressedName,
    /// The octets end within a label.
    #[error("unexpected end of input")]
    ShortInput,
    /// There are more than 254 octets.
    #[error("long domain name")]
    LongName,
    /// There is the root's label.
    #[error("absolute domain name")]
    AbsoluteName,
}

/// A relative name, uncompressed: labels without the root's, in at most 254 octets, so that the root's fits after them
/// (RFC 1035 3.1).
///
/// A contract sees it as the list of its labels.
#[derive(Debug, Drop)]
pub struct RelativeName<Octs: Octets> {
    octets: Octs,
}

impl<Octs: Octets> Model for RelativeName<Octs> {
    ghost Value = { List (List ℕ) };

    ghost view = { λ name. labels_at (Octs.list name.octets ++ 0 ∷ []) 0 };

    ghost invariant = { λ name. IsWritten (Octs.list name.octets ++ 0 ∷ []) };
}

impl<Octs: Octets> RelativeName<Octs> {
    /// Makes a relative name of its octets. Fails if they are none, uncompressed and whole: with `LongName` if there
    /// are more than 254 of them, and else with the error of what follows the first labels.
    pub fn from_octets(octets: Octs) -> Result<Self, RelativeNameError>
    where
        Octs: Drop,
        ensures ok { IfOk result (λ name. IsName name × (Octs.list octets ≡ labels_wire name)) }
        ensures err { OnErr result ((name : List (List ℕ)) → IsName name → Octs.list octets ≡ labels_wire name → ⊥) }
        ensures why { IfErr result (IsNoRelativeName (Octs.list octets)) }
        ensures long { IfErr result (λ error. 254 < length (Octs.list octets) → error ≡ LongName) }
    {
        check(octets.octets())?;
        Ok(RelativeName { octets })
    }

    /// Makes a relative name of octets that are known to be one.
    pub(crate) fn of_octets(octets: Octs) -> Self
        requires { IsWritten (Octs.list octets ++ 0 ∷ []) }
        ensures { Octs.list octets ≡ labels_wire result }
    {
        RelativeName { octets }
    }

    /// Returns the octets that hold the name.
    pub fn as_octets(&self) -> &Octs
        ensures { Octs.list result.now ≡ labels_wire self.now }
    {
        &self.octets
    }

    /// Returns the octets that hold the name.
    pub fn into_octets(self) -> Octs
        ensures octets { Octs.list result ≡ labels_wire self }
        ensures name { IsName self }
    {
        let RelativeName { octets } = self;
        octets
    }

    /// Returns the octets, uncompressed.
    pub fn as_slice(&self) -> &[u8]
        ensures octets { result.now ≡ labels_wire self.now }
        ensures name { IsName self.now }
    {
        self.octets.octets()
    }

    /// Returns the same name over borrowed octets.
    pub fn for_ref(&self) -> RelativeName<&[u8]>
        ensures { result ≡ self.now }
    {
        RelativeName {
            octets: self.octets.octets(),
        }
    }

    /// Returns the number of octets of the name.
    pub fn len(&self) -> usize
        ensures octets { result ≡ length (labels_wire self.now) }
        ensures name { IsName self.now }
    {
        self.as_slice().len()
    }

    /// Returns whether there are no labels.
    pub fn is_empty(&self) -> bool
        ensures { IsTrue result ↔ (self.now ≡ []) }
    {
        self.as_slice().is_empty()
    }

    /// Returns the number of labels.
    pub fn label_count(&self) -> usize
        ensures { result ≡ length self.now }
    {
        self.iter().count()
    }

    /// Returns the labels from the left.
    pub fn iter(&self) -> NameIter<'_>
        ensures labels { result ≡ self.now }
        ensures few { length result ≤ 127 }
    {
        NameIter::at(self.as_slice())
    }
}

impl<'a> RelativeName<&'a [u8]> {
    /// Makes a relative name of its octets. Fails if they are none, uncompressed and whole, as `from_octets` does.
    pub fn from_slice(octets: &'a [u8]) -> Result<Self, RelativeNameError>
        ensures ok { IfOk result (λ name. IsName name × (octets.now ≡ labels_wire name)) }
        ensures err { OnErr result ((name : List (List ℕ)) → IsName name → octets.now ≡ labels_wire name → ⊥) }
        ensures why { IfErr result (IsNoRelativeName octets.now) }
        ensures long { IfErr result (λ error. 254 < length octets.now → error ≡ LongName) }
    {
        RelativeName::from_octets(octets)
    }
}

/// Fails if the octets are no relative name.
pub(crate) fn check(octets: &[u8]) -> Result<(), RelativeNameError>
    ensures ok { OnOk result (IsWritten (octets.now ++ 0 ∷ [])) }
    ensures err { OnErr result ((name : List (List ℕ)) → IsName name → octets.now ≡ labels_wire name → ⊥) }
    ensures why { IfErr result (IsNoRelativeName octets.now) }
    ensures long { IfErr result (λ error. 254 < length octets.now → error ≡ LongName) }
{
    if octets.len() > 254 {
        return Err(RelativeNameError::LongName);
    }
    let mut rest = octets;
    while !rest.is_empty() {
        match Label::split_from(rest) {
            Ok((label, behind)) => {
                if label.is_root() {
                    return Err(RelativeNameError::AbsoluteName);
                }
                rest = behind;
            }
            Err(SplitLabelError::Pointer(_)) => return Err(RelativeNameError::CompressedName),
            Err(SplitLabelError::BadType(kind)) => return Err(RelativeNameError::BadLabel(kind)),
            Err(SplitLabelError::ShortInput) => return Err(RelativeNameError::ShortInput),
        }
    }
    Ok(())
}
