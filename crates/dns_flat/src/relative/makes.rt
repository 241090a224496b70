//! Relative names over octets of any kind.
ghost use Rattle.std.specs.Prelude.{◌≡◌, ◌∷◌, ◌++◌, [], Err, length, IsSome, IfOk, IfSome};
ghost use Rattle.dns_label.specs.Name.{IsName, labels_wire, wire};
ghost use Rattle.dns_wire.specs.Flat.{IsWritten};
ghost use Rattle.dns_octets.specs.Builder.{IsPast};
ghost use Rattle.dns_octets.specs.declared.error.AppendError.TheVariants.{ShortBuf, BadLength};

use super::RelativeName;
use crate::{Name, ToRelativeName};
use dns_octets::{AppendError, EmptyBuilder, FromBuilder, Octets, OctetsBuilder, OctetsFrom};
use dns_wire::copies::octets_from;
use std::alloc::{AllocError, Global};

impl<Octs: Octets> ToRelativeName for RelativeName<Octs> {
    /// Returns the octets, which are always flat here.
    fn as_flat_slice(&self) -> Option<&[u8]>
        ensures flat { IsSome result }
        ensures octets { IfSome result (λ octets. octets.now ≡ labels_wire self.now) }
        ensures name { IsName self.now }
    {
        Some(self.as_slice())
    }
}

/// Returns the relative name of these octets, in octets of another kind.
pub(crate) fn copied_relative<Octs: FromBuilder>(
    alloc: Global,
    octets: &[u8],
) -> Result<RelativeName<Octs>, AppendError>
where
    Octs::Builder: EmptyBuilder + Drop,
    requires { IsWritten (octets.now ++ 0 ∷ []) }
    ensures ok { IfOk result (λ name. octets.now ≡ labels_wire name) }
    ensures short { result ≡ Err ShortBuf → IsPast ⟦<Octs::Builder as EmptyBuilder>⟧.limit (length octets.now) }
    ensures not_bad { result ≡ Err BadLength → ⊥ }
{
    Ok(RelativeName::of_octets(octets_from(alloc, octets)?))
}

/// Copies the name to other octets. Fails with `ShortBuf` only if these can't hold as many octets, and with
/// `OutOfMemory` if out of memory.
impl<Source: Octets + Drop, Octs: FromBuilder> OctetsFrom<RelativeName<Source>>
    for RelativeName<Octs>
where
    Octs::Builder: EmptyBuilder + Drop,
{
    ghost octets_from_gives = { λ source result. IfOk result (λ name. name ≡ source)
        × (result ≡ Err ShortBuf → IsPast Octs.Builder.limit (length (labels_wire source)))
        × (result ≡ Err BadLength → ⊥) };

    fn try_octets_from(alloc: Global, source: RelativeName<Source>) -> Result<Self, AppendError> {
        source.try_to_relative_name(alloc)
    }
}

impl<Octs: FromBuilder> RelativeName<Octs>
where
    Octs::Builder: EmptyBuilder + Drop,
{
    /// Returns the name without labels. Fails with `ShortBuf` only if the octets can't hold any, and with `OutOfMemory`
    /// if out of memory.
    pub fn empty(alloc: Global) -> Result<Self, AppendError>
        ensures ok { IfOk result (λ name. name ≡ []) }
        ensures short { result ≡ Err ShortBuf → IsPast ⟦<Octs::Builder as EmptyBuilder>⟧.limit 0 }
        ensures not_bad { result ≡ Err BadLength → ⊥ }
    {
        copied_relative(alloc, &[])
    }

    /// Returns the name whose one label is the asterisk (RFC 4592 2.1.1). Fails with `ShortBuf` only if the octets
    /// can't hold its two, and with `OutOfMemory` if out of memory.
    pub fn wildcard(alloc: Global) -> Result<Self, AppendError>
        ensures ok { IfOk result (λ name. name ≡ (42 ∷ []) ∷ []) }
        ensures short { result ≡ Err ShortBuf → IsPast ⟦<Octs::Builder as EmptyBuilder>⟧.limit 2 }
        ensures not_bad { result ≡ Err BadLength → ⊥ }
    {
        copied_relative(alloc, b"\x01*")
    }
}

impl RelativeName<&'static [u8]> {
    /// Returns the name without labels.
    pub fn empty_ref() -> Self
        ensures { result ≡ [] }
    {
        RelativeName::of_octets(b"".as_slice())
    }

    /// Returns the name without labels.
    pub fn empty_slice() -> Self
        ensures { result ≡ [] }
    {
        Self::empty_ref()
    }

    /// Returns the name whose one label is the asterisk (RFC 4592 2.1.1).
    pub fn wildcard_ref() -> Self
        ensures { result ≡ (42 ∷ []) ∷ [] }
    {
        RelativeName::of_octets(b"\x01*".as_slice())
    }

    /// Returns the name whose one label is the asterisk (RFC 4592 2.1.1).
    pub fn wildcard_slice() -> Self
        ensures { result ≡ (42 ∷ []) ∷ [] }
    {
        Self::wildcard_ref()
    }
}

impl RelativeName<Vec<u8>> {
    /// Returns the name without labels. Fails if out of memory.
    pub fn empty_vec(alloc: Global) -> Result<Self, AllocError>
        ensures { IfOk result (λ name. name ≡ []) }
    {
        RelativeName::empty_ref().to_vec(alloc)
    }

    /// Returns the name whose one label is the asterisk (RFC 4592 2.1.1). Fails if out of memory.
    pub fn wildcard_vec(alloc: Global) -> Result<Self, AllocError>
        ensures { IfOk result (λ name. name ≡ (42 ∷ []) ∷ []) }
    {
        RelativeName::wildcard_ref().to_vec(alloc)
    }
}

impl<Octs: OctetsBuilder + Drop> RelativeName<Octs> {
    /// Returns the name with the root's label appended, in the same octets.
    ///
    /// Fails with `ShortBuf` only if these can't hold another octet, and with `OutOfMemory` if out of memory.
    pub fn into_absolute(self) -> Result<Name<Octs>, AppendError>
        ensures ok { IfOk result (λ name. name ≡ self) }
        ensures short { result ≡ Err ShortBuf → (octets : Octs) × (Octs.list octets ≡ labels_wire self) × IsPast (Octs.bound octets) (length (wire self)) }
        ensures not_bad { result ≡ Err BadLength → ⊥ }
    {
        let mut octets = self.into_octets();
        octets.append_slice(&[0])?;
        Ok(Name::from_octets_unchecked(octets))
    }
}
