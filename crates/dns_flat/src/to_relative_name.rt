//! What relative names have in common.
ghost use Rattle.std.specs.Prelude.{◌≡◌, ◌+◌, ◌<◌, ◌↔◌, ◌++◌, [], Err, IsErr, length, map, IfOk, IfSome, OnOk, OnErr, IsTrue};
ghost use Rattle.std.specs.Char.{to_ascii_lowercase};
ghost use Rattle.dns_label.specs.Name.{IsName, labels_wire, low};
ghost use Rattle.dns_wire.specs.Chain.{before_root};
ghost use Rattle.dns_flat.specs.ChainParts.{left_of, right_of};
ghost use Rattle.dns_wire.specs.Order.{labels_order};
ghost use Rattle.dns_octets.specs.Builder.{GrowsTo, IsWithin, IsPast};
ghost use Rattle.dns_octets.specs.declared.error.AppendError.TheVariants.{ShortBuf, BadLength};

use crate::relative::copied_relative;
use crate::wire_form::{labels_of, lowered_labels_of};
use crate::{Chain, LongChainError, Name, RelativeName};
use dns_octets::{AppendError, EmptyBuilder, FromBuilder, OctetsBuilder};
use dns_wire::ToLabelIter;
use dns_wire::compare::{cmp_labels, count_labels, same_labels};
use std::alloc::{AllocError, Global};
use std::borrow::CowSlice;
use std::cmp::Ordering;

/// A relative name, whatever holds it.
pub trait ToRelativeName: ToLabelIter {
    /// Returns the octets, uncompressed, if they are flat in memory already, or `None`.
    fn as_flat_slice(&self) -> Option<&[u8]>
        ensures octets { IfSome result (λ octets. octets.now ≡ labels_wire (Self.labels self.now)) }
        ensures name { IsName (Self.labels self.now) };

    /// Returns whether there are no labels.
    final fn is_empty(&self) -> bool
        ensures { IsTrue result ↔ (Self.labels self.now ≡ []) }
    {
        count_labels(self) == 0
    }

    /// Copies the name to octets of this kind.
    ///
    /// Fails with `ShortBuf` only if these can't hold as many octets, and with `OutOfMemory` if out of memory.
    final fn try_to_relative_name<Octs: FromBuilder>(
        &self,
        alloc: Global,
    ) -> Result<RelativeName<Octs>, AppendError>
    where
        Octs::Builder: EmptyBuilder + Drop,
        ensures ok { IfOk result (λ flat. flat ≡ Self.labels self.now) }
        ensures short { result ≡ Err ShortBuf → IsPast ⟦<Octs::Builder as EmptyBuilder>⟧.limit (length (labels_wire (Self.labels self.now))) }
        ensures not_bad { result ≡ Err BadLength → ⊥ }
    {
        copied_relative(alloc, labels_of(self).as_slice())
    }

    /// Copies the name to octets of this kind, as `try_to_relative_name` does.
    final fn to_relative_name<Octs: FromBuilder>(
        &self,
        alloc: Global,
    ) -> Result<RelativeName<Octs>, AppendError>
    where
        Octs::Builder: EmptyBuilder + Drop,
        ensures ok { IfOk result (λ flat. flat ≡ Self.labels self.now) }
        ensures short { result ≡ Err ShortBuf → IsPast ⟦<Octs::Builder as EmptyBuilder>⟧.limit (length (labels_wire (Self.labels self.now))) }
        ensures not_bad { result ≡ Err BadLength → ⊥ }
    {
        self.try_to_relative_name(alloc)
    }

    /// Copies the name in lower case (RFC 4034 6.2) to octets of this kind.
    ///
    /// Fails with `ShortBuf` only if these can't hold as many octets, and with `OutOfMemory` if out of memory.
    final fn try_to_canonical_relative_name<Octs: FromBuilder>(
        &self,
        alloc: Global,
    ) -> Result<RelativeName<Octs>, AppendError>
    where
        Octs::Builder: EmptyBuilder + Drop,
        ensures ok { IfOk result (λ flat. flat ≡ low (Self.labels self.now)) }
        ensures short { result ≡ Err ShortBuf → IsPast ⟦<Octs::Builder as EmptyBuilder>⟧.limit (length (labels_wire (Self.labels self.now))) }
        ensures not_bad { result ≡ Err BadLength → ⊥ }
    {
        copied_relative(alloc, lowered_labels_of(self).as_slice())
    }

    /// Copies the name in lower case to octets of this kind, as `try_to_canonical_relative_name` does.
    final fn to_canonical_relative_name<Octs: FromBuilder>(
        &self,
        alloc: Global,
    ) -> Result<RelativeName<Octs>, AppendError>
    where
        Octs::Builder: EmptyBuilder + Drop,
        ensures ok { IfOk result (λ flat. flat ≡ low (Self.labels self.now)) }
        ensures short { result ≡ Err ShortBuf → IsPast ⟦<Octs::Builder as EmptyBuilder>⟧.limit (length (labels_wire (Self.labels self.now))) }
        ensures not_bad { result ≡ Err BadLength → ⊥ }
    {
        self.try_to_canonical_relative_name(alloc)
    }

    /// Appends the octets, uncompressed: all or none. Fails with `ShortBuf` only if the target is too full, and with
    /// `OutOfMemory` if out of memory.
    final fn compose<Target: OctetsBuilder>(&self, target: &mut Target) -> Result<(), AppendError>
        ensures ok { OnOk result (Target.list target.new ≡ Target.list target.old ++ labels_wire (Self.labels self.now)) }
        ensures err { OnErr result (Target.list target.new ≡ Target.list target.old) }
        ensures known { Target.known target.new ≡ Target.known target.old }
        ensures grows { GrowsTo (Target.list target.old) (Target.known target.old) (Target.list target.new) (Target.known target.new) }
        ensures short { result ≡ Err ShortBuf → IsPast (Target.bound target.old) (length (Target.list target.old ++ labels_wire (Self.labels self.now))) }
        ensures fits { OnOk result (IsWithin (Target.bound target.old) (length (Target.list target.new))) }
        ensures not_bad { result ≡ Err BadLength → ⊥ }
        ensures same_bound { Target.bound target.new ≡ Target.bound target.old }
        ensures stays { Target.stays target.old target.new }
    {
        target.append_slice(labels_of(self).as_slice())
    }

    /// Appends the octets in lower case, uncompressed (RFC 4034 6.2): all or none. Fails with `ShortBuf` only if the
    /// target is too full, and with `OutOfMemory` if out of memory.
    final fn compose_canonical<Target: OctetsBuilder>(
        &self,
        target: &mut Target,
    ) -> Result<(), AppendError>
        ensures ok { OnOk result (Target.list target.new ≡ Target.list target.old ++ labels_wire (low (Self.labels self.now))) }
        ensures err { OnErr result (Target.list target.new ≡ Target.list target.old) }
        ensures known { Target.known target.new ≡ Target.known target.old }
        ensures grows { GrowsTo (Target.list target.old) (Target.known target.old) (Target.list target.new) (Target.known target.new) }
        ensures short { result ≡ Err ShortBuf → IsPast (Target.bound target.old) (length (Target.list target.old ++ labels_wire (low (Self.labels self.now)))) }
        ensures fits { OnOk result (IsWithin (Target.bound target.old) (length (Target.list target.new))) }
        ensures not_bad { result ≡ Err BadLength → ⊥ }
        ensures same_bound { Target.bound target.new ≡ Target.bound target.old }
        ensures stays { Target.stays target.old target.new }
    {
        target.append_slice(lowered_labels_of(self).as_slice())
    }

    /// Returns whether two names are the same up to ASCII case (RFC 4343).
    final fn name_eq<N: ToRelativeName>(&self, other: &N) -> bool
        ensures { IsTrue result ↔ (low (Self.labels self.now) ≡ low (N.labels other.now)) }
    {
        same_labels(self.iter_labels(), other.iter_labels())
    }

    /// Compares two names by their labels in lower case from the right, where a missing label comes first.
    final fn name_cmp<N: ToRelativeName>(&self, other: &N) -> Ordering
        ensures { result ≡ labels_order (Self.labels self.now) (N.labels other.now) }
    {
        cmp_labels(self, other)
    }

    /// Copies the name to a vector. Fails if out of memory.
    final fn to_vec(&self, alloc: Global) -> Result<RelativeName<Vec<u8>>, AllocError>
        ensures { IfOk result (λ flat. flat ≡ Self.labels self.now) }
    {
        let octets = Vec::from_slice(alloc, labels_of(self).as_slice())?;
        Ok(RelativeName::of_octets(octets))
    }

    /// Returns the name over its own octets if these are flat, and else flat in a vector. Fails if out of memory.
    final fn to_cow(&self, alloc: Global) -> Result<RelativeName<CowSlice<'_, u8>>, AllocError>
        ensures { IfOk result (λ flat. flat ≡ Self.labels self.now) }
    {
        match self.as_flat_slice() {
            Some(octets) => Ok(RelativeName::of_octets(CowSlice::Borrowed(octets))),
            None => {
                let flat = self.to_vec(alloc)?;
                Ok(RelativeName::of_octets(CowSlice::Owned(flat.into_octets())))
            }
        }
    }

    /// Chains the name and another one. Fails if they have more than 254 octets before any root.
    final fn chain<N: ToLabelIter + Drop>(self, other: N) -> Result<Chain<Self, N>, LongChainError>
    where
        Self: Sized + Drop,
        ensures ok { IfOk result (λ chain. (left_of chain ≡ self) × (right_of chain ≡ other)) }
        ensures long { IsErr result ↔ (254 < length (labels_wire (Self.labels self)) + length (labels_wire (before_root (N.labels other)))) }
    {
        Chain::new(self, other)
    }

    /// Chains the name and the root.
    final fn chain_root(self) -> Chain<Self, Name<&'static [u8]>>
    where
        Self: Sized + Drop,
        ensures left { left_of result ≡ self }
        ensures root { right_of result ≡ [] }
    {
        let _flat = self.as_flat_slice();
        match Chain::new(self, Name::from_octets_unchecked(b"\x00".as_slice())) {
            Ok(chain) => chain,
            Err(_) => unreachable!(),
        }
    }
}
