//! What absolute names have in common.
ghost use Rattle.std.specs.Prelude.{◌≡◌, ◌↔◌, ◌++◌, List, ℕ, Err, length, map, IfOk, IfSome, OnOk, OnErr, IsTrue};
ghost use Rattle.std.specs.Char.{to_ascii_lowercase};
ghost use Rattle.std.specs.Cow.{cow_slice_items};
ghost use Rattle.std.specs.Ordering.{nat_cmp};
ghost use Rattle.std.specs.Cmp.Lexicographic.{slice_cmp};
ghost use Rattle.dns_label.specs.Name.{IsName, wire, with_root, low};
ghost use Rattle.dns_wire.specs.Order.{labels_order};
ghost use Rattle.dns_flat.specs.Rrsig.{rrsig_count};
ghost use Rattle.dns_octets.specs.Builder.{GrowsTo, IsWithin, IsPast};
ghost use Rattle.dns_octets.specs.declared.error.AppendError.TheVariants.{ShortBuf, BadLength};

use crate::name::copied_name;
use crate::wire_form::{lowered_wire_of, wire_of};
use crate::{DisplayWithDot, Name};
use dns_octets::{AppendError, EmptyBuilder, FromBuilder, OctetsBuilder};
use dns_wire::ToLabelIter;
use dns_wire::compare::{cmp_labels, count_labels, same_labels};
use std::alloc::{AllocError, Global};
use std::borrow::CowSlice;
use std::cmp::Ordering;
use std::hash::Hasher;

/// An absolute name, whatever holds it.
pub trait ToName: ToLabelIter {
    /// The labels without the root's.
    ghost name: { Self → List (List ℕ) };

    /// Returns the octets, uncompressed, if they are flat in memory already, or `None`.
    fn as_flat_slice(&self) -> Option<&[u8]>
        ensures octets { IfSome result (λ octets. octets.now ≡ wire (name self.now)) }
        ensures name { IsName (name self.now) };

    /// Copies the name to a vector. Fails if out of memory.
    fn to_vec(&self, alloc: Global) -> Result<Name<Vec<u8>>, AllocError>
        ensures { IfOk result (λ flat. flat ≡ name self.now) };

    ghost is_absolute: { (x : Self) → Self.labels x ≡ with_root (name x) };

    /// Copies the name to octets of this kind.
    ///
    /// Fails with `ShortBuf` only if these can't hold as many octets, and with `OutOfMemory` if out of memory.
    final fn try_to_name<Octs: FromBuilder>(&self, alloc: Global) -> Result<Name<Octs>, AppendError>
    where
        Octs::Builder: EmptyBuilder + Drop,
        ensures ok { IfOk result (λ flat. flat ≡ name self.now) }
        ensures short { result ≡ Err ShortBuf → IsPast ⟦<Octs::Builder as EmptyBuilder>⟧.limit (length (wire (name self.now))) }
        ensures not_bad { result ≡ Err BadLength → ⊥ }
    {
        copied_name(alloc, wire_of(self).as_slice())
    }

    /// Copies the name to octets of this kind, as `try_to_name` does.
    final fn to_name<Octs: FromBuilder>(&self, alloc: Global) -> Result<Name<Octs>, AppendError>
    where
        Octs::Builder: EmptyBuilder + Drop,
        ensures ok { IfOk result (λ flat. flat ≡ name self.now) }
        ensures short { result ≡ Err ShortBuf → IsPast ⟦<Octs::Builder as EmptyBuilder>⟧.limit (length (wire (name self.now))) }
        ensures not_bad { result ≡ Err BadLength → ⊥ }
    {
        self.try_to_name(alloc)
    }

    /// Copies the name in lower case (RFC 4034 6.2) to octets of this kind.
    ///
    /// Fails with `ShortBuf` only if these can't hold as many octets, and with `OutOfMemory` if out of memory.
    final fn try_to_canonical_name<Octs: FromBuilder>(
        &self,
        alloc: Global,
    ) -> Result<Name<Octs>, AppendError>
    where
        Octs::Builder: EmptyBuilder + Drop,
        ensures ok { IfOk result (λ flat. flat ≡ low (name self.now)) }
        ensures short { result ≡ Err ShortBuf → IsPast ⟦<Octs::Builder as EmptyBuilder>⟧.limit (length (wire (name self.now))) }
        ensures not_bad { result ≡ Err BadLength → ⊥ }
    {
        copied_name(alloc, lowered_wire_of(self).as_slice())
    }

    /// Copies the name in lower case to octets of this kind, as `try_to_canonical_name` does.
    final fn to_canonical_name<Octs: FromBuilder>(
        &self,
        alloc: Global,
    ) -> Result<Name<Octs>, AppendError>
    where
        Octs::Builder: EmptyBuilder + Drop,
        ensures ok { IfOk result (λ flat. flat ≡ low (name self.now)) }
        ensures short { result ≡ Err ShortBuf → IsPast ⟦<Octs::Builder as EmptyBuilder>⟧.limit (length (wire (name self.now))) }
        ensures not_bad { result ≡ Err BadLength → ⊥ }
    {
        self.try_to_canonical_name(alloc)
    }

    /// Appends the octets, uncompressed: all or none. Fails with `ShortBuf` only if the target is too full, and with
    /// `OutOfMemory` if out of memory.
    final fn compose<Target: OctetsBuilder>(&self, target: &mut Target) -> Result<(), AppendError>
        ensures ok { OnOk result (Target.list target.new ≡ Target.list target.old ++ wire (name self.now)) }
        ensures err { OnErr result (Target.list target.new ≡ Target.list target.old) }
        ensures known { Target.known target.new ≡ Target.known target.old }
        ensures grows { GrowsTo (Target.list target.old) (Target.known target.old) (Target.list target.new) (Target.known target.new) }
        ensures short { result ≡ Err ShortBuf → IsPast (Target.bound target.old) (length (Target.list target.old ++ wire (name self.now))) }
        ensures fits { OnOk result (IsWithin (Target.bound target.old) (length (Target.list target.new))) }
        ensures not_bad { result ≡ Err BadLength → ⊥ }
        ensures same_bound { Target.bound target.new ≡ Target.bound target.old }
        ensures stays { Target.stays target.old target.new }
    {
        target.append_slice(wire_of(self).as_slice())
    }

    /// Appends the octets in lower case, uncompressed (RFC 4034 6.2): all or none. Fails with `ShortBuf` only if the
    /// target is too full, and with `OutOfMemory` if out of memory.
    final fn compose_canonical<Target: OctetsBuilder>(
        &self,
        target: &mut Target,
    ) -> Result<(), AppendError>
        ensures ok { OnOk result (Target.list target.new ≡ Target.list target.old ++ wire (low (name self.now))) }
        ensures err { OnErr result (Target.list target.new ≡ Target.list target.old) }
        ensures known { Target.known target.new ≡ Target.known target.old }
        ensures grows { GrowsTo (Target.list target.old) (Target.known target.old) (Target.list target.new) (Target.known target.new) }
        ensures short { result ≡ Err ShortBuf → IsPast (Target.bound target.old) (length (Target.list target.old ++ wire (low (name self.now)))) }
        ensures fits { OnOk result (IsWithin (Target.bound target.old) (length (Target.list target.new))) }
        ensures not_bad { result ≡ Err BadLength → ⊥ }
        ensures same_bound { Target.bound target.new ≡ Target.bound target.old }
        ensures stays { Target.stays target.old target.new }
    {
        target.append_slice(lowered_wire_of(self).as_slice())
    }

    /// Returns whether two names are the same up to ASCII case (RFC 4343), that is, whether their octets in lower case
    /// are equal.
    final fn name_eq<N: ToName>(&self, other: &N) -> bool
        ensures labels { IsTrue result ↔ (low (name self.now) ≡ low (N.name other.now)) }
        ensures wire { IsTrue result ↔ (map to_ascii_lowercase (wire (name self.now)) ≡ map to_ascii_lowercase (wire (N.name other.now))) }
    {
        match (self.as_flat_slice(), other.as_flat_slice()) {
            (Some(octets), Some(others)) => octets.eq_ignore_ascii_case(others),
            _ => same_labels(self.iter_labels(), other.iter_labels()),
        }
    }

    /// Compares two names in the canonical order (RFC 4034 6.1): by their labels in lower case from the right, where a
    /// missing label comes first.
    final fn name_cmp<N: ToName>(&self, other: &N) -> Ordering
        ensures { result ≡ labels_order (name self.now) (N.name other.now) }
    {
        cmp_labels(self, other)
    }

    /// Compares the octets, uncompressed.
    final fn composed_cmp<N: ToName>(&self, other: &N) -> Ordering
        ensures { result ≡ slice_cmp nat_cmp (wire (name self.now)) (wire (N.name other.now)) }
    {
        wire_of(self).as_slice().cmp(wire_of(other).as_slice())
    }

    /// Compares the octets in lower case, uncompressed.
    final fn lowercase_composed_cmp<N: ToName>(&self, other: &N) -> Ordering
        ensures { result ≡ slice_cmp nat_cmp (wire (low (name self.now))) (wire (low (N.name other.now))) }
    {
        lowered_wire_of(self)
            .as_slice()
            .cmp(lowered_wire_of(other).as_slice())
    }

    /// Hashes the octets in lower case, uncompressed, so that names that are the same up to ASCII case hash alike.
    final fn name_hash<H: Hasher>(&self, state: &mut H)
        ensures { state.new ≡ H.write state.old (wire (low (name self.now))) }
    {
        state.write(lowered_wire_of(self).as_slice());
    }

    /// Returns the name over its own octets if these are flat, and else flat in a vector. Fails if out of memory.
    final fn to_cow(&self, alloc: Global) -> Result<Name<CowSlice<'_, u8>>, AllocError>
        ensures { IfOk result (λ flat. flat ≡ name self.now) }
    {
        match self.as_flat_slice() {
            Some(octets) => Ok(Name::from_octets_unchecked(CowSlice::Borrowed(octets))),
            None => Ok(Name::from_octets_unchecked(CowSlice::Owned(
                self.to_vec(alloc)?.into_octets(),
            ))),
        }
    }

    /// Returns what shows the name with a dot after each label, and the root as a dot (RFC 1035 5.1).
    final fn fmt_with_dot(&self) -> DisplayWithDot<'_, Self>
        ensures { result ≡ name self.now }
    {
        DisplayWithDot::of(self)
    }

    /// Returns the number of labels that a signature counts: all but the root's and a first one that is the asterisk
    /// (RFC 4034 3.1.3).
    final fn rrsig_label_count(&self) -> u8
        ensures { result ≡ rrsig_count (name self.now) }
    {
        let count = count_labels(self) as u8 - 1;
        match self.label(0) {
            Some(label) if label.as_slice() == b"*".as_slice() => count - 1,
            _ => count,
        }
    }
}
