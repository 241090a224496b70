//! Targets that octets are appended to.
ghost use Rattle.std.specs.Prelude.{◌≡◌, ◌<◌, ◌++◌, List, ℕ, [], Option, Ok, Err, Result, take, length, slice_set, IfOk, OnOk, OnErr};
ghost use Rattle.dns_octets.specs.Builder.{Known, before, GrowsTo, IsWithin, IsPast};
ghost use Rattle.dns_octets.specs.declared.error.AppendError.{AppendError};
ghost use Rattle.dns_octets.specs.declared.error.AppendError.TheVariants.{ShortBuf, BadLength};

mod array_vec;
mod reference;
mod vec;

use crate::error::AppendError;
use crate::octets::Octets;
use std::alloc::Global;

/// A type that may remember where suffixes of names are in its octets. A plain target remembers none.
pub trait Remembers {
    ghost known: { Self → Known };
}

/// A target that octets are appended to.
///
/// `bound` is the greatest number of octets it may hold, or None if only memory limits it. `stays` relates the target
/// before a call to the target after it: what no call changes.
pub trait OctetsBuilder: Octets + Remembers {
    ghost bound: { Self → Option ℕ };

    ghost stays: { Self → Self → Type 0 };

    /// Appends all the octets, or none if it fails. Fails with `ShortBuf` only if the target is too full, and with
    /// `OutOfMemory` only if out of memory.
    fn append_slice(&mut self, octets: &[u8]) -> Result<(), AppendError>
        ensures ok { OnOk result (Self.list self.new ≡ Self.list self.old ++ octets.now) }
        ensures err { OnErr result (Self.list self.new ≡ Self.list self.old) }
        ensures known { Self.known self.new ≡ Self.known self.old }
        ensures grows { GrowsTo (Self.list self.old) (Self.known self.old) (Self.list self.new) (Self.known self.new) }
        ensures short { result ≡ Err ShortBuf → IsPast (bound self.old) (length (Self.list self.old ++ octets.now)) }
        ensures fits { OnOk result (IsWithin (bound self.old) (length (Self.list self.new))) }
        ensures not_bad { result ≡ Err BadLength → ⊥ }
        ensures same_bound { bound self.new ≡ bound self.old }
        ensures stays { stays self.old self.new };

    /// Returns how many octets the target holds, which are never more than its bound.
    fn len(&self) -> usize
        ensures value { result ≡ length (Self.list self.now) }
        ensures within { IsWithin (bound self.now) result };

    ghost stays_on: { (a b c : Self) → stays a b → stays b c → stays a c };

    ghost stays_here: { (a : Self) → stays a a };
}

/// A target that can be made empty.
///
/// `limit` is the greatest number of octets such a target may hold.
pub trait EmptyBuilder: OctetsBuilder + Sized {
    ghost limit: { Option ℕ };

    /// Returns a target without octets. If it grows, it allocates with `alloc`.
    fn empty(alloc: Global) -> Self
        ensures octets { Self.list result ≡ [] }
        ensures known { Self.known result ≡ [] }
        ensures limit { Self.bound result ≡ limit };

    /// Returns a target without octets, with room for `capacity` octets. Fails with `ShortBuf` only if the target may
    /// not hold that number of octets, and with `OutOfMemory` only if out of memory.
    fn with_capacity(alloc: Global, capacity: usize) -> Result<Self, AppendError>
        ensures octets { IfOk result (λ builder. Self.list builder ≡ []) }
        ensures known { IfOk result (λ builder. Self.known builder ≡ []) }
        ensures limit { IfOk result (λ builder. Self.bound builder ≡ limit) }
        ensures fits { OnOk result (IsWithin limit capacity) }
        ensures short { result ≡ Err ShortBuf → IsPast limit capacity }
        ensures not_bad { result ≡ Err BadLength → ⊥ };
}

/// Octets that are made of a target.
pub trait FromBuilder: Octets + Sized {
    type Builder: OctetsBuilder;

    /// Returns the octets of the target.
    fn from_builder(builder: Self::Builder) -> Self
        ensures { Self.list result ≡ ⟦<Self::Builder as Octets>⟧.list builder };
}

/// A target that can be cut.
pub trait Truncate: OctetsBuilder {
    /// Keeps the first `len` octets, and the remembered suffixes that lie wholly in them. Changes nothing if `len` is
    /// not below the present length.
    fn truncate(&mut self, len: usize)
        ensures octets { Self.list self.new ≡ take len (Self.list self.old) }
        ensures known { Self.known self.new ≡ before len (Self.known self.old) }
        ensures same_bound { Self.bound self.new ≡ Self.bound self.old }
        ensures stays { Self.stays self.old self.new };
}

/// A target whose octets can be changed in place.
pub trait WriteOctets: OctetsBuilder {
    /// Sets the octet at `place`.
    fn set_octet(&mut self, place: usize, octet: u8)
        requires { place < length (Self.list self.old) }
        ensures octets { Self.list self.new ≡ slice_set (Self.list self.old) place octet }
        ensures known { Self.known self.new ≡ Self.known self.old }
        ensures same_bound { Self.bound self.new ≡ Self.bound self.old }
        ensures stays { Self.stays self.old self.new };
}

/// A target that can be turned into its octets.
pub trait FreezeBuilder: Octets {
    type Octets: Octets;

    /// Returns the octets of the target.
    fn freeze(self) -> Self::Octets
        ensures { ⟦<Self::Octets as Octets>⟧.list result ≡ Self.list self };
}

/// A value that can be made of a source over other octets.
///
/// `octets_from_gives` relates the source to the result.
pub trait OctetsFrom<S>: Sized {
    ghost octets_from_gives: { S → Result Self AppendError → Type 0 };

    /// Returns the same value over octets of this kind, which allocate with `alloc` if they grow. Fails with `ShortBuf`
    /// if the octets do not fit, and with `OutOfMemory` if out of memory.
    fn try_octets_from(alloc: Global, source: S) -> Result<Self, AppendError>
        ensures { octets_from_gives source result };
}
