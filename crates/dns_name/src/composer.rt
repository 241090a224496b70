//! Targets of names, and how they spell them (RFC 1035 4.1.4).
ghost use Rattle.std.specs.Prelude.{◌≡◌, ◌≤◌, ◌+◌, ◌++◌, ℕ, List, Err, true, length, OnOk, OnErr};
ghost use Rattle.dns_octets.specs.Builder.{GrowsTo, IsWithin, IsPast};
ghost use Rattle.dns_octets.specs.declared.error.AppendError.TheVariants.{ShortBuf, BadLength};
ghost use Rattle.dns_name.specs.Spelling.{Spelling, compresses, name_text, known_after};
ghost use Rattle.dns_name.specs.Remembered.{IsSound, is_free, patched};

mod array_vec;
mod in_full;
mod reference;
mod vec;

use dns_flat::ToName;
use dns_octets::{AppendError, OctetsBuilder, Truncate};

/// A target for messages, which may write a name with a pointer to an earlier place of one of its suffixes.
///
/// `spelling` says which suffixes it remembers, and which it treats as the same. What it remembers is always there:
/// each suffix is spelled by its octets.
pub trait Composer: OctetsBuilder + Truncate {
    ghost spelling: { Spelling };

    /// Appends a name, all or nothing: its labels up to the longest suffix that is remembered, and a pointer to that
    /// one, or all labels and the root. Fails with `ShortBuf` only if the target is too full, and with `OutOfMemory`
    /// only if out of memory.
    fn append_compressed_name<N: ToName>(&mut self, name: &N) -> Result<(), AppendError>
        ensures ok { OnOk result (Self.list self.new ≡ Self.list self.old
            ++ name_text spelling (Self.known self.old) (length (Self.list self.old)) (N.name name.now)) }
        ensures known { OnOk result (Self.known self.new
            ≡ known_after spelling (Self.known self.old) (length (Self.list self.old)) (N.name name.now)) }
        ensures err { OnErr result ((Self.list self.new ≡ Self.list self.old)
            × (Self.known self.new ≡ Self.known self.old)) }
        ensures grows { GrowsTo (Self.list self.old) (Self.known self.old) (Self.list self.new)
            (Self.known self.new) }
        ensures short { result ≡ Err ShortBuf → IsPast (Self.bound self.old)
            (length (Self.list self.old
            ++ name_text spelling (Self.known self.old) (length (Self.list self.old)) (N.name name.now))) }
        ensures fits { OnOk result (IsWithin (Self.bound self.old) (length (Self.list self.new))) }
        ensures not_bad { result ≡ Err BadLength → ⊥ }
        ensures same_bound { Self.bound self.new ≡ Self.bound self.old }
        ensures stays { Self.stays self.old self.new };

    /// Returns whether names may be written with pointers.
    fn can_compress(&self) -> bool
        ensures { result ≡ compresses spelling };

    /// Overwrites the octets from a place on. The caller has to prove that these are there, and that none of them
    /// spells a suffix that is remembered.
    fn patch(&mut self, place: usize, octets: &[u8])
        requires within { place + length octets.now ≤ length (Self.list self.old) }
        requires free { is_free place (place + length octets.now) (Self.known self.old) ≡ true }
        ensures octets { Self.list self.new ≡ patched (Self.list self.old) place octets.now }
        ensures known { Self.known self.new ≡ Self.known self.old }
        ensures same_bound { Self.bound self.new ≡ Self.bound self.old }
        ensures stays { Self.stays self.old self.new };

    ghost sound: { (target : Self) → ∥ IsSound spelling (Self.known target) (Self.list target) ∥₁ };
}
