//! Tables of remembered suffixes.
ghost use Rattle.std.specs.Prelude.{◌≡◌, ◌≤◌, ◌<◌, ◌+◌, ◌++◌, ◌^◌, List, ℕ, Bool, length, take, OnOk};
ghost use Rattle.dns_octets.specs.Builder.{Known, Standing, before};
ghost use Rattle.dns_label.specs.Name.{IsName, wire};
ghost use Rattle.dns_name.specs.Spelling.{Spelling, compresses, place_in, may_stand};
ghost use Rattle.dns_name.specs.Remembered.{IsKnown, IsSound};
ghost use Rattle.dns_compress.specs.Tables.{added, looked_up};

use dns_name::Name;
use std::alloc::AllocError;

/// The suffixes of names that a compressor remembers.
///
/// A table may keep no more of a suffix than its place. So what it remembers is a function of the table and of the
/// octets of the message.
pub trait Table {
    ghost spelling: { Spelling };

    ghost known: { Self → List ℕ → Known };

    ghost lowers: { Bool };

    /// Whether there is memory for the suffixes of a name that begin with one of its first labels, by the key.
    ghost has_room: { Self → ℕ → List (List ℕ) → Type 0 };

    /// Returns whether suffixes are looked up in lower case, rather than as they are.
    fn lowers(&self) -> bool
        ensures { result ≡ lowers };

    /// Returns the place of the suffix that is looked up by this key, if it is remembered.
    fn find(&self, octets: &[u8], key: &Name<&[u8]>) -> Option<usize>
        requires { ∥ IsSound spelling (known self.now octets.now) octets.now ∥₁ }
        ensures { (suffix : List (List ℕ)) → IsName suffix → key.now ≡ looked_up lowers suffix
            → result ≡ place_in spelling (known self.now octets.now) (wire suffix) };

    /// Returns whether a suffix may be remembered at the place, if `more` suffixes are remembered besides those of the
    /// table.
    fn may_stand(&self, more: usize, place: usize) -> bool
        requires { more ≤ 255 }
        ensures { (octets : List ℕ) → result ≡ may_stand spelling (length (known self.now octets) + more) place };

    /// Returns whether any suffix may be remembered.
    fn can_compress(&self) -> bool
        ensures { result ≡ compresses spelling };

    /// Reserves the memory to remember the suffixes of a name that begin with one of its first `count` labels. The key
    /// is the form of the name that suffixes are looked up by. Remembers none of them yet. Fails if out of memory.
    fn reserve(&mut self, key: &Name<&[u8]>, count: usize) -> Result<(), AllocError>
        requires { count ≤ 255 }
        ensures room { OnOk result (has_room self.new count key.now) }
        ensures same { (octets : List ℕ) → known self.new octets ≡ known self.old octets };

    /// Remembers the suffixes of a name that begin with one of its first `count` labels. The key is the form of the
    /// name that suffixes are looked up by. The name is spelled from `place` up to `stop`. Needs no allocation: there
    /// must be room.
    fn remember(
        &mut self,
        octets: &[u8],
        name: &Name<&[u8]>,
        key: &Name<&[u8]>,
        count: usize,
        place: usize,
        stop: usize,
    )
        requires key { key.now ≡ looked_up lowers name.now }
        requires memory { has_room self.old count key.now }
        requires sound { ∥ IsSound spelling (known self.old octets.now ++ added spelling count place stop name.now) octets.now ∥₁ }
        requires order { (standing : Standing) → IsKnown standing (known self.old octets.now) → standing.stop ≤ place }
        requires room { place + length (wire name.now) < 2 ^ 64 }
        requires behind { place < stop }
        ensures { known self.new octets.now ≡ known self.old octets.now ++ added spelling count place stop name.now };

    /// Forgets the suffixes that stop after the length.
    fn forget(&mut self, len: usize)
        ensures { (octets : List ℕ) → ∥ IsSound spelling (known self.old octets) octets ∥₁
            → known self.new (take len octets) ≡ before len (known self.old octets) };

    ghost steady: { (table : Self) (old new : List ℕ) → ∥ IsSound spelling (known table old) old ∥₁
        → ∥ IsSound spelling (known table old) new ∥₁ → known table new ≡ known table old };
}
