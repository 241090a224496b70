//! Targets that write names with pointers to remembered suffixes.
ghost use Rattle.std.specs.Prelude.{◌≡◌, ◌<◌, ◌≤◌, ◌+◌, ◌++◌, [], ℕ, List, Err, length, OnOk, OnErr};
ghost use Rattle.dns_octets.specs.Builder.{IsWithin, IsPast};
ghost use Rattle.dns_octets.specs.declared.error.AppendError.TheVariants.{ShortBuf, BadLength};
ghost use Rattle.std.specs.Option.{ForSome};
ghost use Rattle.dns_label.specs.Name.{IsName, wire};
ghost use Rattle.dns_name.specs.Spelling.{name_text, known_after};
ghost use Rattle.dns_name.specs.Remembered.{IsSound, patched};
ghost use Rattle.dns_compress.specs.Tables.{looked_up};
ghost use Rattle.dns_compress.specs.Walk.{IsWalked};

use crate::append::append_walked;
use crate::hash_table::HashTable;
use crate::lower_case::lowered;
use crate::static_table::StaticTable;
use crate::suffix_hash::DEFAULT_SEED;
use crate::table::Table;
use crate::tree_table::TreeTable;
use crate::walk::{Walk, walk_labels};
use arrayvec::ArrayVec;
use dns_name::{
    AppendError, Composer, FreezeBuilder, Name, Octets, OctetsBuilder, Remembers, ToName, Truncate,
};
use std::alloc::Global;

/// A target that remembers at most 24 suffixes, up to ASCII case, without an allocation.
pub type StaticCompressor<Target> = Compressor<Target, StaticTable>;

/// A target that remembers any number of suffixes, octet for octet.
pub type TreeCompressor<Target> = Compressor<Target, TreeTable>;

/// A target that remembers any number of suffixes, up to ASCII case.
pub type HashCompressor<Target> = Compressor<Target, HashTable>;

/// A target that writes names with pointers to suffixes already written in it (RFC 1035 4.1.4).
///
/// It wraps a target that remembers nothing itself.
#[derive(Drop)]
pub struct Compressor<Target: Truncate, T: Table> {
    target: Target,
    table: T,
    ghost plain: { Target.known target ≡ [] },
    ghost sound: { ∥ IsSound T.spelling (T.known table (Target.list target)) (Target.list target) ∥₁ },
}

impl<Target: Truncate> Compressor<Target, StaticTable> {
    ghost use Rattle.dns_compress.specs.Compressor.{target_in, known_in};

    /// Makes a compressor that remembers nothing yet. The target must remember nothing.
    pub fn new(target: Target) -> Self
        requires { Target.known target ≡ [] }
        ensures target { target_in result ≡ target }
        ensures known { known_in result ≡ [] }
    {
        Compressor::over(target, StaticTable::new())
    }
}

impl<Target: Truncate> Compressor<Target, TreeTable> {
    ghost use Rattle.dns_compress.specs.Compressor.{target_in, known_in};

    /// Makes a compressor that remembers nothing yet. Its table grows on this allocator. The target must remember
    /// nothing.
    pub fn new(alloc: Global, target: Target) -> Self
        requires { Target.known target ≡ [] }
        ensures target { target_in result ≡ target }
        ensures known { known_in result ≡ [] }
    {
        Compressor::over(target, TreeTable::new(alloc, DEFAULT_SEED))
    }

    /// As `new`, but hashes with this seed. The seed changes no octet that the compressor writes.
    pub fn with_seed(alloc: Global, target: Target, seed: u64) -> Self
        requires { Target.known target ≡ [] }
        ensures target { target_in result ≡ target }
        ensures known { known_in result ≡ [] }
    {
        Compressor::over(target, TreeTable::new(alloc, seed))
    }
}

impl<Target: Truncate> Compressor<Target, HashTable> {
    ghost use Rattle.dns_compress.specs.Compressor.{target_in, known_in};

    /// Makes a compressor that remembers nothing yet. Its table grows on this allocator. The target must remember
    /// nothing.
    pub fn new(alloc: Global, target: Target) -> Self
        requires { Target.known target ≡ [] }
        ensures target { target_in result ≡ target }
        ensures known { known_in result ≡ [] }
    {
        Compressor::over(target, HashTable::new(alloc, DEFAULT_SEED))
    }

    /// As `new`, but hashes with this seed. The seed changes no octet that the compressor writes.
    pub fn with_seed(alloc: Global, target: Target, seed: u64) -> Self
        requires { Target.known target ≡ [] }
        ensures target { target_in result ≡ target }
        ensures known { known_in result ≡ [] }
    {
        Compressor::over(target, HashTable::new(alloc, seed))
    }
}

impl<Target: Truncate, T: Table> Compressor<Target, T> {
    ghost use Rattle.dns_compress.specs.Compressor.{target_in, octets_in, known_in};

    /// Wraps the target with an empty table.
    fn over(target: Target, table: T) -> Self
        requires plain { Target.known target ≡ [] }
        requires empty { T.known table (Target.list target) ≡ [] }
        ensures target { target_in result ≡ target }
        ensures known { known_in result ≡ [] }
    {
        Compressor { target, table }
    }

    /// Returns the wrapped target, which holds the same octets and remembers nothing.
    pub fn as_target(&self) -> &Target
        ensures target { result.now ≡ target_in self.now }
        ensures octets { Target.list result.now ≡ octets_in self.now }
        ensures known { Target.known result.now ≡ [] }
    {
        &self.target
    }

    /// Returns the wrapped target, which holds the same octets and remembers nothing.
    pub fn into_target(self) -> Target
    where
        T: Drop,
        ensures target { result ≡ target_in self }
        ensures octets { Target.list result ≡ octets_in self }
        ensures known { Target.known result ≡ [] }
    {
        let Compressor { target, .. } = self;
        target
    }

    /// Returns the octets of the message.
    pub fn as_slice(&self) -> &[u8]
        ensures { result.now ≡ octets_in self.now }
    {
        self.target.octets()
    }
}

impl<Target: Truncate, T: Table> Compressor<Target, T> {
    /// Walks over the labels of a name to append. Its suffixes are looked up by those of the key.
    fn walk(&self, name: &Name<&[u8]>, key: &Name<&[u8]>) -> Walk
        requires { key.now ≡ looked_up T.lowers name.now }
        ensures walked { IsWalked T.spelling (T.known self.now.table (Target.list self.now.target))
            (length (T.known self.now.table (Target.list self.now.target)) + 0) (length (Target.list self.now.target)) name.now
            result.labels result.front result.near result.target }
        ensures room { ForSome result.target (λ place. result.front + 2 ≤ length (wire name.now)) }
        ensures labels { result.labels ≤ 255 }
        ensures near { ForSome result.target (λ place. place < 16384) }
        ensures name { IsName name.now }
    {
        // (Calling `len` tells the prover that both have at most 255 octets.)
        let _len = name.len();
        let _key_len = key.len();
        let octets = self.target.octets();
        walk_labels(&self.table, octets, key, 0, octets.len())
    }
}

impl<Target: Composer, T: Table> Compressor<Target, T> {
    /// Appends the name, all or nothing.
    fn append_name(&mut self, name: &Name<&[u8]>) -> Result<(), AppendError>
        ensures ok { OnOk result (Target.list self.new.target ≡ Target.list self.old.target
            ++ name_text T.spelling (T.known self.old.table (Target.list self.old.target)) (length (Target.list self.old.target)) name.now) }
        ensures known { OnOk result (T.known self.new.table (Target.list self.new.target)
            ≡ known_after T.spelling (T.known self.old.table (Target.list self.old.target)) (length (Target.list self.old.target)) name.now) }
        ensures err { OnErr result ((Target.list self.new.target ≡ Target.list self.old.target)
            × (T.known self.new.table (Target.list self.new.target) ≡ T.known self.old.table (Target.list self.old.target))) }
        ensures short { result ≡ Err ShortBuf → IsPast (Target.bound self.old.target) (length (Target.list self.old.target
            ++ name_text T.spelling (T.known self.old.table (Target.list self.old.target)) (length (Target.list self.old.target)) name.now)) }
        ensures fits { OnOk result (IsWithin (Target.bound self.old.target) (length (Target.list self.new.target))) }
        ensures not_bad { result ≡ Err BadLength → ⊥ }
        ensures same_bound { Target.bound self.new.target ≡ Target.bound self.old.target }
        ensures stays { Target.stays self.old.target self.new.target }
    {
        if self.table.lowers() {
            let key = lowered(name);
            return self.append_by(name, &key.for_ref());
        }
        self.append_by(name, &name.for_ref())
    }

    /// Appends the name, all or nothing. Its suffixes are looked up by those of the key.
    fn append_by(&mut self, name: &Name<&[u8]>, key: &Name<&[u8]>) -> Result<(), AppendError>
        requires { key.now ≡ looked_up T.lowers name.now }
        ensures ok { OnOk result (Target.list self.new.target ≡ Target.list self.old.target
            ++ name_text T.spelling (T.known self.old.table (Target.list self.old.target)) (length (Target.list self.old.target)) name.now) }
        ensures known { OnOk result (T.known self.new.table (Target.list self.new.target)
            ≡ known_after T.spelling (T.known self.old.table (Target.list self.old.target)) (length (Target.list self.old.target)) name.now) }
        ensures err { OnErr result ((Target.list self.new.target ≡ Target.list self.old.target)
            × (T.known self.new.table (Target.list self.new.target) ≡ T.known self.old.table (Target.list self.old.target))) }
        ensures short { result ≡ Err ShortBuf → IsPast (Target.bound self.old.target) (length (Target.list self.old.target
            ++ name_text T.spelling (T.known self.old.table (Target.list self.old.target)) (length (Target.list self.old.target)) name.now)) }
        ensures fits { OnOk result (IsWithin (Target.bound self.old.target) (length (Target.list self.new.target))) }
        ensures not_bad { result ≡ Err BadLength → ⊥ }
        ensures same_bound { Target.bound self.new.target ≡ Target.bound self.old.target }
        ensures stays { Target.stays self.old.target self.new.target }
    {
        let place = self.target.octets().len();
        let walk = self.walk(name, key);
        if !walk.near {
            append_walked(&mut self.target, name.as_slice(), walk)?;
            return Ok(());
        }
        if self.table.reserve(key, walk.labels).is_err() {
            return Err(AppendError::OutOfMemory);
        }
        append_walked(&mut self.target, name.as_slice(), walk)?;
        let octets = self.target.octets();
        self.table
            .remember(octets, name, key, walk.labels, place, octets.len());
        Ok(())
    }
}

impl<Target: Truncate, T: Table> Octets for Compressor<Target, T> {
    ghost use Rattle.dns_compress.specs.Compressor.{octets_in};

    ghost list = { octets_in };

    fn octets(&self) -> &[u8] {
        self.as_slice()
    }
}

impl<Target: Truncate, T: Table> Remembers for Compressor<Target, T> {
    ghost use Rattle.dns_compress.specs.Compressor.{known_in};

    ghost known = { known_in };
}

impl<Target: Truncate, T: Table> OctetsBuilder for Compressor<Target, T> {
    ghost use Rattle.dns_compress.specs.Compressor.{target_in};

    ghost bound = { λ compressor. Target.bound (target_in compressor) };

    ghost stays = { λ old new. Target.stays (target_in old) (target_in new) };

    ghost stays_on = { λ a b c first second. Target.stays_on (target_in a) (target_in b) (target_in c) first second };

    ghost stays_here = { λ a. Target.stays_here (target_in a) };

    fn append_slice(&mut self, octets: &[u8]) -> Result<(), AppendError> {
        self.target.append_slice(octets)
    }

    fn len(&self) -> usize {
        self.target.len()
    }
}

impl<Target: Truncate, T: Table> Truncate for Compressor<Target, T> {
    fn truncate(&mut self, len: usize) {
        self.table.forget(len);
        self.target.truncate(len);
    }
}

impl<Target: Truncate + FreezeBuilder, T: Table + Drop> FreezeBuilder for Compressor<Target, T> {
    type Octets = Target::Octets;

    fn freeze(self) -> Target::Octets {
        self.into_target().freeze()
    }
}

impl<Target: Composer, T: Table> Composer for Compressor<Target, T> {
    ghost spelling = { T.spelling };

    fn append_compressed_name<N: ToName>(&mut self, name: &N) -> Result<(), AppendError> {
        if let Some(octets) = name.as_flat_slice() {
            return self.append_name(&Name::from_octets_unchecked(octets));
        }
        let mut octets: ArrayVec<u8, 255> = ArrayVec::new();
        name.compose(&mut octets)?;
        self.append_name(&Name::from_octets_unchecked(octets.as_slice()))
    }

    fn can_compress(&self) -> bool {
        self.table.can_compress()
    }

    fn patch(&mut self, place: usize, octets: &[u8]) {
        patch_plain(&mut self.target, place, octets);
    }

    ghost sound = { λ all. all.sound };
}

/// Overwrites octets of a target that remembers nothing.
fn patch_plain<Target: Composer>(target: &mut Target, place: usize, octets: &[u8])
    requires plain { Target.known target.old ≡ [] }
    requires within { place + length octets.now ≤ length (Target.list target.old) }
    ensures octets { Target.list target.new ≡ patched (Target.list target.old) place octets.now }
    ensures known { Target.known target.new ≡ [] }
    ensures same_bound { Target.bound target.new ≡ Target.bound target.old }
    ensures stays { Target.stays target.old target.new }
{
    target.patch(place, octets);
}
