//! Any number of suffixes, by their octets.
ghost use Rattle.std.specs.Prelude.{◌≡◌, ◌≤◌, ◌<◌, ◌+◌, ◌++◌, ◌∷◌, ◌^◌, [], List, ℕ, Bool, Some, true, false, length, slice_get, OnOk};
ghost use Rattle.dns_octets.specs.Builder.{Standing, Known, before};
ghost use Rattle.dns_label.specs.Name.{wire};
ghost use Rattle.dns_name.specs.Spelling.{place_in, is_same, tree_spelling};
ghost use Rattle.dns_compress.specs.Tables.{added, in_order};
ghost use Rattle.dns_compress.specs.Listed.{listed, HasRoom};
ghost use Rattle.dns_compress.specs.SuffixHash.{hash_of};
ghost use Rattle.dns_compress.specs.SuffixIndex.{latest, IsIndex, AreHashes};

use crate::suffix_hash::{BUCKETS, bucket, hash};
use crate::suffix_list::SuffixList;
use dns_name::Name;
use std::alloc::{AllocError, Global};

/// The suffixes in the order of writing, and for each bucket one more than the index of its last one, or 0 if it has
/// none. A suffix leads to the one before it in its bucket. There are no buckets until room is reserved.
#[derive(Drop)]
pub(crate) struct SuffixMap {
    seed: u64,
    heads: Vec<usize>,
    list: SuffixList,
    ghost index: { IsIndex list.written.items heads.items },
    ghost hashes: { AreHashes seed list.written.items (listed list) },
    ghost order: { in_order tree_spelling (listed list) ≡ true },
}

impl SuffixMap {
    ghost use Rattle.dns_compress.specs.Ready.{IsReady};

    /// Makes an empty map, which grows on this allocator and hashes with this seed.
    pub fn new(alloc: Global, seed: u64) -> Self
        ensures { listed result.list ≡ [] }
    {
        SuffixMap {
            seed,
            heads: Vec::new(alloc),
            list: SuffixList::new(alloc),
        }
    }

    /// Returns the place of the suffix with these octets.
    pub fn place(&self, suffix: &[u8]) -> Option<usize>
        ensures { result ≡ place_in tree_spelling (listed self.now.list) suffix.now }
    {
        let hash = hash(self.seed, suffix);
        let mut next = self.head(bucket(hash));
        while next != 0 {
            let index = next - 1;
            if self.is_at(index, suffix, hash) {
                return Some(self.list.get(index).place);
            }
            next = self.list.get(index).older;
        }
        None
    }

    /// Returns one more than the index of the last suffix of the bucket, or 0 if it has none.
    #[inline(always)]
    fn head(&self, bucket: usize) -> usize
        requires { bucket < 512 }
        ensures { result ≡ latest self.now.list.written.items bucket (length self.now.list.written.items) }
    {
        match self.heads.get(bucket) {
            Some(head) => *head,
            None => 0,
        }
    }

    /// Returns whether the suffix at the index has these octets, whose hash this is.
    #[inline(always)]
    fn is_at(&self, index: usize, suffix: &[u8], hash: u64) -> bool
        requires within { index < length self.now.list.written.items }
        requires hash { hash ≡ hash_of self.now.seed suffix.now }
        ensures { (standing : Standing) → slice_get (listed self.now.list) index ≡ Some standing
            → result ≡ is_same tree_spelling standing.suffix suffix.now }
    {
        self.list.get(index).hash == hash && self.list.octets_at(index) == suffix
    }

    /// Makes room for the suffixes of the name that begin with one of its first `count` labels. Fails if out of
    /// memory.
    pub fn reserve(&mut self, name: &Name<&[u8]>, count: usize) -> Result<(), AllocError>
        requires { count ≤ 255 }
        ensures room { OnOk result (IsReady self.new count name.now) }
        ensures same { listed self.new.list ≡ listed self.old.list }
    {
        if self.heads.len() != BUCKETS {
            self.make_buckets()?;
        }
        self.list.reserve(count, count * name.len())
    }

    /// Makes the buckets. Fails if out of memory.
    fn make_buckets(&mut self) -> Result<(), AllocError>
        requires { length self.old.list.written.items ≡ 0 }
        ensures made { OnOk result (length self.new.heads.items ≡ 512) }
        ensures same { listed self.new.list ≡ listed self.old.list }
    {
        self.heads.clear();
        self.heads.resize(BUCKETS, 0)
    }

    /// Adds the suffixes of the name that begin with one of its first `count` labels. There must be room.
    pub fn remember(&mut self, name: &Name<&[u8]>, count: usize, place: usize, stop: usize)
        requires ready { IsReady self.old count name.now }
        requires order { in_order tree_spelling (listed self.old.list ++ added tree_spelling count place stop name.now) ≡ true }
        requires room { place + length (wire name.now) < 2 ^ 64 }
        ensures { listed self.new.list ≡ listed self.old.list ++ added tree_spelling count place stop name.now }
    {
        if count == 0 {
            return;
        }
        let Some((label, parent)) = name.split_first() else {
            return;
        };
        self.push(name.as_slice(), place, stop);
        self.remember(&parent, count - 1, place + 1 + label.len(), stop);
    }

    /// Adds the suffix with these octets. There must be room.
    fn push(&mut self, suffix: &[u8], place: usize, stop: usize)
        requires buckets { length self.old.heads.items ≡ 512 }
        requires ready { HasRoom self.old.list 1 (length suffix.now) }
        requires order { in_order tree_spelling (listed self.old.list ++ record { suffix = suffix.now; place = place; stop = stop } ∷ []) ≡ true }
        ensures last { listed self.new.list ≡ listed self.old.list ++ record { suffix = suffix.now; place = place; stop = stop } ∷ [] }
        ensures buckets { length self.new.heads.items ≡ 512 }
        ensures room { (count octets : ℕ) → HasRoom self.old.list (count + 1) (length suffix.now + octets) → HasRoom self.new.list count octets }
    {
        let hash = hash(self.seed, suffix);
        let bucket = bucket(hash);
        let older = self.heads[bucket];
        self.list.push(suffix, place, stop, hash, older);
        self.heads[bucket] = self.list.len();
    }

    /// Removes the suffixes that stop after the length. Needs no allocation.
    pub fn cut(&mut self, len: usize)
        ensures { listed self.new.list ≡ before len (listed self.old.list) }
    {
        while self.pop_behind(len) {}
    }

    /// Removes the last suffix if it stops after the length. Returns whether it does.
    #[inline(always)]
    fn pop_behind(&mut self, len: usize) -> bool
        ensures same { before len (listed self.new.list) ≡ before len (listed self.old.list) }
        ensures less { result ≡ true → length (listed self.new.list) < length (listed self.old.list) }
        ensures all { result ≡ false → before len (listed self.new.list) ≡ listed self.new.list }
    {
        let Some(last) = self.list.last() else {
            return false;
        };
        if last.stop <= len {
            return false;
        }
        self.heads[bucket(last.hash)] = last.older;
        self.list.pop();
        true
    }
}
