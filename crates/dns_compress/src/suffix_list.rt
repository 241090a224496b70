//! Suffixes in the order of writing.
ghost use Rattle.std.specs.Prelude.{◌≡◌, ◌≤◌, ◌<◌, ◌+◌, ◌-◌, ◌++◌, ◌∷◌, [], List, ℕ, Some, length, take, drop, slice_get, IfSome, IfNone, OnOk};
ghost use Rattle.dns_octets.specs.Builder.{Standing, Known};
ghost use Rattle.dns_compress.specs.Joined.{total, AreBackToBack};
ghost use Rattle.dns_compress.specs.declared.written.Written.{Written};

use crate::written::Written;
use std::alloc::{AllocError, Global};

/// Suffixes in the order of writing. Their octets are stored back to back.
#[derive(Drop)]
pub(crate) struct SuffixList {
    octets: Vec<u8>,
    written: Vec<Written>,
    ghost whole: { total written.items ≡ length octets.items },
    ghost starts: { AreBackToBack written.items },
}

impl SuffixList {
    ghost use Rattle.dns_compress.specs.Listed.{listed, HasRoom};

    /// Makes an empty list, which grows on this allocator.
    pub fn new(alloc: Global) -> Self
        ensures empty { listed result ≡ [] }
        ensures written { result.written.items ≡ [] }
    {
        SuffixList {
            octets: Vec::new(alloc),
            written: Vec::new(alloc),
        }
    }

    /// Returns how many suffixes there are.
    #[inline(always)]
    pub fn len(&self) -> usize
        ensures { result ≡ length self.now.written.items }
    {
        self.written.len()
    }

    /// Returns the suffix at the index.
    #[inline(always)]
    pub fn get(&self, index: usize) -> &Written
        requires { index < length self.now.written.items }
        ensures { slice_get self.now.written.items index ≡ Some result.now }
    {
        &self.written[index]
    }

    /// Returns the octets of the suffix at the index.
    #[inline(always)]
    pub fn octets_at(&self, index: usize) -> &[u8]
        requires { index < length self.now.written.items }
        ensures { (one : Written) → slice_get self.now.written.items index ≡ Some one
            → slice_get (listed self.now) index ≡ Some (record { suffix = result.now; place = one.place; stop = one.stop }) }
    {
        let one = self.get(index);
        &self.octets[one.start..one.start + one.len]
    }

    /// Returns the last suffix.
    #[inline(always)]
    pub fn last(&self) -> Option<&Written>
        ensures written { IfSome result (λ last. self.now.written.items ≡ take (length self.now.written.items - 1) self.now.written.items ++ last.now ∷ []) }
        ensures some { IfSome result (λ last. listed self.now ≡ take (length (listed self.now) - 1) (listed self.now)
            ++ record { suffix = drop (length self.now.octets.items - last.now.len) self.now.octets.items; place = last.now.place; stop = last.now.stop } ∷ []) }
        ensures none { IfNone result (listed self.now ≡ []) }
    {
        self.written.last()
    }

    /// Removes the last suffix.
    #[inline(always)]
    pub fn pop(&mut self)
        ensures front { listed self.new ≡ take (length (listed self.old) - 1) (listed self.old) }
        ensures written { self.new.written.items ≡ take (length self.old.written.items - 1) self.old.written.items }
    {
        if let Some(last) = self.written.pop() {
            self.octets.truncate(last.start);
        }
    }

    /// Reserves room for `count` suffixes with `octets` octets in all. Fails if out of memory.
    pub fn reserve(&mut self, count: usize, octets: usize) -> Result<(), AllocError>
        ensures same { listed self.new ≡ listed self.old }
        ensures written { self.new.written.items ≡ self.old.written.items }
        ensures room { OnOk result (HasRoom self.new count octets) }
    {
        self.written.reserve(count)?;
        self.octets.reserve(octets)?;
        Ok(())
    }

    /// Appends the suffix with these octets. There must be room.
    #[inline(always)]
    pub fn push(&mut self, suffix: &[u8], place: usize, stop: usize, hash: u64, older: usize)
        requires { HasRoom self.old 1 (length suffix.now) }
        ensures last { listed self.new ≡ listed self.old ++ record { suffix = suffix.now; place = place; stop = stop } ∷ [] }
        ensures written { self.new.written.items ≡ self.old.written.items ++ record { start = length self.old.octets.items; len = length suffix.now; place = place; stop = stop; hash = hash; older = older } ∷ [] }
        ensures room { (count octets : ℕ) → HasRoom self.old (count + 1) (length suffix.now + octets) → HasRoom self.new count octets }
    {
        let start = self.octets.len();
        let len = suffix.len();
        if self.octets.extend_from_slice(suffix).is_err() {
            unreachable!();
        }
        self.written.push_reserved(Written {
            start,
            len,
            place,
            stop,
            hash,
            older,
        });
    }
}
