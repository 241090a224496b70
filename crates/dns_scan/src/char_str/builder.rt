//! Building character strings.
ghost use Rattle.std.specs.Prelude.{◌≡◌, ◌≤◌, ◌<◌, ◌↔◌, [], length, Err, IsTrue, IsOk, IfOk, OnOk};
ghost use Rattle.dns_name.specs.Builder.{IsWithin, IsPast};
ghost use Rattle.dns_scan.specs.CharStr.{at_most_255};
ghost use Rattle.dns_name.specs.AppendError.TheVariants.{ShortBuf, BadLength};

use crate::{CharStr, CharStrError};
use dns_name::{AppendError, EmptyBuilder, FreezeBuilder, Octets, OctetsBuilder, Remembers};
use std::alloc::Global;

/// A character string while it is built: at most 255 octets.
#[derive(Debug, Drop)]
pub struct CharStrBuilder<Builder: OctetsBuilder> {
    builder: Builder,
    ghost short: { length (Builder.list builder) ≤ 255 },
}

impl CharStrBuilder<Vec<u8>> {
    ghost use Rattle.dns_scan.specs.CharStrBuilder.{octets_in};

    /// Returns a string without octets, in a vector that grows on this allocator.
    pub fn new_vec(alloc: Global) -> Self
        ensures { octets_in (λ octets. octets.items) result ≡ [] }
    {
        CharStrBuilder::new(alloc)
    }
}

impl<Builder: OctetsBuilder> CharStrBuilder<Builder> {
    ghost use Rattle.dns_scan.specs.CharStrBuilder.{octets_in};

    /// Returns a string without octets. Its target grows on this allocator, if it grows at all.
    pub fn new(alloc: Global) -> Self
    where
        Builder: EmptyBuilder,
        ensures { octets_in Builder.list result ≡ [] }
    {
        CharStrBuilder {
            builder: Builder::empty(alloc),
        }
    }

    /// Returns a string without octets that has room for `capacity` of them. Fails with `ShortBuf` only if its target
    /// can't hold them, and with `OutOfMemory` if out of memory.
    pub fn with_capacity(alloc: Global, capacity: usize) -> Result<Self, AppendError>
    where
        Builder: EmptyBuilder,
        ensures ok { IfOk result (λ string. octets_in Builder.list string ≡ []) }
        ensures fits { OnOk result (IsWithin Builder.limit capacity) }
        ensures short { result ≡ Err ShortBuf → IsPast Builder.limit capacity }
        ensures not_bad { result ≡ Err BadLength → ⊥ }
    {
        Ok(CharStrBuilder {
            builder: Builder::with_capacity(alloc, capacity)?,
        })
    }

    /// Continues with what the builder holds. Fails if that is more than 255 octets.
    pub fn from_builder(builder: Builder) -> Result<Self, CharStrError>
    where
        Builder: Drop,
        ensures ok { IfOk result (λ string. octets_in Builder.list string ≡ Builder.list builder) }
        ensures short { IsOk result ↔ (length (Builder.list builder) ≤ 255) }
    {
        if builder.octets().len() > 255 {
            return Err(CharStrError);
        }
        Ok(CharStrBuilder { builder })
    }

    /// Returns the octets so far.
    pub fn as_slice(&self) -> &[u8]
        ensures { result.now ≡ octets_in Builder.list self.now }
    {
        self.octets()
    }

    /// Returns the number of octets, from 0 to 255.
    pub fn len(&self) -> usize
        ensures { result ≡ length (octets_in Builder.list self.now) }
    {
        self.as_slice().len()
    }

    /// Returns whether there are no octets.
    pub fn is_empty(&self) -> bool
        ensures { IsTrue result ↔ (octets_in Builder.list self.now ≡ []) }
    {
        self.as_slice().is_empty()
    }

    /// Returns the string of the octets.
    pub fn finish(self) -> CharStr<Builder::Octets>
    where
        Builder: FreezeBuilder,
        ensures { result ≡ octets_in Builder.list self }
    {
        let CharStrBuilder { builder } = self;
        CharStr::of_short(builder.freeze())
    }
}

impl<Builder: OctetsBuilder> Octets for CharStrBuilder<Builder> {
    ghost list = { λ string. Builder.list string.builder };

    fn octets(&self) -> &[u8] {
        self.builder.octets()
    }
}

impl<Builder: OctetsBuilder> Remembers for CharStrBuilder<Builder> {
    ghost known = { λ string. Builder.known string.builder };
}

impl<Builder: OctetsBuilder> OctetsBuilder for CharStrBuilder<Builder> {
    ghost bound = { λ string. at_most_255 (Builder.bound string.builder) };

    ghost stays = { λ old new. Builder.stays old.builder new.builder };

    ghost stays_on = { λ a b c first second. Builder.stays_on a.builder b.builder c.builder first second };

    ghost stays_here = { λ a. Builder.stays_here a.builder };

    fn append_slice(&mut self, octets: &[u8]) -> Result<(), AppendError> {
        if octets.len() > 255 - self.builder.octets().len() {
            return Err(AppendError::ShortBuf);
        }
        self.builder.append_slice(octets)
    }

    fn len(&self) -> usize {
        self.builder.len()
    }
}
