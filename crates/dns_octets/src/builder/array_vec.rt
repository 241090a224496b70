//! Targets of a fixed size.
ghost use Rattle.std.specs.Prelude.{◌≡◌, ◌≤◌, ◌↔◌, [], ◌++◌, ⊤, Some, Err, IsOk, IfOk, IfErr, OnOk, OnErr, length};
ghost use Rattle.dns_octets.specs.Builder.{GrowsTo, IsWithin, IsPast};
ghost use Rattle.dns_octets.specs.declared.error.AppendError.TheVariants.{ShortBuf, BadLength};

use super::{
    EmptyBuilder, FreezeBuilder, FromBuilder, OctetsBuilder, OctetsFrom, Remembers, Truncate,
    WriteOctets,
};
use crate::error::AppendError;
use crate::octets::Octets;
use arrayvec::ArrayVec;
use std::alloc::Global;

impl<const N: usize> Remembers for ArrayVec<u8, N> {
    ghost known = { λ _. [] };
}

impl<const N: usize> OctetsBuilder for ArrayVec<u8, N> {
    ghost bound = { λ _. Some N };

    ghost stays = { λ _ _. ⊤ };

    ghost stays_on = { λ _ _ _ _ _. tt };

    ghost stays_here = { λ _. tt };

    #[tactic(auto, using(crate::proofs::Grows::grows_rules))]
    fn append_slice(&mut self, octets: &[u8]) -> Result<(), AppendError>
        ensures ok { OnOk result (self.new.items ≡ self.old.items ++ octets.now) }
        ensures err { OnErr result (self.new.items ≡ self.old.items) }
        ensures grows { GrowsTo self.old.items [] self.new.items [] }
        ensures short { result ≡ Err ShortBuf → IsPast (Some N) (length (self.old.items ++ octets.now)) }
        ensures fits { OnOk result (IsWithin (Some N) (length self.new.items)) }
        ensures not_bad { result ≡ Err BadLength → ⊥ }

        // It allocates nothing, so it fails exactly if the octets do not fit.
        ensures room { IsOk result ↔ (length (self.old.items ++ octets.now) ≤ N) }
        ensures only { IfErr result (λ e. e ≡ ShortBuf) }
    {
        match self.try_extend_from_slice(octets) {
            Ok(()) => Ok(()),
            Err(_) => Err(AppendError::ShortBuf),
        }
    }

    fn len(&self) -> usize {
        self.len()
    }
}

impl<const N: usize> EmptyBuilder for ArrayVec<u8, N> {
    ghost limit = { Some N };

    fn empty(_alloc: Global) -> Self {
        ArrayVec::new()
    }

    fn with_capacity(_alloc: Global, capacity: usize) -> Result<Self, AppendError> {
        if capacity > N {
            return Err(AppendError::ShortBuf);
        }
        Ok(ArrayVec::new())
    }
}

impl<const N: usize> FromBuilder for ArrayVec<u8, N> {
    type Builder = ArrayVec<u8, N>;

    fn from_builder(builder: ArrayVec<u8, N>) -> Self {
        builder
    }
}

impl<const N: usize> Truncate for ArrayVec<u8, N> {
    fn truncate(&mut self, len: usize) {
        self.truncate(len);
    }
}

impl<const N: usize> WriteOctets for ArrayVec<u8, N> {
    fn set_octet(&mut self, place: usize, octet: u8) {
        self.as_mut_slice()[place] = octet;
    }
}

impl<const N: usize> FreezeBuilder for ArrayVec<u8, N> {
    type Octets = ArrayVec<u8, N>;

    fn freeze(self) -> ArrayVec<u8, N> {
        self
    }
}

impl<S: Octets + Drop, const N: usize> OctetsFrom<S> for ArrayVec<u8, N> {
    ghost octets_from_gives = { λ source result. IfOk result (λ octets. octets.items ≡ S.list source)
        × (IsOk result ↔ (length (S.list source) ≤ N))
        × IfErr result (λ e. e ≡ ShortBuf) };

    fn try_octets_from(_alloc: Global, source: S) -> Result<Self, AppendError> {
        let mut octets = ArrayVec::new();
        octets.append_slice(source.octets())?;
        Ok(octets)
    }
}
