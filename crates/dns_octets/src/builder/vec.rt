//! Targets that grow.
ghost use Rattle.std.specs.Prelude.{◌≡◌, [], ⊤, None, IfOk, Err, vec_capacity};
ghost use Rattle.dns_octets.specs.declared.error.AppendError.TheVariants.{ShortBuf, BadLength};

use super::{
    EmptyBuilder, FreezeBuilder, FromBuilder, OctetsBuilder, OctetsFrom, Remembers, Truncate,
    WriteOctets,
};
use crate::error::AppendError;
use crate::octets::Octets;
use std::alloc::Global;

impl Remembers for Vec<u8> {
    ghost known = { λ _. [] };
}

impl OctetsBuilder for Vec<u8> {
    ghost bound = { λ _. None };

    ghost stays = { λ _ _. ⊤ };

    ghost stays_on = { λ _ _ _ _ _. tt };

    ghost stays_here = { λ _. tt };

    #[tactic(auto, using(crate::proofs::Grows::grows_rules))]
    fn append_slice(&mut self, octets: &[u8]) -> Result<(), AppendError> {
        self.extend_from_slice(octets)?;
        Ok(())
    }

    fn len(&self) -> usize {
        self.len()
    }
}

impl EmptyBuilder for Vec<u8> {
    ghost limit = { None };

    fn empty(alloc: Global) -> Self {
        Vec::new(alloc)
    }

    fn with_capacity(alloc: Global, capacity: usize) -> Result<Self, AppendError>
        ensures octets { IfOk result (λ builder. builder.items ≡ []) }
        ensures room { IfOk result (λ builder. vec_capacity builder ≡ capacity) }
        ensures short { result ≡ Err ShortBuf → ⊥ }
        ensures not_bad { result ≡ Err BadLength → ⊥ }
    {
        Ok(Vec::with_capacity(alloc, capacity)?)
    }
}

impl FromBuilder for Vec<u8> {
    type Builder = Vec<u8>;

    fn from_builder(builder: Vec<u8>) -> Self {
        builder
    }
}

impl Truncate for Vec<u8> {
    fn truncate(&mut self, len: usize) {
        self.truncate(len);
    }
}

impl WriteOctets for Vec<u8> {
    fn set_octet(&mut self, place: usize, octet: u8) {
        self.as_mut_slice()[place] = octet;
    }
}

impl FreezeBuilder for Vec<u8> {
    type Octets = Vec<u8>;

    fn freeze(self) -> Vec<u8> {
        self
    }
}

impl<S: Octets + Drop> OctetsFrom<S> for Vec<u8> {
    ghost octets_from_gives = { λ source result. IfOk result (λ octets. octets.items ≡ S.list source)
        × (result ≡ Err ShortBuf → ⊥)
        × (result ≡ Err BadLength → ⊥) };

    fn try_octets_from(alloc: Global, source: S) -> Result<Self, AppendError> {
        Ok(Vec::from_slice(alloc, source.octets())?)
    }
}
