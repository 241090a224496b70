//! Tables of suffixes that compare up to ASCII case.
ghost use Rattle.std.specs.Prelude.{◌≡◌, [], true, refl};
ghost use Rattle.dns_name.specs.Spelling.{hash_spelling};
ghost use Rattle.dns_compress.specs.Listed.{listed};

use crate::suffix_map::SuffixMap;
use crate::table::Table;
use dns_name::Name;
use std::alloc::{AllocError, Global};

/// Any number of suffixes, compared up to ASCII case. They are kept in lower case.
#[derive(Drop)]
pub struct HashTable {
    suffixes: SuffixMap,
}

impl HashTable {
    /// Makes an empty table, which grows on this allocator and hashes with this seed.
    pub(crate) fn new(alloc: Global, seed: u64) -> Self
        ensures { listed result.suffixes.list ≡ [] }
    {
        HashTable {
            suffixes: SuffixMap::new(alloc, seed),
        }
    }
}

impl Table for HashTable {
    ghost use Rattle.dns_compress.specs.Seen.{lowered_in, lowered_room};

    ghost spelling = { hash_spelling };

    ghost known = { λ table _. lowered_in table };

    ghost lowers = { true };

    ghost has_room = { lowered_room };

    fn lowers(&self) -> bool {
        true
    }

    fn find(&self, _octets: &[u8], key: &Name<&[u8]>) -> Option<usize> {
        self.suffixes.place(key.as_slice())
    }

    fn may_stand(&self, _more: usize, _place: usize) -> bool {
        true
    }

    fn can_compress(&self) -> bool {
        true
    }

    fn reserve(&mut self, key: &Name<&[u8]>, count: usize) -> Result<(), AllocError> {
        self.suffixes.reserve(key, count)
    }

    fn remember(
        &mut self,
        _octets: &[u8],
        name: &Name<&[u8]>,
        key: &Name<&[u8]>,
        count: usize,
        place: usize,
        stop: usize,
    ) {
        // (Calling `len` tells the prover that a name has at most 255 octets.)
        let _len = name.len();
        self.suffixes.remember(key, count, place, stop);
    }

    fn forget(&mut self, len: usize) {
        self.suffixes.cut(len);
    }

    ghost steady = { λ _ _ _ _ _. refl };
}
