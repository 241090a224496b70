//! Tables of suffixes that compare octet for octet.
ghost use Rattle.std.specs.Prelude.{◌≡◌, [], false, refl};
ghost use Rattle.dns_name.specs.Spelling.{tree_spelling};
ghost use Rattle.dns_compress.specs.Listed.{listed};

use crate::suffix_map::SuffixMap;
use crate::table::Table;
use dns_name::Name;
use std::alloc::{AllocError, Global};

/// Any number of suffixes, compared octet for octet.
#[derive(Drop)]
pub struct TreeTable {
    suffixes: SuffixMap,
}

impl TreeTable {
    /// Makes an empty table, which grows on this allocator and hashes with this seed.
    pub(crate) fn new(alloc: Global, seed: u64) -> Self
        ensures { listed result.suffixes.list ≡ [] }
    {
        TreeTable {
            suffixes: SuffixMap::new(alloc, seed),
        }
    }
}

impl Table for TreeTable {
    ghost use Rattle.dns_compress.specs.Seen.{exact_in, exact_room};

    ghost spelling = { tree_spelling };

    ghost known = { λ table _. exact_in table };

    ghost lowers = { false };

    ghost has_room = { exact_room };

    fn lowers(&self) -> bool {
        false
    }

    fn find(&self, _octets: &[u8], key: &Name<&[u8]>) -> Option<usize> {
        self.suffixes.place(key.as_slice())
    }

    fn may_stand(&self, _more: usize, place: usize) -> bool {
        place < 16384
    }

    fn can_compress(&self) -> bool {
        true
    }

    fn reserve(&mut self, key: &Name<&[u8]>, count: usize) -> Result<(), AllocError> {
        self.suffixes.reserve(key, count)
    }

    fn remember(
        &mut self,
        _octets: &[u8],
        _name: &Name<&[u8]>,
        key: &Name<&[u8]>,
        count: usize,
        place: usize,
        stop: usize,
    ) {
        self.suffixes.remember(key, count, place, stop);
    }

    fn forget(&mut self, len: usize) {
        self.suffixes.cut(len);
    }

    ghost steady = { λ _ _ _ _ _. refl };
}
