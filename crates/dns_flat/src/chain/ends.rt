//! Chains as absolute and as relative names.
ghost use Rattle.std.specs.Prelude.{◌++◌};

use super::Chain;
use crate::wire_form::flat_octets;
use crate::{Name, ToName, ToRelativeName};
use std::alloc::{AllocError, Global};

impl<L: ToRelativeName, R: ToName> ToName for Chain<L, R> {
    ghost use Rattle.dns_flat.specs.ChainParts.{left_of, right_of};
    ghost use Rattle.dns_flat.specs.ChainLaws.{rooted_behind};

    ghost name = { λ chain. L.labels (left_of chain) ++ R.name (right_of chain) };

    ghost is_absolute = { λ chain. rooted_behind (L.labels (left_of chain)) (R.name (right_of chain)) (R.is_absolute (right_of chain)) };

    fn as_flat_slice(&self) -> Option<&[u8]> {
        let _left = self.left.as_flat_slice();
        let right = self.right.as_flat_slice();
        if self.count == 0 { right } else { None }
    }

    fn to_vec(&self, alloc: Global) -> Result<Name<Vec<u8>>, AllocError> {
        let _flat = self.as_flat_slice();
        let octets = Vec::from_slice(alloc, flat_octets(self).as_slice())?;
        Ok(Name::from_octets_unchecked(octets))
    }
}

impl<L: ToRelativeName, R: ToRelativeName> ToRelativeName for Chain<L, R> {
    fn as_flat_slice(&self) -> Option<&[u8]> {
        let _left = self.left.as_flat_slice();
        let right = self.right.as_flat_slice();
        if self.count == 0 { right } else { None }
    }
}
