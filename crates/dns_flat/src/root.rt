//! The root.
ghost use Rattle.std.specs.Prelude.{◌≡◌, [], Err, IfOk};
ghost use Rattle.dns_octets.specs.Builder.{IsPast};
ghost use Rattle.dns_octets.specs.declared.error.AppendError.TheVariants.{ShortBuf, BadLength};

use crate::Name;
use dns_octets::{AppendError, EmptyBuilder, FromBuilder};
use dns_wire::copies::octets_from;
use std::alloc::{AllocError, Global};

impl<Octs: FromBuilder> Name<Octs>
where
    Octs::Builder: EmptyBuilder + Drop,
{
    /// Returns the root, in octets of this kind. Fails with `ShortBuf` only if they have no room for its one octet, and
    /// with `OutOfMemory` if out of memory.
    pub fn root(alloc: Global) -> Result<Self, AppendError>
        ensures root { IfOk result (λ name. name ≡ []) }
        ensures short { result ≡ Err ShortBuf → IsPast Octs.Builder.limit 1 }
        ensures not_bad { result ≡ Err BadLength → ⊥ }
    {
        Ok(Name::from_octets_unchecked(octets_from(alloc, &[0])?))
    }
}

impl Name<&'static [u8]> {
    /// Returns the root.
    pub fn root_ref() -> Self
        ensures { result ≡ [] }
    {
        Name::from_octets_unchecked(&[0])
    }

    /// Returns the root.
    pub fn root_slice() -> Self
        ensures { result ≡ [] }
    {
        Name::root_ref()
    }
}

impl Name<Vec<u8>> {
    /// Returns the root. Fails if out of memory.
    pub fn root_vec(alloc: Global) -> Result<Self, AllocError>
        ensures { IfOk result (λ name. name ≡ []) }
    {
        Ok(Name::from_octets_unchecked(Vec::from_slice(alloc, &[0])?))
    }
}
