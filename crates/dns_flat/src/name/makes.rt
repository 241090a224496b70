//! Names over octets of any kind.
ghost use Rattle.std.specs.Prelude.{◌≡◌, Err, length, IfOk};
ghost use Rattle.dns_label.specs.Name.{wire};
ghost use Rattle.dns_wire.specs.Flat.{IsWritten};
ghost use Rattle.dns_octets.specs.Builder.{IsPast};
ghost use Rattle.dns_octets.specs.declared.error.AppendError.TheVariants.{ShortBuf, BadLength};

use super::Name;
use crate::ToName;
use dns_octets::{AppendError, EmptyBuilder, FromBuilder, Octets, OctetsFrom};
use dns_wire::copies::octets_from;
use std::alloc::Global;

impl<Octs: Octets> Name<Octs> {
    /// Makes a name of its octets, uncompressed and whole (RFC 1035 3.1). It does not check them: the caller has to
    /// prove that they are a name's.
    pub fn from_octets_unchecked(octets: Octs) -> Self
        requires { IsWritten (Octs.list octets) }
        ensures { Octs.list octets ≡ wire result }
    {
        Name { octets }
    }
}

/// Returns the name of these octets, in octets of another kind.
pub(crate) fn copied_name<Octs: FromBuilder>(
    alloc: Global,
    octets: &[u8],
) -> Result<Name<Octs>, AppendError>
where
    Octs::Builder: EmptyBuilder + Drop,
    requires { IsWritten octets.now }
    ensures ok { IfOk result (λ name. octets.now ≡ wire name) }
    ensures short { result ≡ Err ShortBuf → IsPast ⟦<Octs::Builder as EmptyBuilder>⟧.limit (length octets.now) }
    ensures not_bad { result ≡ Err BadLength → ⊥ }
{
    Ok(Name::from_octets_unchecked(octets_from(alloc, octets)?))
}

/// Copies the name to other octets. Fails with `ShortBuf` only if these can't hold as many octets, and with
/// `OutOfMemory` if out of memory.
impl<Source: Octets + Drop, Octs: FromBuilder> OctetsFrom<Name<Source>> for Name<Octs>
where
    Octs::Builder: EmptyBuilder + Drop,
{
    ghost octets_from_gives = { λ source result. IfOk result (λ name. name ≡ source)
        × (result ≡ Err ShortBuf → IsPast Octs.Builder.limit (length (wire source)))
        × (result ≡ Err BadLength → ⊥) };

    fn try_octets_from(alloc: Global, source: Name<Source>) -> Result<Self, AppendError> {
        source.try_to_name(alloc)
    }
}
