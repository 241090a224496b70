//! Names in lower case.
ghost use Rattle.std.specs.Prelude.{◌≡◌};
ghost use Rattle.dns_label.specs.Name.{IsName, low};

use arrayvec::ArrayVec;
use dns_name::Name;

/// Returns the name in lower case.
pub(crate) fn lowered(name: &Name<&[u8]>) -> Name<ArrayVec<u8, 255>>
    ensures low { result ≡ low name.now }
    ensures name { IsName name.now }
{
    let mut octets = ArrayVec::new();
    if octets.try_extend_from_slice(name.as_slice()).is_err() {
        unreachable!();
    }
    let mut lowered = Name::from_octets_unchecked(octets);
    lowered.make_canonical();
    lowered
}
