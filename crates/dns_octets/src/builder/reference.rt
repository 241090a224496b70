//! Targets that are borrowed.
ghost use Rattle.std.specs.Prelude.{◌≡◌, refl};
ghost use Rattle.std.proofs.Common.{◌∙◌};

use super::{OctetsBuilder, Remembers, Truncate, WriteOctets};
use crate::error::AppendError;

impl<T: Remembers> Remembers for &mut T {
    ghost known = { λ target. T.known target.now };
}

impl<T: OctetsBuilder> OctetsBuilder for &mut T {
    ghost bound = { λ target. T.bound target.now };

    ghost stays = { λ old new. T.stays old.now new.now × (new.ghost_name ≡ old.ghost_name) };

    ghost stays_on = { λ a b c first second. (T.stays_on a.now b.now c.now first.0 second.0, second.1 ∙ first.1) };

    ghost stays_here = { λ a. (T.stays_here a.now, refl) };

    fn append_slice(&mut self, octets: &[u8]) -> Result<(), AppendError> {
        (**self).append_slice(octets)
    }

    fn len(&self) -> usize {
        (**self).len()
    }
}

impl<T: Truncate> Truncate for &mut T {
    fn truncate(&mut self, len: usize) {
        (**self).truncate(len);
    }
}

impl<T: WriteOctets> WriteOctets for &mut T {
    fn set_octet(&mut self, place: usize, octet: u8) {
        (**self).set_octet(place, octet);
    }
}
