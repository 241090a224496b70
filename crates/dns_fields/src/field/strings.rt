//! Character strings and tags as fields.
ghost use Rattle.std.specs.Prelude.{◌≡◌, ◌≤◌, ◌+◌, ◌∷◌, length, map, take};
ghost use Rattle.std.specs.Char.{to_ascii_lowercase};
ghost use Rattle.std.proofs.Common.{refl};
ghost use Rattle.dns_fields.specs.Fields as fields;

use super::{FieldValue, HasField};
use dns_name::{AppendError, CanonicalOrd, Compose, Composer, Octets};
use dns_text::CharStr;
use std::cmp::Ordering;
use std::hash::Hasher;

/// A tag of CAA data, which is held as a string (RFC 8659 4.1).
#[derive(Debug, Drop)]
pub struct Tag<Octs: Octets>(pub CharStr<Octs>);

impl<Octs: Octets> HasField for CharStr<Octs> {
    ghost kind = { fields.String };

    ghost field = { fields.string };

    fn field_len(&self) -> usize {
        1 + self.len()
    }

    ghost of_kind = { λ _. refl };
}

/// Compared up to ASCII case, though canonically it keeps its case.
impl<Octs: Octets> FieldValue for CharStr<Octs> {
    fn may_point() -> bool {
        false
    }

    #[tactic(auto, using(crate::proofs::Leaves::leaf_rules), unfolding(dns_name::specs::Page::write))]
    fn compose_field<Target: Composer>(&self, target: &mut Target) -> Result<(), AppendError> {
        self.compose(target)
    }

    fn compose_canonical_field<Target: Composer>(
        &self,
        target: &mut Target,
    ) -> Result<(), AppendError> {
        self.compose(target)
    }

    fn field_eq(&self, other: &Self) -> bool {
        self == other
    }

    fn field_cmp(&self, other: &Self) -> Ordering {
        match self.len().cmp(&other.len()) {
            Ordering::Equal => self.cmp(other),
            unequal => unequal,
        }
    }

    fn canonical_field_cmp(&self, other: &Self) -> Ordering {
        self.canonical_cmp(other)
    }

    fn hash_field<H: Hasher>(&self, state: &mut H) {
        let octets = lowered_behind_number(self.as_slice());
        state.write(&octets[..1 + self.len()]);
    }
}

/// Returns the number of the octets, the octets in lower case, and zeros.
fn lowered_behind_number(octets: &[u8]) -> [u8; 256]
    requires { length octets.now ≤ 255 }
    ensures front { take (1 + length octets.now) result ≡ length octets.now ∷ map to_ascii_lowercase octets.now }
    ensures size { length result ≡ 256 }
{
    let mut wire = [0; 256];
    wire[0] = octets.len() as u8;
    wire[1..1 + octets.len()].copy_from_slice(octets);
    wire[1..1 + octets.len()].make_ascii_lowercase();
    wire
}

impl<Octs: Octets> HasField for Tag<Octs> {
    ghost kind = { fields.Tag };

    ghost field = { λ x. fields.tag x.0 };

    fn field_len(&self) -> usize {
        self.0.field_len()
    }

    ghost of_kind = { λ _. refl };
}

impl<Octs: Octets> FieldValue for Tag<Octs> {
    fn may_point() -> bool {
        false
    }

    #[tactic(auto, using(crate::proofs::Leaves::leaf_rules), unfolding(dns_name::specs::Page::write))]
    fn compose_field<Target: Composer>(&self, target: &mut Target) -> Result<(), AppendError> {
        self.0.compose_field(target)
    }

    fn compose_canonical_field<Target: Composer>(
        &self,
        target: &mut Target,
    ) -> Result<(), AppendError> {
        self.0.compose_canonical_field(target)
    }

    fn field_eq(&self, other: &Self) -> bool {
        self.0.field_eq(&other.0)
    }

    fn field_cmp(&self, other: &Self) -> Ordering {
        self.0.field_cmp(&other.0)
    }

    fn canonical_field_cmp(&self, other: &Self) -> Ordering {
        self.0.canonical_field_cmp(&other.0)
    }

    fn hash_field<H: Hasher>(&self, state: &mut H) {
        self.0.hash_field(state);
    }
}
