//! Names as fields.
ghost use Rattle.std.specs.Prelude.{◌≡◌, ◌++◌, ℕ, List};
ghost use Rattle.std.specs.Ordering.{ordering_then, nat_cmp};
ghost use Rattle.std.specs.Cmp.Lexicographic.{slice_cmp};
ghost use Rattle.std.proofs.Common.{refl};
ghost use Rattle.dns_label.specs.Name.{wire, low};
ghost use Rattle.dns_fields.specs.Fields as fields;

use super::{FieldValue, HasField};
use dns_name::{AppendError, Composer, ToName};
use std::cmp::Ordering;
use std::hash::Hasher;

/// A name that may be written with a pointer: that of a type of RFC 1035 (RFC 3597 4).
#[derive(Clone, Copy, Debug, Drop)]
pub struct Compressible<N>(pub N);

impl<N: ToName> HasField for Compressible<N> {
    ghost kind = { fields.Compressible };

    ghost field = { λ x. fields.compressible (N.name x.0) };

    fn field_len(&self) -> usize {
        usize::from(self.0.compose_len())
    }

    ghost of_kind = { λ _. refl };
}

impl<N: ToName> FieldValue for Compressible<N> {
    fn may_point() -> bool {
        true
    }

    #[tactic(auto, using(crate::proofs::Leaves::leaf_rules), unfolding(dns_name::specs::Page::write))]
    fn compose_field<Target: Composer>(&self, target: &mut Target) -> Result<(), AppendError> {
        target.append_compressed_name(&self.0)
    }

    fn compose_canonical_field<Target: Composer>(
        &self,
        target: &mut Target,
    ) -> Result<(), AppendError> {
        self.0.compose_canonical(target)
    }

    fn field_eq(&self, other: &Self) -> bool {
        self.0.name_eq(&other.0)
    }

    fn field_cmp(&self, other: &Self) -> Ordering {
        self.0.lowercase_composed_cmp(&other.0)
    }

    fn canonical_field_cmp(&self, other: &Self) -> Ordering {
        canonical_names_cmp(&self.0, &other.0)
    }

    fn hash_field<H: Hasher>(&self, state: &mut H) {
        self.0.name_hash(state);
    }
}

/// A name that is never written with a pointer: that of a later type (RFC 3597 4).
#[derive(Clone, Copy, Debug, Drop)]
pub struct Uncompressed<N>(pub N);

impl<N: ToName> HasField for Uncompressed<N> {
    ghost kind = { fields.Uncompressed };

    ghost field = { λ x. fields.uncompressed (N.name x.0) };

    fn field_len(&self) -> usize {
        usize::from(self.0.compose_len())
    }

    ghost of_kind = { λ _. refl };
}

impl<N: ToName> FieldValue for Uncompressed<N> {
    fn may_point() -> bool {
        false
    }

    #[tactic(auto, using(crate::proofs::Leaves::leaf_rules), unfolding(dns_name::specs::Page::write))]
    fn compose_field<Target: Composer>(&self, target: &mut Target) -> Result<(), AppendError> {
        self.0.compose(target)
    }

    fn compose_canonical_field<Target: Composer>(
        &self,
        target: &mut Target,
    ) -> Result<(), AppendError> {
        self.0.compose_canonical(target)
    }

    fn field_eq(&self, other: &Self) -> bool {
        self.0.name_eq(&other.0)
    }

    fn field_cmp(&self, other: &Self) -> Ordering {
        self.0.lowercase_composed_cmp(&other.0)
    }

    fn canonical_field_cmp(&self, other: &Self) -> Ordering {
        canonical_names_cmp(&self.0, &other.0)
    }

    fn hash_field<H: Hasher>(&self, state: &mut H) {
        self.0.name_hash(state);
    }
}

/// Compares the octets of two names in lower case. Those of different names differ before either ends.
fn canonical_names_cmp<N: ToName>(name: &N, other: &N) -> Ordering
    ensures { (behind beyond : List ℕ) → slice_cmp nat_cmp (wire (low (N.name name.now)) ++ behind)
        (wire (low (N.name other.now)) ++ beyond)
        ≡ ordering_then result (slice_cmp nat_cmp behind beyond) }
{
    let _ = name.as_flat_slice();
    let _ = other.as_flat_slice();
    name.lowercase_composed_cmp(other)
}
