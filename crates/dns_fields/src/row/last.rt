//! A field that ends a row: it has all octets that are left.
ghost use Rattle.std.specs.Prelude.{◌≡◌, ◌∷◌, [], List, length, false};
ghost use Rattle.std.proofs.Common.{refl};
ghost use Rattle.dns_fields.specs.Fields.{Kind, Field, field_octets};
ghost use Rattle.dns_fields.specs.Last.{IsLast};
ghost use Rattle.dns_fields.specs.OctetsForm.{is_name};
ghost use Rattle.dns_fields.specs.Written.{may_point};

use super::{HasFields, Row};
use dns_name::{AppendError, Composer, LongRecordData};
use std::cmp::Ordering;
use std::hash::Hasher;

/// A value that is the last field of record data, and is written, compared and hashed as its octets.
pub trait LastValue {
    ghost kind: { Kind };

    ghost field: { Self → Field };

    /// The octets of the field.
    fn last_octets(&self) -> &[u8]
        ensures { result.now ≡ field_octets (field self.now) };

    ghost stays: { may_point kind ≡ false };

    ghost unnamed: { is_name kind ≡ false };

    ghost is_last: { (x : Self) → IsLast kind (field x) };
}

/// A row of one field, which is the last.
#[derive(Clone, Copy, Debug, Drop)]
pub struct Last<V>(pub V);

impl<V: LastValue> HasFields for Last<V> {
    ghost kinds = { V.kind ∷ [] };

    ghost fields = { λ row. V.field row.0 ∷ [] };

    fn fields_len(&self) -> Option<u16> {
        let len = self.0.last_octets().len();
        if LongRecordData::check_len(len).is_err() {
            return None;
        }
        Some(len as u16)
    }

    ghost of_kinds = { λ row i. (V.is_last row.0).kind i ∷ [] };
}

impl<V: LastValue> Row for Last<V> {
    fn may_point() -> bool {
        false
    }

    fn compose_fields<Target: Composer>(&self, target: &mut Target) -> Result<(), AppendError> {
        target.append_slice(self.0.last_octets())
    }

    fn compose_canonical_fields<Target: Composer>(
        &self,
        target: &mut Target,
    ) -> Result<(), AppendError> {
        target.append_slice(self.0.last_octets())
    }

    #[tactic(auto, unfolding(crate::specs::Alike::rows_eq))]
    fn fields_eq(&self, other: &Self) -> bool {
        self.0.last_octets() == other.0.last_octets()
    }

    #[tactic(auto, unfolding(crate::specs::Alike::rows_cmp))]
    fn fields_cmp(&self, other: &Self) -> Ordering {
        self.0.last_octets().cmp(other.0.last_octets())
    }

    #[tactic(auto, unfolding(crate::specs::Alike::canonical_rows_cmp))]
    fn canonical_fields_cmp(&self, other: &Self) -> Ordering {
        self.0.last_octets().cmp(other.0.last_octets())
    }

    fn hash_fields<H: Hasher>(&self, state: &mut H) {
        state.write(self.0.last_octets());
    }
}
