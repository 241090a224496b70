//! Rows of fields: the empty one, and a field before a row.
ghost use Rattle.std.specs.Prelude.{◌≡◌, ◌≤◌, ◌<◌, ◌++◌, ◌∷◌, [], ℕ, List, Err, length, map, fold, OnOk, IfSome, IfNone};
ghost use Rattle.std.specs.List.{list_any};
ghost use Rattle.std.specs.Ordering.{nat_cmp};
ghost use Rattle.std.proofs.Common.{refl};
ghost use Rattle.dns_octets.specs.Builder.{GrowsTo, IsPast};
ghost use Rattle.dns_octets.specs.declared.error.AppendError.TheVariants.{ShortBuf, BadLength};
ghost use Rattle.dns_name.specs.Page.{write};
ghost use Rattle.dns_name.specs.RecordData.{page_of};
ghost use Rattle.dns_fields.specs.Fields.{Kind, Field, kind_of, octets, canonical_octets};
ghost use Rattle.dns_fields.specs.Alike.{keys, rows_eq, rows_cmp, canonical_rows_cmp};
ghost use Rattle.dns_fields.specs.Written.{may_point, written_parts};

mod last;
mod rests;
mod strings;

use crate::{FieldValue, HasField};
use dns_name::{AppendError, Composer, LongRecordData};
pub use last::{Last, LastValue};
pub use rests::{Rest16, Rest64, RestText};
use std::cmp::Ordering;
use std::hash::Hasher;
pub use strings::{Strings, StringsIter};

/// The fields of record data, of fixed kinds: a pair of the first field and the others, or `()` if there are none. All that
/// their parsing, scanning, printing and conversion say of them.
pub trait HasFields {
    ghost kinds: { List Kind };

    ghost fields: { Self → List Field };

    /// Returns the number of octets that the fields have without pointers, or None if there are more than 65,535.
    fn fields_len(&self) -> Option<u16>
        ensures some { IfSome result (λ len. len ≡ length (octets (fields self.now))) }
        ensures none { IfNone result (65535 < length (octets (fields self.now))) };

    ghost of_kinds: { (x : Self) → map kind_of (fields x) ≡ kinds };
}

/// A row of fields that is written, compared and hashed.
pub trait Row: HasFields {
    /// Whether a field may be written with a pointer (RFC 3597 4).
    fn may_point() -> bool
        ensures { result ≡ list_any may_point Self.kinds };

    /// Appends the fields, or some of them on an error. Fails with `ShortBuf` only if the target is too full, and with
    /// `OutOfMemory` only if out of memory.
    fn compose_fields<Target: Composer>(&self, target: &mut Target) -> Result<(), AppendError>
        ensures ok { OnOk result (page_of (Target.list target.new) (Target.known target.new)
            ≡ write Target.spelling (page_of (Target.list target.old) (Target.known target.old))
            (written_parts (Self.fields self.now))) }
        ensures grows { GrowsTo (Target.list target.old) (Target.known target.old) (Target.list target.new)
            (Target.known target.new) }
        ensures short { result ≡ Err ShortBuf → IsPast (Target.bound target.old)
            (length (write Target.spelling (page_of (Target.list target.old) (Target.known target.old))
            (written_parts (Self.fields self.now))).octets) }
        ensures not_bad { result ≡ Err BadLength → ⊥ }
        ensures same_bound { Target.bound target.new ≡ Target.bound target.old }
        ensures stays { Target.stays target.old target.new };

    /// Appends the canonical form of the fields. Fails as `compose_fields` does.
    fn compose_canonical_fields<Target: Composer>(
        &self,
        target: &mut Target,
    ) -> Result<(), AppendError>
        ensures ok { OnOk result (Target.list target.new
            ≡ Target.list target.old ++ canonical_octets (Self.fields self.now)) }
        ensures known { Target.known target.new ≡ Target.known target.old }
        ensures grows { GrowsTo (Target.list target.old) (Target.known target.old) (Target.list target.new)
            (Target.known target.new) }
        ensures short { result ≡ Err ShortBuf → IsPast (Target.bound target.old)
            (length (Target.list target.old ++ canonical_octets (Self.fields self.now))) }
        ensures not_bad { result ≡ Err BadLength → ⊥ }
        ensures same_bound { Target.bound target.new ≡ Target.bound target.old }
        ensures stays { Target.stays target.old target.new };

    /// Whether two rows are equal, up to ASCII case where it doesn't count.
    fn fields_eq(&self, other: &Self) -> bool
        ensures { result ≡ rows_eq (Self.fields self.now) (Self.fields other.now) };

    /// Compares two rows field by field, up to ASCII case where it doesn't count.
    fn fields_cmp(&self, other: &Self) -> Ordering
        ensures { result ≡ rows_cmp (Self.fields self.now) (Self.fields other.now) };

    /// Compares the canonical octets of two rows.
    fn canonical_fields_cmp(&self, other: &Self) -> Ordering
        ensures { result ≡ canonical_rows_cmp (Self.fields self.now) (Self.fields other.now) };

    /// Hashes the fields, up to ASCII case where it doesn't count.
    fn hash_fields<H: Hasher>(&self, state: &mut H)
        ensures { state.new ≡ fold H.write state.old (keys (Self.fields self.now)) };
}

/// No fields.
impl HasFields for () {
    ghost kinds = { [] };

    ghost fields = { λ _. [] };

    fn fields_len(&self) -> Option<u16> {
        Some(0)
    }

    ghost of_kinds = { λ _. refl };
}

impl Row for () {
    fn may_point() -> bool {
        false
    }

    fn compose_fields<Target: Composer>(&self, target: &mut Target) -> Result<(), AppendError> {
        Ok(())
    }

    fn compose_canonical_fields<Target: Composer>(
        &self,
        target: &mut Target,
    ) -> Result<(), AppendError> {
        Ok(())
    }

    #[tactic(auto, unfolding(crate::specs::Alike::rows_eq))]
    fn fields_eq(&self, other: &Self) -> bool {
        true
    }

    #[tactic(auto, unfolding(crate::specs::Alike::rows_cmp))]
    fn fields_cmp(&self, other: &Self) -> Ordering {
        Ordering::Equal
    }

    #[tactic(auto, unfolding(crate::specs::Alike::canonical_rows_cmp))]
    fn canonical_fields_cmp(&self, other: &Self) -> Ordering {
        Ordering::Equal
    }

    fn hash_fields<H: Hasher>(&self, state: &mut H) {}
}

/// A field before others.
impl<A: HasField, B: HasFields> HasFields for (A, B) {
    ghost kinds = { A.kind ∷ B.kinds };

    ghost fields = { λ row. A.field row.0 ∷ B.fields row.1 };

    fn fields_len(&self) -> Option<u16> {
        let (first, others) = self;
        let len = first.field_len();
        let behind = usize::from(others.fields_len()?);
        if LongRecordData::check_append_len(len, behind).is_err() {
            return None;
        }
        Some((len + behind) as u16)
    }

    ghost of_kinds = { λ row i. A.of_kind row.0 i ∷ B.of_kinds row.1 i };
}

impl<A: FieldValue, B: Row> Row for (A, B) {
    fn may_point() -> bool {
        A::may_point() || B::may_point()
    }

    fn compose_fields<Target: Composer>(&self, target: &mut Target) -> Result<(), AppendError> {
        let (first, others) = self;
        first.compose_field(target)?;
        others.compose_fields(target)
    }

    fn compose_canonical_fields<Target: Composer>(
        &self,
        target: &mut Target,
    ) -> Result<(), AppendError> {
        let (first, others) = self;
        first.compose_canonical_field(target)?;
        others.compose_canonical_fields(target)
    }

    #[tactic(auto, unfolding(crate::specs::Alike::rows_eq))]
    fn fields_eq(&self, other: &Self) -> bool {
        self.0.field_eq(&other.0) && self.1.fields_eq(&other.1)
    }

    #[tactic(auto, unfolding(crate::specs::Alike::rows_cmp))]
    fn fields_cmp(&self, other: &Self) -> Ordering {
        match self.0.field_cmp(&other.0) {
            Ordering::Equal => self.1.fields_cmp(&other.1),
            unequal => unequal,
        }
    }

    #[tactic(auto, unfolding(crate::specs::Alike::canonical_rows_cmp))]
    fn canonical_fields_cmp(&self, other: &Self) -> Ordering {
        match self.0.canonical_field_cmp(&other.0) {
            Ordering::Equal => self.1.canonical_fields_cmp(&other.1),
            unequal => unequal,
        }
    }

    fn hash_fields<H: Hasher>(&self, state: &mut H) {
        let (first, others) = self;
        first.hash_field(state);
        others.hash_fields(state);
    }
}
