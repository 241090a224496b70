//! Fields of record data.
ghost use Rattle.std.specs.Prelude.{◌≡◌, ◌++◌, ℕ, List, Err, length, fold, OnOk};
ghost use Rattle.std.specs.Ordering.{ordering_then, nat_cmp};
ghost use Rattle.std.specs.Prelude.{nat_eq};
ghost use Rattle.std.specs.Cmp.Lexicographic.{pointwise, slice_cmp};
ghost use Rattle.dns_octets.specs.Builder.{GrowsTo, IsPast};
ghost use Rattle.dns_octets.specs.declared.error.AppendError.TheVariants.{ShortBuf, BadLength};
ghost use Rattle.dns_name.specs.Page.{write};
ghost use Rattle.dns_name.specs.Page.Parts.{End};
ghost use Rattle.dns_name.specs.RecordData.{page_of};
ghost use Rattle.dns_fields.specs.Fields.{Kind, Field, kind_of, field_octets, lowered};
ghost use Rattle.dns_fields.specs.Alike.{folded};
ghost use Rattle.dns_fields.specs.Written.{may_point, written_field};

mod addresses;
mod names;
mod numbers;
mod strings;

use dns_name::{AppendError, Composer};
pub use names::{Compressible, Uncompressed};
use std::cmp::Ordering;
use std::hash::Hasher;
pub use strings::Tag;

/// A value that is a field of record data, of one kind. All that its parsing, scanning, printing and conversion say of it.
pub trait HasField {
    ghost kind: { Kind };

    ghost field: { Self → Field };

    /// Returns the number of octets that the field has without pointers.
    fn field_len(&self) -> usize
        ensures { result ≡ length (field_octets (field self.now)) };

    ghost of_kind: { (x : Self) → kind_of (field x) ≡ kind };
}

/// A field that is written, compared and hashed.
pub trait FieldValue: HasField {
    /// Whether fields of this kind may be written with a pointer (RFC 3597 4).
    fn may_point() -> bool
        ensures { result ≡ may_point Self.kind };

    /// Appends the field, or a part of it on an error. Fails with `ShortBuf` only if the target is too full, and with
    /// `OutOfMemory` only if out of memory.
    fn compose_field<Target: Composer>(&self, target: &mut Target) -> Result<(), AppendError>
        ensures ok { OnOk result (page_of (Target.list target.new) (Target.known target.new)
            ≡ write Target.spelling (page_of (Target.list target.old) (Target.known target.old))
            (written_field (Self.field self.now) End)) }
        ensures grows { GrowsTo (Target.list target.old) (Target.known target.old) (Target.list target.new)
            (Target.known target.new) }
        ensures short { result ≡ Err ShortBuf → IsPast (Target.bound target.old)
            (length (write Target.spelling (page_of (Target.list target.old) (Target.known target.old))
            (written_field (Self.field self.now) End)).octets) }
        ensures not_bad { result ≡ Err BadLength → ⊥ }
        ensures same_bound { Target.bound target.new ≡ Target.bound target.old }
        ensures stays { Target.stays target.old target.new };

    /// Appends the canonical form of the field. Fails as `compose_field` does.
    fn compose_canonical_field<Target: Composer>(
        &self,
        target: &mut Target,
    ) -> Result<(), AppendError>
        ensures ok { OnOk result (Target.list target.new
            ≡ Target.list target.old ++ field_octets (lowered (Self.field self.now))) }
        ensures known { Target.known target.new ≡ Target.known target.old }
        ensures grows { GrowsTo (Target.list target.old) (Target.known target.old) (Target.list target.new)
            (Target.known target.new) }
        ensures short { result ≡ Err ShortBuf → IsPast (Target.bound target.old)
            (length (Target.list target.old ++ field_octets (lowered (Self.field self.now)))) }
        ensures not_bad { result ≡ Err BadLength → ⊥ }
        ensures same_bound { Target.bound target.new ≡ Target.bound target.old }
        ensures stays { Target.stays target.old target.new };

    /// Whether two fields are equal, up to ASCII case where it doesn't count.
    fn field_eq(&self, other: &Self) -> bool
        ensures { result ≡ pointwise nat_eq (field_octets (folded (Self.field self.now)))
            (field_octets (folded (Self.field other.now))) };

    /// Compares the field with another one, up to ASCII case where it doesn't count.
    fn field_cmp(&self, other: &Self) -> Ordering
        ensures { result ≡ slice_cmp nat_cmp (field_octets (folded (Self.field self.now)))
            (field_octets (folded (Self.field other.now))) };

    /// Compares the canonical octets of two fields. Unless they are the same, they decide, whatever follows either.
    fn canonical_field_cmp(&self, other: &Self) -> Ordering
        ensures { (behind beyond : List ℕ) → slice_cmp nat_cmp (field_octets (lowered (Self.field self.now)) ++ behind)
            (field_octets (lowered (Self.field other.now)) ++ beyond)
            ≡ ordering_then result (slice_cmp nat_cmp behind beyond) };

    /// Hashes the field, up to ASCII case where it doesn't count.
    fn hash_field<H: Hasher>(&self, state: &mut H)
        ensures { state.new ≡ H.write state.old (field_octets (folded (Self.field self.now))) };
}
