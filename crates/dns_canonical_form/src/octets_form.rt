//! Rows as octets, every name in full: put in canonical form and compared where they are, without parsing (RFC 4034 6.2,
//! 6.3).
ghost use Rattle.std.specs.Prelude.{◌≡◌, ◌∷◌, [], ℕ, List, Some, false};
ghost use Rattle.std.proofs.Common.{refl};
ghost use Rattle.std.specs.Cmp.Lexicographic.{slice_cmp};
ghost use Rattle.std.specs.Ordering.{nat_cmp};
ghost use Rattle.dns_fields.specs.Fields.{Kind, Field, kinds_of, canonical_octets};
ghost use Rattle.dns_fields.specs.OctetsForm.{AreFields, IsCanonicalData, StartsWithField, form_of_kind, is_last, is_name, len_in};

mod leaves;
mod names;

use dns_fields::{Last, LastValue};
use dns_name::Rtype;
use names::cmp_lower;
use std::cmp::Ordering;

/// A field that is found in octets.
pub trait FieldOctetsForm {
    ghost kind: { Kind };

    /// Returns whether the field is a name.
    fn is_name() -> bool
        ensures { result ≡ is_name kind };

    /// Returns the length of the field that the octets begin with, or any number if they begin with none.
    fn len_in(octets: &[u8]) -> usize
        ensures { (field : Field) (rest : List ℕ) → StartsWithField octets.now kind field rest → result ≡ len_in kind octets.now };

    ghost ends: { is_last kind ≡ false };
}

/// Fields one after another that are found in octets.
pub trait RowOctetsForm {
    ghost kinds: { List Kind };

    /// Puts the names of the row in lower case. Octets that are no such row become others of the same length.
    fn make_octets_canonical(octets: &mut [u8])
        ensures { (row : List Field) → AreFields octets.old kinds row → octets.new ≡ canonical_octets row };

    /// Compares two rows in canonical form. The order of octets that are no such rows means nothing.
    fn canonical_octets_cmp(octets: &[u8], others: &[u8]) -> Ordering
        ensures { (row other : List Field) → AreFields octets.now kinds row → AreFields others.now kinds other
            → result ≡ slice_cmp nat_cmp (canonical_octets row) (canonical_octets other) };
}

impl RowOctetsForm for () {
    ghost kinds = { [] };

    fn make_octets_canonical(octets: &mut [u8]) {}

    fn canonical_octets_cmp(octets: &[u8], others: &[u8]) -> Ordering {
        octets.cmp(others)
    }
}

impl<A: FieldOctetsForm, B: RowOctetsForm> RowOctetsForm for (A, B) {
    ghost kinds = { A.kind ∷ B.kinds };

    fn make_octets_canonical(octets: &mut [u8]) {
        let (first, behind) = octets.split_at_mut(A::len_in(octets).min(octets.len()));
        make_field_canonical::<A>(first);
        B::make_octets_canonical(behind);
    }

    fn canonical_octets_cmp(octets: &[u8], others: &[u8]) -> Ordering {
        let (first, behind) = octets.split_at(A::len_in(octets).min(octets.len()));
        let (other, beyond) = others.split_at(A::len_in(others).min(others.len()));
        match canonical_field_cmp::<A>(first, other) {
            Ordering::Equal => B::canonical_octets_cmp(behind, beyond),
            unequal => unequal,
        }
    }
}

impl<V: LastValue> RowOctetsForm for Last<V> {
    ghost kinds = { V.kind ∷ [] };

    fn make_octets_canonical(octets: &mut [u8]) {}

    fn canonical_octets_cmp(octets: &[u8], others: &[u8]) -> Ordering {
        octets.cmp(others)
    }
}

/// Puts the octets of a field in lower case if it is a name.
fn make_field_canonical<A: FieldOctetsForm>(octets: &mut [u8])
    ensures { octets.new ≡ form_of_kind A.kind octets.old }
{
    if A::is_name() {
        octets.make_ascii_lowercase();
    }
}

/// Compares the octets of two fields, in lower case if they are names.
fn canonical_field_cmp<A: FieldOctetsForm>(octets: &[u8], others: &[u8]) -> Ordering
    ensures { result ≡ slice_cmp nat_cmp (form_of_kind A.kind octets.now) (form_of_kind A.kind others.now) }
{
    if A::is_name() {
        cmp_lower(octets, others)
    } else {
        octets.cmp(others)
    }
}

/// Puts data of a type with this row in canonical form (RFC 4034 6.2).
pub fn make_canonical_row<R: RowOctetsForm>(rtype: Rtype, octets: &mut [u8])
    requires { kinds_of rtype ≡ Some R.kinds }
    ensures { (canonical : List ℕ) → IsCanonicalData rtype octets.old canonical → octets.new ≡ canonical }
{
    R::make_octets_canonical(octets);
}

/// Compares data of a type with this row in canonical form, by its octets (RFC 4034 6.3).
pub fn canonical_rows_cmp<R: RowOctetsForm>(rtype: Rtype, octets: &[u8], others: &[u8]) -> Ordering
    requires { kinds_of rtype ≡ Some R.kinds }
    ensures { (canonical other : List ℕ) → IsCanonicalData rtype octets.now canonical → IsCanonicalData rtype others.now other
        → result ≡ slice_cmp nat_cmp canonical other }
{
    R::canonical_octets_cmp(octets, others)
}
