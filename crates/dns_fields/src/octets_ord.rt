//! Rows against data of the same type that is held as octets (RFC 3597): they are compared canonically, field by field.
ghost use Rattle.std.specs.Prelude.{◌≡◌, ◌++◌, IfOk, IfErr};
ghost use Rattle.std.specs.Ordering.{nat_cmp};
ghost use Rattle.std.specs.Cmp.Lexicographic.{slice_cmp};
ghost use Rattle.dns_fields.specs.Fields.{field_octets, lowered, canonical_octets};
ghost use Rattle.dns_fields.specs.Prefix.{Decides};

mod leaves;
mod names;
mod split;

use crate::{HasField, HasFields, Last, LastValue};
use dns_name::{ComposeRecordData, Octets, UnknownRecordData};
use std::cmp::Ordering;

/// A field that is compared with what octets begin with.
pub trait FieldOctetsOrd: HasField {
    /// Returns what follows the field's canonical octets, if the octets begin with these, and otherwise how they compare,
    /// whatever follows them.
    fn split_canonical_field<'a>(&self, octets: &'a [u8]) -> Result<&'a [u8], Ordering>
        ensures ok { IfOk result (λ behind. octets.now ≡ field_octets (lowered (Self.field self.now)) ++ behind.now) }
        ensures err { IfErr result (Decides (field_octets (lowered (Self.field self.now))) octets.now) };
}

/// A row that is compared with octets.
pub trait RowOctetsOrd: HasFields {
    /// Compares the row's canonical octets with the octets.
    fn canonical_fields_cmp_octets(&self, octets: &[u8]) -> Ordering
        ensures { result ≡ slice_cmp nat_cmp (canonical_octets (Self.fields self.now)) octets.now };
}

impl RowOctetsOrd for () {
    fn canonical_fields_cmp_octets(&self, octets: &[u8]) -> Ordering {
        if octets.is_empty() {
            Ordering::Equal
        } else {
            Ordering::Less
        }
    }
}

impl<A: FieldOctetsOrd, B: RowOctetsOrd> RowOctetsOrd for (A, B) {
    fn canonical_fields_cmp_octets(&self, octets: &[u8]) -> Ordering {
        let (first, others) = self;
        match first.split_canonical_field(octets) {
            Ok(behind) => others.canonical_fields_cmp_octets(behind),
            Err(order) => order,
        }
    }
}

impl<V: LastValue> RowOctetsOrd for Last<V> {
    fn canonical_fields_cmp_octets(&self, octets: &[u8]) -> Ordering {
        self.0.last_octets().cmp(octets)
    }
}

/// Data that is compared canonically with data of the same type that is held as octets (RFC 3597).
pub trait CanonicalOctetsOrd: ComposeRecordData {
    /// Compares the canonical form of the data with the octets, in the order of RFC 4034 6.3.
    fn canonical_octets_cmp(&self, octets: &[u8]) -> Ordering
        ensures { result ≡ slice_cmp nat_cmp (Self.canonical_octets self.now) octets.now };
}

/// Unknown data is its own canonical form.
impl<Octs: Octets> CanonicalOctetsOrd for UnknownRecordData<Octs> {
    fn canonical_octets_cmp(&self, octets: &[u8]) -> Ordering {
        self.data().octets().cmp(octets)
    }
}

/// Compares the canonical form of the row (RFC 4034 6.2) with the octets, in the order of RFC 4034 6.3.
pub fn canonical_row_cmp_octets<R: RowOctetsOrd>(row: &R, octets: &[u8]) -> Ordering
    ensures { result ≡ slice_cmp nat_cmp (canonical_octets (R.fields row.now)) octets.now }
{
    row.canonical_fields_cmp_octets(octets)
}
