//! Entries to sort in place of records.
ghost use Rattle.std.specs.Prelude.{◌≡◌, ◌++◌, OnOk};
ghost use Rattle.std.proofs.Common.{refl};
ghost use Rattle.std.specs.Cmp.{partial_equiv_from_equiv, partial_order_from_total, partial_order_from_own_ties, eq_by_cmp_equiv};
ghost use Rattle.std.specs.Ordering.{as_partial_cmp, eq_by_cmp};
ghost use Rattle.zone_records.specs.MessageRecord.{IsRecord};
ghost use Rattle.zone_canonical.specs.Canonical.{HasCanonicalForm, canonical_cmp};
ghost use Rattle.zone_canonical.specs.Form.{form_of};
ghost use Rattle.zone_canonical.specs.Keyed.{form_octets, keyed_cmp, keyed_total, with_key};

use crate::form::{append_form, cmp_forms};
use std::alloc::AllocError;
use std::cmp::Ordering;
use std::marker::Model;
use zone_records::record::Record;

/// A stored record, viewed in canonical form (RFC 4034 6.2), with a key. Entries are compared by key first, so most
/// comparisons do not read the records.
#[derive(Drop)]
pub(crate) struct Entry<'a> {
    key: u128,
    octets: &'a [u8],
}

impl<'a> Model for Entry<'a> {
    ghost use Rattle.std.specs.Prelude.{length};
    ghost use Rattle.dns_label.specs.Name.{wire};
    ghost use Rattle.zone_records.specs.Stored.{IsStored, record_in};
    ghost use Rattle.zone_canonical.specs.Canonical.{HasCanonicalForm};
    ghost use Rattle.zone_canonical.specs.Form.{form_of};
    ghost use Rattle.zone_canonical.specs.Keyed.{Keyed};

    ghost Value = { Keyed };

    ghost view = { λ e. record { key = e.key; form = form_of (record_in e.octets.now) } };

    ghost invariant = { λ e. IsStored e.octets.now (length (wire (record_in e.octets.now).owner))
        × HasCanonicalForm (record_in e.octets.now) };
}

impl<'a> Entry<'a> {
    /// Returns the entry of a record with a key.
    pub(crate) fn new(key: u128, source: &Record<'a>) -> Entry<'a>
        requires { HasCanonicalForm source.now }
        ensures { result ≡ with_key key (form_of source.now) }
    {
        Entry {
            key,
            octets: source.as_octets(),
        }
    }

    /// Returns the key.
    #[inline(always)]
    pub(crate) fn key(&self) -> u128
        ensures { result ≡ self.now.key }
    {
        self.key
    }

    /// Returns the stored record.
    fn stored(&self) -> Record<'a>
        ensures form { form_of result ≡ self.now.form }
        ensures has { HasCanonicalForm result }
    {
        Record::from_octets(self.octets)
    }

    /// Compares the records in canonical form. Few comparisons come to this, so it is not inlined.
    #[inline(never)]
    fn cmp_forms(&self, other: &Entry<'_>) -> Ordering
        ensures { result ≡ canonical_cmp self.now.form other.now.form }
    {
        cmp_forms(&self.stored(), &other.stored())
    }

    /// Returns the length of the record in octets.
    pub(crate) fn len(&self) -> usize {
        self.octets.len()
    }

    /// Appends the octets of the record in canonical form. Fails if out of memory.
    pub(crate) fn append_to(&self, octets: &mut Vec<u8>) -> Result<(), AllocError>
        ensures octets { OnOk result (octets.new.items ≡ octets.old.items ++ form_octets self.now) }
        ensures known { IsRecord self.now.form }
    {
        append_form(&self.stored(), octets)
    }
}

impl<'a> PartialEq for Entry<'a> {
    ghost eq = { eq_by_cmp keyed_cmp };

    ghost laws = { partial_equiv_from_equiv (eq_by_cmp_equiv keyed_total) };

    #[inline(always)]
    fn eq(&self, other: &Self) -> bool {
        self.key == other.key && self.cmp_forms(other).is_eq()
    }
}

impl<'a> Eq for Entry<'a> {
    ghost laws = { eq_by_cmp_equiv keyed_total };
}

impl<'a> PartialOrd for Entry<'a> {
    ghost partial_cmp = { as_partial_cmp keyed_cmp };

    ghost laws = { partial_order_from_own_ties (partial_order_from_total keyed_total) (λ _ _. refl) };

    #[inline(always)]
    fn partial_cmp(&self, other: &Self) -> Option<Ordering> {
        Some(self.cmp(other))
    }
}

/// By key, then by canonical form.
impl<'a> Ord for Entry<'a> {
    ghost cmp = { keyed_cmp };

    ghost total = { keyed_total };

    ghost matches_partial_cmp = { λ _ _. refl };

    ghost matches_eq = { λ _ _. refl };

    #[inline(always)]
    fn cmp(&self, other: &Self) -> Ordering {
        match self.key.cmp(&other.key) {
            Ordering::Equal => self.cmp_forms(other),
            unequal => unequal,
        }
    }
}
