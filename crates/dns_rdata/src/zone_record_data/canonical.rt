//! Data of any type, compared canonically.
ghost use Rattle.std.specs.Prelude.{◌≡◌};
ghost use Rattle.std.specs.Cmp.Lexicographic.{slice_cmp};
ghost use Rattle.std.specs.Ordering.{on, nat_cmp};
ghost use Rattle.dns_rdata.specs.Data.{number_of, canonical_of, canonical_data_cmp};
ghost use Rattle.dns_rdata.specs.ZoneData.{data_of};

use super::ZoneRecordData;
use super::visit::{Visit, VisitBoth};
use crate::rows::{Row, canonical_row_cmp_octets};
use dns_fields::CanonicalOctetsOrd;
use dns_name::{CanonicalOrd, Octets, RecordData, ToName, UnknownRecordData};
use dns_rr_data::TypedData;
use std::cmp::Ordering;

/// By the number of the type, and then by the canonical octets, whether the data is unknown or not (RFC 4034 6.3).
impl<Octs: Octets, N: ToName> CanonicalOrd for ZoneRecordData<Octs, N> {
    ghost canonical = { on data_of canonical_data_cmp };

    #[tactic(auto, unfolding(crate::specs::Data::canonical_data_cmp))]
    fn canonical_cmp(&self, other: &Self) -> Ordering {
        match self.rtype().cmp(&other.rtype()) {
            Ordering::Equal => self.canonical_cmp_within(other),
            unequal => unequal,
        }
    }
}

impl<Octs: Octets, N: ToName> ZoneRecordData<Octs, N> {
    /// Compares data with other data of the same type.
    #[tactic(auto, using(crate::proofs::Pairs::turned))]
    fn canonical_cmp_within(&self, other: &Self) -> Ordering
        requires { number_of (data_of self.now) ≡ number_of (data_of other.now) }
        ensures { result ≡ slice_cmp nat_cmp (canonical_of (data_of self.now)) (canonical_of (data_of other.now)) }
    {
        if let Some(two) = other.as_unknown() {
            return self.canonical_octets_cmp(two.data().octets());
        }
        if let Some(one) = self.as_unknown() {
            return other.canonical_octets_cmp(one.data().octets()).reverse();
        }
        match self.visit_both::<InCanonicalOrder>(other) {
            Some(order) => order,
            None => unreachable!(),
        }
    }
}

/// How two values of data of one type compare canonically.
pub struct InCanonicalOrder;

impl VisitBoth for InCanonicalOrder {
    type Answer = Ordering;

    ghost answers = { λ one two result. result ≡ slice_cmp nat_cmp (canonical_of one) (canonical_of two) };

    #[tactic(auto, unfolding(dns_fields::specs::Alike::canonical_rows_cmp))]
    fn fields<D: TypedData>(one: &D, two: &D) -> Ordering {
        one.typed_row().canonical_fields_cmp(two.typed_row())
    }

    fn unknown<Octs: Octets>(
        one: &UnknownRecordData<Octs>,
        two: &UnknownRecordData<Octs>,
    ) -> Ordering {
        one.canonical_octets_cmp(two.data().octets())
    }
}

/// The same order, against data that is held as octets.
impl<Octs: Octets, N: ToName> CanonicalOctetsOrd for ZoneRecordData<Octs, N> {
    fn canonical_octets_cmp(&self, octets: &[u8]) -> Ordering {
        let mut octets = octets;
        self.visit::<AgainstOctets, &[u8]>(&mut octets)
    }
}

/// How the canonical form of the data compares with octets.
pub struct AgainstOctets;

impl<'a> Visit<&'a [u8]> for AgainstOctets {
    type Answer = Ordering;

    ghost answers = { λ octets rdata result _. result ≡ slice_cmp nat_cmp (canonical_of rdata) octets.now };

    fn fields<D: TypedData>(rdata: &D, octets: &mut &'a [u8]) -> Ordering {
        canonical_row_cmp_octets(rdata.typed_row(), octets)
    }

    fn unknown<Octs: Octets>(rdata: &UnknownRecordData<Octs>, octets: &mut &'a [u8]) -> Ordering {
        rdata.canonical_octets_cmp(octets)
    }
}
