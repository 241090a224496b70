//! Data of any type, compared.
ghost use Rattle.std.specs.Prelude.{◌≡◌, IsTrue, fold};
ghost use Rattle.std.specs.Cmp.{on_equiv, on_total, partial_equiv_from_equiv, partial_order_from_total, partial_order_from_own_ties};
ghost use Rattle.std.specs.Ordering.{on, as_partial_cmp};
ghost use Rattle.std.proofs.Common.{refl};
ghost use Rattle.dns_rdata.specs.Data.{data_eq, data_cmp, data_hashed};
ghost use Rattle.dns_rdata.specs.DataLaws.{data_equivalent, data_total, data_ties, data_alike};
ghost use Rattle.dns_rdata.specs.ZoneData.{data_of};

use super::ZoneRecordData;
use super::visit::{Visit, VisitBoth};
use crate::rows::{DataType, Row};
use dns_name::{Octets, RecordData, ToName, UnknownRecordData};
use dns_rr_data::TypedData;
use std::cmp::Ordering;
use std::hash::{Hash, Hasher};

/// Of the same type, and with equal fields, or with the same octets if both are unknown.
impl<Octs: Octets, N: ToName> PartialEq for ZoneRecordData<Octs, N> {
    ghost eq = { on data_of data_eq };

    ghost laws = { partial_equiv_from_equiv (on_equiv data_of data_equivalent) };

    #[tactic(auto, using(crate::proofs::Pairs::unlike_eq))]
    fn eq(&self, other: &Self) -> bool {
        match self.visit_both::<AreEqual>(other) {
            Some(answer) => answer,
            None => false,
        }
    }
}

/// Whether two values of data of one type are equal.
pub struct AreEqual;

impl VisitBoth for AreEqual {
    type Answer = bool;

    ghost answers = { λ one two result. result ≡ data_eq one two };

    #[tactic(auto, using(crate::proofs::Pairs::same_eq))]
    fn fields<D: TypedData>(one: &D, two: &D) -> bool {
        one.typed_row().fields_eq(two.typed_row())
    }

    #[tactic(auto, using(crate::proofs::Pairs::unknown_data_eq))]
    fn unknown<Octs: Octets>(one: &UnknownRecordData<Octs>, two: &UnknownRecordData<Octs>) -> bool {
        one == two
    }
}

impl<Octs: Octets, N: ToName> Eq for ZoneRecordData<Octs, N> {
    ghost laws = { on_equiv data_of data_equivalent };
}

impl<Octs: Octets, N: ToName> PartialOrd for ZoneRecordData<Octs, N> {
    ghost partial_cmp = { as_partial_cmp (on data_of data_cmp) };

    ghost laws = { partial_order_from_own_ties (partial_order_from_total (on_total data_of data_total))
        (λ rdata other. data_ties (data_of rdata) (data_of other)) };

    fn partial_cmp(&self, other: &Self) -> Option<Ordering> {
        Some(self.cmp(other))
    }
}

/// By the number of the type, then fields before unknown data, then by what these are.
impl<Octs: Octets, N: ToName> Ord for ZoneRecordData<Octs, N> {
    ghost cmp = { on data_of data_cmp };

    ghost total = { on_total data_of data_total };

    ghost matches_partial_cmp = { λ _ _. refl };

    ghost matches_eq = { λ rdata other. data_ties (data_of rdata) (data_of other) };

    #[tactic(auto, using(crate::proofs::Pairs::unlike_cmp))]
    fn cmp(&self, other: &Self) -> Ordering {
        match self.visit_both::<InOrder>(other) {
            Some(order) => order,
            None => self
                .rtype()
                .cmp(&other.rtype())
                .then(self.is_unknown().cmp(&other.is_unknown())),
        }
    }
}

/// How two values of data of one type compare.
pub struct InOrder;

impl VisitBoth for InOrder {
    type Answer = Ordering;

    ghost answers = { λ one two result. result ≡ data_cmp one two };

    #[tactic(auto, using(crate::proofs::Pairs::same_cmp))]
    fn fields<D: TypedData>(one: &D, two: &D) -> Ordering {
        one.typed_row().fields_cmp(two.typed_row())
    }

    #[tactic(auto, using(crate::proofs::Pairs::unknown_data_cmp))]
    fn unknown<Octs: Octets>(
        one: &UnknownRecordData<Octs>,
        two: &UnknownRecordData<Octs>,
    ) -> Ordering {
        one.cmp(two)
    }
}

impl<Octs: Octets, N: ToName> Hash for ZoneRecordData<Octs, N> {
    ghost hash_input = { λ rdata. data_hashed (data_of rdata) };

    ghost respects_eq = { λ rdata other. data_alike (data_of rdata) (data_of other) };

    fn hash<H: Hasher>(&self, state: &mut H) {
        self.visit::<Hashed, H>(state)
    }
}

/// The data fed to a hasher.
pub struct Hashed;

impl<H: Hasher> Visit<H> for Hashed {
    type Answer = ();

    ghost answers = { λ old rdata _ new. new ≡ fold H.write old (data_hashed rdata) };

    fn fields<D: TypedData>(rdata: &D, state: &mut H) {
        D::Type::number().hash(state);
        rdata.typed_row().hash_fields(state);
    }

    fn unknown<Octs: Octets>(rdata: &UnknownRecordData<Octs>, state: &mut H) {
        rdata.rtype().to_int().hash(state);
        rdata.hash(state);
    }
}
