//! Equality, orders and the hash of records.
ghost use Rattle.std.proofs.Common.{refl};
ghost use Rattle.std.specs.Cmp.{partial_order_from_total, partial_order_from_own_ties};
ghost use Rattle.std.specs.Ordering.{as_partial_cmp};
ghost use Rattle.dns_header.specs.RecordOrder.{records_eq, records_cmp, canonical_records_cmp};
ghost use Rattle.dns_header.specs.RecordLaws.{records_partly_equivalent, records_equivalent, records_total, records_ties, records_alike};
ghost use Rattle.dns_header.specs.RecordParts.{record_keys};

use super::Record;
use crate::question::same_names;
use dns_name::{CanonicalOrd, RecordData, ToName};
use std::cmp::Ordering;
use std::hash::{Hash, Hasher};

/// Equal owners up to ASCII case (RFC 4343), class and data. The TTL does not count (RFC 2136 1.1.1).
impl<N: ToName, Data: PartialEq> PartialEq for Record<N, Data> {
    ghost eq = { records_eq N.name Data.eq };

    ghost laws = { records_partly_equivalent N.name Data.laws };

    #[tactic(auto, unfolding(crate::specs::RecordOrder::records_eq))]
    fn eq(&self, other: &Self) -> bool {
        let behind = self.class == other.class && self.data == other.data;
        same_names(&self.owner, &other.owner) && behind
    }
}

impl<N: ToName, Data: Eq> Eq for Record<N, Data> {
    ghost laws = { records_equivalent N.name Data.Eq.laws };
}

impl<N: ToName, Data: Ord> PartialOrd for Record<N, Data> {
    ghost partial_cmp = { as_partial_cmp (records_cmp N.name Data.cmp) };

    ghost laws = { partial_order_from_own_ties (partial_order_from_total (records_total N.name Data.total))
        (records_ties N.name Data.eq Data.cmp Data.matches_eq) };

    fn partial_cmp(&self, other: &Self) -> Option<Ordering> {
        Some(self.cmp(other))
    }
}

/// By owner, class and data.
impl<N: ToName, Data: Ord> Ord for Record<N, Data> {
    ghost cmp = { records_cmp N.name Data.cmp };

    ghost total = { records_total N.name Data.total };

    ghost matches_partial_cmp = { λ _ _. refl };

    ghost matches_eq = { records_ties N.name Data.eq Data.cmp Data.matches_eq };

    #[tactic(auto, unfolding(crate::specs::RecordOrder::records_cmp))]
    fn cmp(&self, other: &Self) -> Ordering {
        let behind = self
            .class
            .cmp(&other.class)
            .then(self.data.cmp(&other.data));
        self.owner.name_cmp(&other.owner).then(behind)
    }
}

/// By class, owner, type and data (RFC 4034 6).
impl<N: ToName, Data: RecordData + CanonicalOrd> CanonicalOrd for Record<N, Data> {
    ghost canonical = { canonical_records_cmp N.name Data.rtype Data.canonical };

    #[tactic(auto, unfolding(crate::specs::RecordOrder::canonical_records_cmp))]
    fn canonical_cmp(&self, other: &Self) -> Ordering {
        let rdata = self.data.canonical_cmp(&other.data);
        let behind = self.data.rtype().cmp(&other.data.rtype()).then(rdata);
        self.class
            .cmp(&other.class)
            .then(self.owner.name_cmp(&other.owner).then(behind))
    }
}

/// Hashes the owner in lower case, the class and the data. The TTL does not count.
impl<N: ToName, Data: Hash> Hash for Record<N, Data> {
    ghost hash_input = { record_keys N.name Data.hash_input };

    ghost respects_eq = { records_alike N.name Data.eq Data.hash_input Data.respects_eq };

    fn hash<H: Hasher>(&self, state: &mut H) {
        self.owner.name_hash(state);
        state.write(&self.class.to_int().to_be_bytes());
        self.data.hash(state);
    }
}
