//! Equality, order and the hash of record headers.
ghost use Rattle.std.proofs.Common.{refl};
ghost use Rattle.std.specs.Cmp.{on_equiv, on_total, partial_equiv_from_equiv, partial_order_from_total, partial_order_from_own_ties};
ghost use Rattle.std.specs.Ordering.{as_partial_cmp, on};
ghost use Rattle.dns_header.specs.Head.{labelled};
ghost use Rattle.dns_header.specs.HeadLaws.{heads_alike, heads_equivalence, heads_ties, heads_total};
ghost use Rattle.dns_header.specs.HeadOrder.{heads_eq, heads_cmp, head_keys};

use super::RecordHeader;
use crate::question::same_names;
use dns_name::ToName;
use std::cmp::Ordering;
use std::hash::{Hash, Hasher};

/// All fields, owners compared up to ASCII case (RFC 4343).
impl<N: ToName> PartialEq for RecordHeader<N> {
    ghost eq = { on (labelled N.name) heads_eq };

    ghost laws = { partial_equiv_from_equiv (on_equiv (labelled N.name) heads_equivalence) };

    fn eq(&self, other: &Self) -> bool {
        let last = self.ttl == other.ttl && self.rdlen == other.rdlen;
        let behind = self.rtype == other.rtype && (self.class == other.class && last);
        same_names(&self.owner, &other.owner) && behind
    }
}

impl<N: ToName> Eq for RecordHeader<N> {
    ghost laws = { on_equiv (labelled N.name) heads_equivalence };
}

impl<N: ToName> PartialOrd for RecordHeader<N> {
    ghost partial_cmp = { as_partial_cmp (on (labelled N.name) heads_cmp) };

    ghost laws = { partial_order_from_own_ties (partial_order_from_total (on_total (labelled N.name) heads_total))
        (λ header other. heads_ties (labelled N.name header) (labelled N.name other)) };

    fn partial_cmp(&self, other: &Self) -> Option<Ordering> {
        Some(self.cmp(other))
    }
}

/// By owner, type, class, TTL and data length.
impl<N: ToName> Ord for RecordHeader<N> {
    ghost cmp = { on (labelled N.name) heads_cmp };

    ghost total = { on_total (labelled N.name) heads_total };

    ghost matches_partial_cmp = { λ _ _. refl };

    ghost matches_eq = { λ header other. heads_ties (labelled N.name header) (labelled N.name other) };

    fn cmp(&self, other: &Self) -> Ordering {
        let last = self.ttl.cmp(&other.ttl).then(self.rdlen.cmp(&other.rdlen));
        let behind = self
            .rtype
            .cmp(&other.rtype)
            .then(self.class.cmp(&other.class).then(last));
        self.owner.name_cmp(&other.owner).then(behind)
    }
}

impl<N: ToName> Hash for RecordHeader<N> {
    ghost hash_input = { λ header. head_keys (labelled N.name header) };

    ghost respects_eq = { λ header other. heads_alike (labelled N.name header) (labelled N.name other) };

    fn hash<H: Hasher>(&self, state: &mut H) {
        self.owner.name_hash(state);
        state.write(&self.fixed());
    }
}
