//! The canonical order of names, and their hash (RFC 4034 6.1, RFC 4343).
ghost use Rattle.std.specs.Prelude.{◌∷◌, []};
ghost use Rattle.std.specs.Cmp.{partial_order_from_total, partial_order_from_own_ties};
ghost use Rattle.std.specs.Ordering.{as_partial_cmp};
ghost use Rattle.std.proofs.Common.{refl};
ghost use Rattle.dns_label.specs.Name.{low, wire};
ghost use Rattle.dns_wire.specs.Order.{labels_order};
ghost use Rattle.dns_flat.specs.OrderLaws.{labels_total, labels_ties, labels_alike};

use super::Name;
use crate::ToName;
use crate::wire_form::lowered_wire_of;
use dns_octets::Octets;
use dns_values::CanonicalOrd;
use std::cmp::Ordering;
use std::hash::{Hash, Hasher};

impl<Octs: Octets> PartialOrd for Name<Octs> {
    ghost partial_cmp = { as_partial_cmp labels_order };

    ghost laws = { partial_order_from_own_ties (partial_order_from_total labels_total) labels_ties };

    fn partial_cmp(&self, other: &Self) -> Option<Ordering> {
        Some(self.name_cmp(other))
    }
}

impl<Octs: Octets> Ord for Name<Octs> {
    ghost cmp = { labels_order };

    ghost total = { labels_total };

    ghost matches_partial_cmp = { λ _ _. refl };

    ghost matches_eq = { labels_ties };

    fn cmp(&self, other: &Self) -> Ordering {
        self.name_cmp(other)
    }
}

impl<Octs: Octets> CanonicalOrd for Name<Octs> {
    ghost canonical = { labels_order };

    fn canonical_cmp(&self, other: &Self) -> Ordering {
        self.cmp(other)
    }
}

impl<Octs: Octets> Hash for Name<Octs> {
    ghost hash_input = { λ name. wire (low name) ∷ [] };

    ghost respects_eq = { labels_alike };

    fn hash<H: Hasher>(&self, state: &mut H) {
        state.write(lowered_wire_of(self).as_slice());
    }
}
