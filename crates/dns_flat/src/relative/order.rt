//! Equality, order and hash of relative names, up to ASCII case (RFC 4343).
ghost use Rattle.std.specs.Prelude.{◌∷◌, [], nat_eq};
ghost use Rattle.std.proofs.Common.{refl};
ghost use Rattle.std.specs.Cmp.{partial_equiv_from_equiv, partial_order_from_total, partial_order_from_own_ties};
ghost use Rattle.std.specs.Cmp.Lexicographic.{pointwise};
ghost use Rattle.std.specs.Ordering.{as_partial_cmp, on};
ghost use Rattle.dns_label.specs.Name.{low, labels_wire};
ghost use Rattle.dns_wire.specs.Order.{labels_order};
ghost use Rattle.dns_flat.specs.OrderLaws.{labels_equivalence, labels_ties, labels_total, relative_alike};

use super::RelativeName;
use crate::ToRelativeName;
use crate::wire_form::lowered_labels_of;
use dns_octets::Octets;
use std::cmp::Ordering;
use std::hash::{Hash, Hasher};

impl<Octs: Octets> PartialEq for RelativeName<Octs> {
    ghost eq = { on low (pointwise (pointwise nat_eq)) };

    ghost laws = { partial_equiv_from_equiv labels_equivalence };

    fn eq(&self, other: &Self) -> bool {
        self.name_eq(other)
    }
}

impl<Octs: Octets> Eq for RelativeName<Octs> {
    ghost laws = { labels_equivalence };
}

impl<Octs: Octets> PartialOrd for RelativeName<Octs> {
    ghost partial_cmp = { as_partial_cmp labels_order };

    ghost laws = { partial_order_from_own_ties (partial_order_from_total labels_total) labels_ties };

    fn partial_cmp(&self, other: &Self) -> Option<Ordering> {
        Some(self.name_cmp(other))
    }
}

impl<Octs: Octets> Ord for RelativeName<Octs> {
    ghost cmp = { labels_order };

    ghost total = { labels_total };

    ghost matches_partial_cmp = { λ _ _. refl };

    ghost matches_eq = { labels_ties };

    fn cmp(&self, other: &Self) -> Ordering {
        self.name_cmp(other)
    }
}

impl<Octs: Octets> Hash for RelativeName<Octs> {
    ghost hash_input = { λ name. labels_wire (low name) ∷ [] };

    ghost respects_eq = { relative_alike };

    fn hash<H: Hasher>(&self, state: &mut H) {
        state.write(lowered_labels_of(self).as_slice());
    }
}
