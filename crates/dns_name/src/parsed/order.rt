//! Equality, the canonical order and the hash of names in messages (RFC 4034 6.1, RFC 4343): those of flat names.
ghost use Rattle.std.specs.Prelude.{◌∷◌, [], nat_eq};
ghost use Rattle.std.proofs.Common.{refl};
ghost use Rattle.std.specs.Cmp.{on_equiv, on_total, partial_equiv_from_equiv, partial_order_from_total, partial_order_from_own_ties};
ghost use Rattle.std.specs.Cmp.Lexicographic.{pointwise};
ghost use Rattle.std.specs.Ordering.{as_partial_cmp, on};
ghost use Rattle.dns_label.specs.Name.{low, wire};
ghost use Rattle.dns_wire.specs.Order.{labels_order};
ghost use Rattle.dns_flat.specs.OrderLaws.{labels_alike, labels_equivalence, labels_ties, labels_total};

use super::ParsedName;
use dns_flat::ToName;
use dns_flat::wire_form::lowered_wire_of;
use dns_octets::Octets;
use std::cmp::Ordering;
use std::hash::{Hash, Hasher};

impl<Octs: Octets> PartialEq for ParsedName<Octs> {
    ghost use Rattle.dns_name.specs.ParsedName.{labels_in};

    ghost eq = { on (labels_in Octs.list) (on low (pointwise (pointwise nat_eq))) };

    ghost laws = { partial_equiv_from_equiv (on_equiv (labels_in Octs.list) labels_equivalence) };

    fn eq(&self, other: &Self) -> bool {
        self.name_eq(other)
    }
}

impl<Octs: Octets> Eq for ParsedName<Octs> {
    ghost use Rattle.dns_name.specs.ParsedName.{labels_in};

    ghost laws = { on_equiv (labels_in Octs.list) labels_equivalence };
}

impl<Octs: Octets> PartialOrd for ParsedName<Octs> {
    ghost use Rattle.dns_name.specs.ParsedName.{labels_in};

    ghost partial_cmp = { as_partial_cmp (on (labels_in Octs.list) labels_order) };

    ghost laws = { partial_order_from_own_ties (partial_order_from_total (on_total (labels_in Octs.list) labels_total))
        (λ name other. labels_ties (labels_in Octs.list name) (labels_in Octs.list other)) };

    fn partial_cmp(&self, other: &Self) -> Option<Ordering> {
        Some(self.name_cmp(other))
    }
}

impl<Octs: Octets> Ord for ParsedName<Octs> {
    ghost use Rattle.dns_name.specs.ParsedName.{labels_in};

    ghost cmp = { on (labels_in Octs.list) labels_order };

    ghost total = { on_total (labels_in Octs.list) labels_total };

    ghost matches_partial_cmp = { λ _ _. refl };

    ghost matches_eq = { λ name other. labels_ties (labels_in Octs.list name) (labels_in Octs.list other) };

    fn cmp(&self, other: &Self) -> Ordering {
        self.name_cmp(other)
    }
}

impl<Octs: Octets> Hash for ParsedName<Octs> {
    ghost use Rattle.dns_name.specs.ParsedName.{labels_in};

    ghost hash_input = { λ name. wire (low (labels_in Octs.list name)) ∷ [] };

    ghost respects_eq = { λ name other. labels_alike (labels_in Octs.list name) (labels_in Octs.list other) };

    fn hash<H: Hasher>(&self, state: &mut H) {
        state.write(lowered_wire_of(self).as_slice());
    }
}
