//! Labels that hold their octets, up to ASCII case (RFC 4343).
ghost use Rattle.std.specs.Prelude.{◌∷◌, [], nat_eq, refl};
ghost use Rattle.std.specs.Ordering.{on, nat_cmp, as_partial_cmp};
ghost use Rattle.std.specs.Cmp.Lexicographic.{pointwise, slice_cmp};
ghost use Rattle.std.specs.Cmp.Rules.{comparing};
ghost use Rattle.std.specs.Cmp.{partial_order_from_own_ties};
ghost use Rattle.std.proofs.Common.{rules};
ghost use Rattle.dns_label.specs.OwnedLabel.{octets_owned};
ghost use Rattle.dns_label.specs.Composed.{label_wire, low_label};

use super::OwnedLabel;
use std::cmp::Ordering;
use std::hash::{Hash, Hasher};

impl PartialEq for OwnedLabel {
    ghost eq = { on (λ label. low_label (octets_owned label)) (pointwise nat_eq) };

    ghost laws = { Prim.search (comparing, rules) };

    fn eq(&self, other: &Self) -> bool {
        self.as_label() == other.as_label()
    }
}

impl Eq for OwnedLabel {
    ghost laws = { Prim.search (comparing, rules) };
}

impl PartialOrd for OwnedLabel {
    ghost partial_cmp = { as_partial_cmp (on (λ label. low_label (octets_owned label)) (slice_cmp nat_cmp)) };

    ghost laws = { partial_order_from_own_ties (Prim.search (comparing, rules)) (Prim.search (comparing, rules)) };

    fn partial_cmp(&self, other: &Self) -> Option<Ordering> {
        Some(self.cmp(other))
    }
}

impl Ord for OwnedLabel {
    ghost cmp = { on (λ label. low_label (octets_owned label)) (slice_cmp nat_cmp) };

    ghost total = { Prim.search (comparing, rules) };

    ghost matches_partial_cmp = { Prim.search (comparing, rules) };

    ghost matches_eq = { Prim.search (comparing, rules) };

    fn cmp(&self, other: &Self) -> Ordering {
        self.as_label().cmp(&other.as_label())
    }
}

impl Hash for OwnedLabel {
    ghost hash_input = { λ label. label_wire (low_label (octets_owned label)) ∷ [] };

    ghost respects_eq = { Prim.search (comparing, rules) };

    fn hash<H: Hasher>(&self, state: &mut H) {
        self.as_label().hash(state);
    }
}
