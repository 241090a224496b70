//! Labels up to ASCII case (RFC 4343).
ghost use Rattle.std.specs.Prelude.{◌∷◌, [], nat_eq, refl};
ghost use Rattle.std.specs.Ordering.{on, nat_cmp, as_partial_cmp};
ghost use Rattle.std.specs.Cmp.Lexicographic.{pointwise, slice_cmp};
ghost use Rattle.std.specs.Cmp.Rules.{comparing};
ghost use Rattle.std.specs.Cmp.{partial_order_from_own_ties};
ghost use Rattle.std.proofs.Common.{rules};
ghost use Rattle.dns_label.specs.Label.{label_octets};
ghost use Rattle.dns_label.specs.Composed.{label_wire, low_label};

use super::Label;
use std::cmp::Ordering;
use std::hash::{Hash, Hasher};

impl PartialEq for Label<'_> {
    ghost eq = { on (λ label. low_label (label_octets label)) (pointwise nat_eq) };

    ghost laws = { Prim.search (comparing, rules) };

    fn eq(&self, other: &Self) -> bool {
        self.as_slice().eq_ignore_ascii_case(other.as_slice())
    }
}

impl Eq for Label<'_> {
    ghost laws = { Prim.search (comparing, rules) };
}

impl PartialOrd for Label<'_> {
    ghost partial_cmp = { as_partial_cmp (on (λ label. low_label (label_octets label)) (slice_cmp nat_cmp)) };

    ghost laws = { partial_order_from_own_ties (Prim.search (comparing, rules)) (Prim.search (comparing, rules)) };

    fn partial_cmp(&self, other: &Self) -> Option<Ordering> {
        Some(self.cmp(other))
    }
}

impl Ord for Label<'_> {
    ghost cmp = { on (λ label. low_label (label_octets label)) (slice_cmp nat_cmp) };

    ghost total = { Prim.search (comparing, rules) };

    ghost matches_partial_cmp = { Prim.search (comparing, rules) };

    ghost matches_eq = { Prim.search (comparing, rules) };

    fn cmp(&self, other: &Self) -> Ordering {
        let wire = self.low_wire();
        let others = other.low_wire();
        wire.as_slice()[1..].cmp(&others.as_slice()[1..])
    }
}

impl Hash for Label<'_> {
    ghost hash_input = { λ label. label_wire (low_label (label_octets label)) ∷ [] };

    ghost respects_eq = { Prim.search (comparing, rules) };

    fn hash<H: Hasher>(&self, state: &mut H) {
        state.write(self.low_wire().as_slice());
    }
}
