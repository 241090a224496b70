//! Equality, orders and the hash of questions.
ghost use Rattle.std.specs.Prelude.{◌≡◌, nat_eq};
ghost use Rattle.std.proofs.Common.{refl};
ghost use Rattle.std.specs.Cmp.Lexicographic.{pointwise};
ghost use Rattle.dns_label.specs.Name.{low};
ghost use Rattle.std.specs.Cmp.{on_equiv, on_total, partial_equiv_from_equiv, partial_order_from_total, partial_order_from_own_ties};
ghost use Rattle.std.specs.Ordering.{as_partial_cmp, on};
ghost use Rattle.dns_header.specs.QuestionLaws.{questions_alike, questions_equivalence, questions_ties, questions_total};
ghost use Rattle.dns_header.specs.QuestionOrder.{questions_eq, questions_cmp, canonical_questions_cmp, question_keys};
ghost use Rattle.dns_header.specs.QuestionParts.{question_of};

use super::Question;
use super::compose::four_octets;
use dns_name::{CanonicalOrd, ToName};
use std::cmp::Ordering;
use std::hash::{Hash, Hasher};

/// Names are compared up to ASCII case (RFC 4343).
impl<N: ToName> PartialEq for Question<N> {
    ghost eq = { on (question_of N.name) questions_eq };

    ghost laws = { partial_equiv_from_equiv (on_equiv (question_of N.name) questions_equivalence) };

    fn eq(&self, other: &Self) -> bool {
        let behind = self.qtype == other.qtype && self.qclass == other.qclass;
        same_names(&self.qname, &other.qname) && behind
    }
}

/// Returns whether two names are equal up to ASCII case.
pub(crate) fn same_names<N: ToName>(name: &N, other: &N) -> bool
    ensures { result ≡ on low (pointwise (pointwise nat_eq)) (N.name name.now) (N.name other.now) }
{
    name.name_eq(other)
}

impl<N: ToName> Eq for Question<N> {
    ghost laws = { on_equiv (question_of N.name) questions_equivalence };
}

impl<N: ToName> PartialOrd for Question<N> {
    ghost partial_cmp = { as_partial_cmp (on (question_of N.name) questions_cmp) };

    ghost laws = { partial_order_from_own_ties (partial_order_from_total (on_total (question_of N.name) questions_total))
        (λ question other. questions_ties (question_of N.name question) (question_of N.name other)) };

    fn partial_cmp(&self, other: &Self) -> Option<Ordering> {
        Some(self.cmp(other))
    }
}

/// By name, type and class.
impl<N: ToName> Ord for Question<N> {
    ghost cmp = { on (question_of N.name) questions_cmp };

    ghost total = { on_total (question_of N.name) questions_total };

    ghost matches_partial_cmp = { λ _ _. refl };

    ghost matches_eq = { λ question other. questions_ties (question_of N.name question) (question_of N.name other) };

    fn cmp(&self, other: &Self) -> Ordering {
        self.qname
            .name_cmp(&other.qname)
            .then(self.qtype.cmp(&other.qtype))
            .then(self.qclass.cmp(&other.qclass))
    }
}

/// By the name's octets in lower case, type and class.
impl<N: ToName> CanonicalOrd for Question<N> {
    ghost canonical = { on (question_of N.name) canonical_questions_cmp };

    fn canonical_cmp(&self, other: &Self) -> Ordering {
        let behind = self
            .qtype
            .cmp(&other.qtype)
            .then(self.qclass.cmp(&other.qclass));
        self.qname.lowercase_composed_cmp(&other.qname).then(behind)
    }
}

impl<N: ToName> Hash for Question<N> {
    ghost hash_input = { λ question. question_keys (question_of N.name question) };

    ghost respects_eq = { λ question other. questions_alike (question_of N.name question) (question_of N.name other) };

    fn hash<H: Hasher>(&self, state: &mut H) {
        self.qname.name_hash(state);
        state.write(&four_octets(self.qtype, self.qclass));
    }
}
