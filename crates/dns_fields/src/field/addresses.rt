//! Addresses as fields.
ghost use Rattle.std.specs.Prelude.{◌≡◌, ◌++◌, ℕ, List, length};
ghost use Rattle.std.specs.Ordering.{ordering_then, nat_cmp};
ghost use Rattle.std.specs.Cmp.Lexicographic.{slice_cmp};
ghost use Rattle.std.proofs.Common.{refl};
ghost use Rattle.std.specs.Net.Addr.{ipv4_octets, ipv6_octets};
ghost use Rattle.dns_fields.specs.Fields.{Ipv4, Ipv6, ipv4, ipv6};

use super::{FieldValue, HasField};
use dns_name::{AppendError, Compose, Composer};
use std::cmp::Ordering;
use std::hash::Hasher;
use std::net::{Ipv4Addr, Ipv6Addr};

/// Compares octets with as many others, whatever follows both.
fn level_cmp(octets: &[u8], others: &[u8]) -> Ordering
    requires { length octets.now ≡ length others.now }
    ensures { (behind beyond : List ℕ) → slice_cmp nat_cmp (octets.now ++ behind) (others.now ++ beyond)
        ≡ ordering_then result (slice_cmp nat_cmp behind beyond) }
{
    octets.cmp(others)
}

impl HasField for Ipv4Addr {
    ghost kind = { Ipv4 };

    ghost field = { λ address. ipv4 (ipv4_octets address) };

    fn field_len(&self) -> usize {
        self.octets().len()
    }

    ghost of_kind = { λ _. refl };
}

impl FieldValue for Ipv4Addr {
    fn may_point() -> bool {
        false
    }

    #[tactic(auto, using(crate::proofs::Leaves::leaf_rules), unfolding(dns_name::specs::Page::write))]
    fn compose_field<Target: Composer>(&self, target: &mut Target) -> Result<(), AppendError> {
        self.compose(target)
    }

    fn compose_canonical_field<Target: Composer>(
        &self,
        target: &mut Target,
    ) -> Result<(), AppendError> {
        self.compose(target)
    }

    fn field_eq(&self, other: &Self) -> bool {
        self.octets() == other.octets()
    }

    fn field_cmp(&self, other: &Self) -> Ordering {
        self.octets().cmp(&other.octets())
    }

    fn canonical_field_cmp(&self, other: &Self) -> Ordering {
        level_cmp(&self.octets(), &other.octets())
    }

    fn hash_field<H: Hasher>(&self, state: &mut H) {
        state.write(&self.octets());
    }
}

impl HasField for Ipv6Addr {
    ghost kind = { Ipv6 };

    ghost field = { λ address. ipv6 (ipv6_octets address) };

    fn field_len(&self) -> usize {
        self.octets().len()
    }

    ghost of_kind = { λ _. refl };
}

impl FieldValue for Ipv6Addr {
    fn may_point() -> bool {
        false
    }

    #[tactic(auto, using(crate::proofs::Leaves::leaf_rules), unfolding(dns_name::specs::Page::write))]
    fn compose_field<Target: Composer>(&self, target: &mut Target) -> Result<(), AppendError> {
        self.compose(target)
    }

    fn compose_canonical_field<Target: Composer>(
        &self,
        target: &mut Target,
    ) -> Result<(), AppendError> {
        self.compose(target)
    }

    fn field_eq(&self, other: &Self) -> bool {
        self.octets() == other.octets()
    }

    fn field_cmp(&self, other: &Self) -> Ordering {
        self.octets().cmp(&other.octets())
    }

    fn canonical_field_cmp(&self, other: &Self) -> Ordering {
        level_cmp(&self.octets(), &other.octets())
    }

    fn hash_field<H: Hasher>(&self, state: &mut H) {
        state.write(&self.octets());
    }
}
