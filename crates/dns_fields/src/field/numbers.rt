//! Numbers as fields, of one, two and four octets.
ghost use Rattle.std.proofs.Common.{refl};
ghost use Rattle.dns_fields.specs.Fields.{Number8, Number16, Number32, number8, number16, number32};

use super::{FieldValue, HasField};
use dns_name::{AppendError, Compose, Composer};
use std::cmp::Ordering;
use std::hash::Hasher;

impl HasField for u8 {
    ghost kind = { Number8 };

    ghost field = { number8 };

    fn field_len(&self) -> usize {
        1
    }

    ghost of_kind = { λ _. refl };
}

impl FieldValue for u8 {
    fn may_point() -> bool {
        false
    }

    #[tactic(auto, using(crate::proofs::Leaves::leaf_rules), unfolding(dns_name::specs::Page::write))]
    fn compose_field<Target: Composer>(&self, target: &mut Target) -> Result<(), AppendError> {
        self.compose(target)
    }

    fn compose_canonical_field<Target: Composer>(
        &self,
        target: &mut Target,
    ) -> Result<(), AppendError> {
        self.compose(target)
    }

    fn field_eq(&self, other: &Self) -> bool {
        self.to_be_bytes() == other.to_be_bytes()
    }

    fn field_cmp(&self, other: &Self) -> Ordering {
        self.to_be_bytes().cmp(&other.to_be_bytes())
    }

    fn canonical_field_cmp(&self, other: &Self) -> Ordering {
        self.to_be_bytes().cmp(&other.to_be_bytes())
    }

    fn hash_field<H: Hasher>(&self, state: &mut H) {
        state.write(&self.to_be_bytes());
    }
}

impl HasField for u16 {
    ghost kind = { Number16 };

    ghost field = { number16 };

    fn field_len(&self) -> usize {
        2
    }

    ghost of_kind = { λ _. refl };
}

impl FieldValue for u16 {
    fn may_point() -> bool {
        false
    }

    #[tactic(auto, using(crate::proofs::Leaves::leaf_rules), unfolding(dns_name::specs::Page::write))]
    fn compose_field<Target: Composer>(&self, target: &mut Target) -> Result<(), AppendError> {
        self.compose(target)
    }

    fn compose_canonical_field<Target: Composer>(
        &self,
        target: &mut Target,
    ) -> Result<(), AppendError> {
        self.compose(target)
    }

    fn field_eq(&self, other: &Self) -> bool {
        self.to_be_bytes() == other.to_be_bytes()
    }

    fn field_cmp(&self, other: &Self) -> Ordering {
        self.to_be_bytes().cmp(&other.to_be_bytes())
    }

    fn canonical_field_cmp(&self, other: &Self) -> Ordering {
        self.to_be_bytes().cmp(&other.to_be_bytes())
    }

    fn hash_field<H: Hasher>(&self, state: &mut H) {
        state.write(&self.to_be_bytes());
    }
}

impl HasField for u32 {
    ghost kind = { Number32 };

    ghost field = { number32 };

    fn field_len(&self) -> usize {
        4
    }

    ghost of_kind = { λ _. refl };
}

impl FieldValue for u32 {
    fn may_point() -> bool {
        false
    }

    #[tactic(auto, using(crate::proofs::Leaves::leaf_rules), unfolding(dns_name::specs::Page::write))]
    fn compose_field<Target: Composer>(&self, target: &mut Target) -> Result<(), AppendError> {
        self.compose(target)
    }

    fn compose_canonical_field<Target: Composer>(
        &self,
        target: &mut Target,
    ) -> Result<(), AppendError> {
        self.compose(target)
    }

    fn field_eq(&self, other: &Self) -> bool {
        self.to_be_bytes() == other.to_be_bytes()
    }

    fn field_cmp(&self, other: &Self) -> Ordering {
        self.to_be_bytes().cmp(&other.to_be_bytes())
    }

    fn canonical_field_cmp(&self, other: &Self) -> Ordering {
        self.to_be_bytes().cmp(&other.to_be_bytes())
    }

    fn hash_field<H: Hasher>(&self, state: &mut H) {
        state.write(&self.to_be_bytes());
    }
}
