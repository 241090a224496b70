//! All octets that are left, by how they are written as text.
ghost use Rattle.std.proofs.Common.{refl};
ghost use Rattle.dns_fields.specs.Fields as fields;

use super::LastValue;
use dns_name::Octets;

/// Octets that are written as a string.
#[derive(Clone, Copy, Debug, Drop)]
pub struct RestText<Octs>(pub Octs);

impl<Octs: Octets> LastValue for RestText<Octs> {
    ghost kind = { fields.RestText };

    ghost field = { λ x. fields.rest_text (Octs.list x.0) };

    fn last_octets(&self) -> &[u8] {
        self.0.octets()
    }

    ghost stays = { refl };

    ghost unnamed = { refl };

    ghost is_last = { λ _. record { kind = refl; lowered = refl; folded = refl; written = refl } };
}

/// Octets that are written in base 16 (RFC 4648 8).
#[derive(Clone, Copy, Debug, Drop)]
pub struct Rest16<Octs>(pub Octs);

impl<Octs: Octets> LastValue for Rest16<Octs> {
    ghost kind = { fields.Rest16 };

    ghost field = { λ x. fields.rest16 (Octs.list x.0) };

    fn last_octets(&self) -> &[u8] {
        self.0.octets()
    }

    ghost stays = { refl };

    ghost unnamed = { refl };

    ghost is_last = { λ _. record { kind = refl; lowered = refl; folded = refl; written = refl } };
}

/// Octets that are written in base 64 (RFC 4648 4).
#[derive(Clone, Copy, Debug, Drop)]
pub struct Rest64<Octs>(pub Octs);

impl<Octs: Octets> LastValue for Rest64<Octs> {
    ghost kind = { fields.Rest64 };

    ghost field = { λ x. fields.rest64 (Octs.list x.0) };

    fn last_octets(&self) -> &[u8] {
        self.0.octets()
    }

    ghost stays = { refl };

    ghost unnamed = { refl };

    ghost is_last = { λ _. record { kind = refl; lowered = refl; folded = refl; written = refl } };
}
