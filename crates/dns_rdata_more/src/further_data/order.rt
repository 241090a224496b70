//! How further data compares.
ghost use Rattle.std.proofs.Common.{refl};
ghost use Rattle.std.specs.Cmp.{on_equiv, on_per, on_po, on_total};
ghost use Rattle.std.specs.Cmp.Lexicographic.{slice_cmp};
ghost use Rattle.std.specs.Ordering.{as_partial_cmp, nat_cmp, on};
ghost use Rattle.dns_fields.specs.Alike.{keys, rows_eq, rows_cmp};
ghost use Rattle.dns_fields.specs.AlikeLaws.{rows_alike, rows_equivalent, rows_order, rows_partly_equivalent, rows_ties, rows_total};
ghost use Rattle.dns_rdata_more.specs.FurtherData.{canonical_of, compared_row};

use super::FurtherData;
use crate::canonical_order::canonical_further_cmp;
use crate::folded_order::{further_cmp, hash_further};
use dns_name::{CanonicalOrd, Octets, Rtype};
use dns_rr_data::DataType;
use std::cmp::Ordering;
use std::hash::{Hash, Hasher};

/// Field by field, names and character strings up to ASCII case, as data of zonewire's own types compares; salts and hashes octet
/// for octet.
impl<T: DataType, Octs: Octets> PartialEq for FurtherData<T, Octs> {
    ghost eq = { on (compared_row T.number) rows_eq };

    ghost laws = { on_per (compared_row T.number) rows_partly_equivalent };

    #[tactic(auto, using(dns_fields::specs::AlikeLaws::rows_ties))]
    fn eq(&self, other: &Self) -> bool {
        self.cmp(other).is_eq()
    }
}

impl<T: DataType, Octs: Octets> Eq for FurtherData<T, Octs> {
    ghost laws = { on_equiv (compared_row T.number) rows_equivalent };
}

/// Field by field, names and character strings in lower case, salts and hashes as they are, and a shorter one of these before a
/// longer one.
impl<T: DataType, Octs: Octets> Ord for FurtherData<T, Octs> {
    ghost cmp = { on (compared_row T.number) rows_cmp };

    ghost total = { on_total (compared_row T.number) rows_total };

    ghost matches_partial_cmp = { λ _ _. refl };

    ghost matches_eq = { λ rdata other. rows_ties (compared_row T.number rdata) (compared_row T.number other) };

    fn cmp(&self, other: &Self) -> Ordering {
        let rtype = Rtype::from_int(T::number());
        further_cmp(rtype, self.octets.octets(), other.octets.octets())
    }
}

impl<T: DataType, Octs: Octets> PartialOrd for FurtherData<T, Octs> {
    ghost partial_cmp = { as_partial_cmp (on (compared_row T.number) rows_cmp) };

    ghost laws = { on_po (compared_row T.number) rows_order };

    fn partial_cmp(&self, other: &Self) -> Option<Ordering> {
        Some(self.cmp(other))
    }
}

/// The order of the canonical octets (RFC 4034 6.3).
impl<T: DataType, Octs: Octets> CanonicalOrd for FurtherData<T, Octs> {
    ghost canonical = { on (canonical_of T.number) (slice_cmp nat_cmp) };

    fn canonical_cmp(&self, other: &Self) -> Ordering {
        let rtype = Rtype::from_int(T::number());
        canonical_further_cmp(rtype, self.octets.octets(), other.octets.octets())
    }
}

/// Names and character strings are hashed in lower case, so that equal data has equal hashes; salts and hashes as they are.
impl<T: DataType, Octs: Octets> Hash for FurtherData<T, Octs> {
    ghost hash_input = { λ rdata. keys (compared_row T.number rdata) };

    ghost respects_eq = { λ rdata other. rows_alike (compared_row T.number rdata) (compared_row T.number other) };

    fn hash<H: Hasher>(&self, state: &mut H) {
        hash_further(Rtype::from_int(T::number()), self.octets.octets(), state);
    }
}
