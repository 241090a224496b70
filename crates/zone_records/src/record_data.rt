//! Comparison of SOA records.
ghost use Rattle.std.specs.Prelude.{◌≡◌, ◌↔◌, ℕ, IsTrue};
ghost use Rattle.zone_records.specs.Records.{IsRecordOf, SameSoa};
ghost use Rattle.zone_records.specs.Zone.{soa_type};

use crate::record::Record;
use crate::typed::parse_data;

/// Returns whether two SOA records of one class have the same owner, TTL and data, names up to ASCII case.
pub fn is_same_soa(soa: &Record<'_>, other: &Record<'_>) -> bool
    requires first { (class : ℕ) × IsRecordOf class soa.now × (soa.now.rtype ≡ soa_type) }
    requires second { (class : ℕ) × IsRecordOf class other.now × (other.now.rtype ≡ soa_type) }
    requires class { soa.now.class ≡ other.now.class }
    ensures { IsTrue result ↔ SameSoa soa.now other.now }
{
    let data = parse_data(soa.rtype(), soa.data());
    let other_data = parse_data(other.rtype(), other.data());
    soa.is_at(&other.owner()) && soa.ttl() == other.ttl() && data == other_data
}
