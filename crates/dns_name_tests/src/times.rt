//! The operators of times to live.
use dns_name::Ttl;

#[test]
fn times_are_added_and_multiplied(rt: HostRuntime) {
    let mut ttl = Ttl::MINUTE + Ttl::SECOND;
    ttl += Ttl::SECOND;
    ttl -= Ttl::SECOND - Ttl::ZERO;
    ttl *= 4;
    ttl /= 2;
    assert!(rt; ttl / 2 == Ttl::from_secs(61) && Ttl::MINUTE * 2 == Ttl::from_mins(2));
}
