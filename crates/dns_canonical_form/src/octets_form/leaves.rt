//! Numbers, addresses, strings and tags in octets.
ghost use Rattle.std.specs.Prelude.{◌≡◌};
ghost use Rattle.std.proofs.Common.{refl};
ghost use Rattle.dns_fields.specs.Fields.{Number8, Number16, Number32, Ipv4, Ipv6};
ghost use Rattle.dns_fields.specs.Fields as fields;
ghost use Rattle.dns_fields.specs.OctetsForm.{string_len};

use super::FieldOctetsForm;
use dns_fields::Tag;
use dns_name::Octets;
use dns_text::CharStr;
use std::net::{Ipv4Addr, Ipv6Addr};

impl FieldOctetsForm for u8 {
    ghost kind = { Number8 };

    fn is_name() -> bool {
        false
    }

    fn len_in(_octets: &[u8]) -> usize {
        1
    }

    ghost ends = { refl };
}

impl FieldOctetsForm for u16 {
    ghost kind = { Number16 };

    fn is_name() -> bool {
        false
    }

    fn len_in(_octets: &[u8]) -> usize {
        2
    }

    ghost ends = { refl };
}

impl FieldOctetsForm for u32 {
    ghost kind = { Number32 };

    fn is_name() -> bool {
        false
    }

    fn len_in(_octets: &[u8]) -> usize {
        4
    }

    ghost ends = { refl };
}

impl FieldOctetsForm for Ipv4Addr {
    ghost kind = { fields.Ipv4 };

    fn is_name() -> bool {
        false
    }

    fn len_in(_octets: &[u8]) -> usize {
        4
    }

    ghost ends = { refl };
}

impl FieldOctetsForm for Ipv6Addr {
    ghost kind = { fields.Ipv6 };

    fn is_name() -> bool {
        false
    }

    fn len_in(_octets: &[u8]) -> usize {
        16
    }

    ghost ends = { refl };
}

impl<Octs: Octets> FieldOctetsForm for CharStr<Octs> {
    ghost kind = { fields.String };

    fn is_name() -> bool {
        false
    }

    fn len_in(octets: &[u8]) -> usize {
        string_len(octets)
    }

    ghost ends = { refl };
}

impl<Octs: Octets> FieldOctetsForm for Tag<Octs> {
    ghost kind = { fields.Tag };

    fn is_name() -> bool {
        false
    }

    fn len_in(octets: &[u8]) -> usize {
        string_len(octets)
    }

    ghost ends = { refl };
}

/// Returns the length that the first octet gives a string, with that octet.
fn string_len(octets: &[u8]) -> usize
    ensures { result ≡ string_len octets.now }
{
    match octets.first() {
        Some(len) => 1 + usize::from(*len),
        None => 1,
    }
}
