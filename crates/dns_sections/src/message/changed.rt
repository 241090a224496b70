//! Changes of a message in place.
ghost use Rattle.std.specs.Prelude.{◌≡◌, ◌+◌, ◌-◌, ◌<◌, ◌≤◌, ◌++◌, length, take, drop};
ghost use Rattle.dns_name.specs.Remembered.{patched};
ghost use Rattle.dns_header.specs.HeaderCounts.{counts_in};
ghost use Rattle.dns_sections.specs.Message.{octets_in};

use crate::Message;
use dns_header::Header;
use dns_name::WriteOctets;

impl<Octs: WriteOctets> Message<Octs> {
    /// Replaces the header. The counts and what follows them stay (RFC 1035 4.1.1).
    pub fn set_header(&mut self, header: Header)
        ensures { octets_in Octs.list self.new ≡ header ++ drop 4 (octets_in Octs.list self.old) }
    {
        write_in_header(&mut self.octets, 0, header.as_slice());
    }

    /// Removes the last record of the additional section. There must be at least one. ARCOUNT counts one less, and the
    /// octets of the record stay (RFC 1035 4.1.1).
    pub fn remove_last_additional(&mut self)
        requires { 0 < (counts_in (octets_in Octs.list self.old)).ar }
        ensures counts { counts_in (octets_in Octs.list self.new)
            ≡ record (counts_in (octets_in Octs.list self.old)) { ar = (counts_in (octets_in Octs.list self.old)).ar - 1 } }
        ensures header { take 10 (octets_in Octs.list self.new) ≡ take 10 (octets_in Octs.list self.old) }
        ensures rest { drop 12 (octets_in Octs.list self.new) ≡ drop 12 (octets_in Octs.list self.old) }
    {
        let count = self.header_counts().arcount() - 1;
        write_in_header(&mut self.octets, 10, &count.to_be_bytes());
    }
}

/// Overwrites some of the header's twelve octets, from a place on.
fn write_in_header<Octs: WriteOctets>(target: &mut Octs, place: usize, octets: &[u8])
    requires within { place + length octets.now ≤ 12 }
    requires header { 12 ≤ length (Octs.list target.old) }
    ensures { Octs.list target.new ≡ patched (Octs.list target.old) place octets.now }
{
    for (i, &octet) in octets.iter().enumerate() {
        target.set_octet(place + i, octet);
    }
}
