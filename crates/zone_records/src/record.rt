//! Resource records in wire format.
ghost use Rattle.std.specs.Prelude.{◌≡◌, ◌==◌, ◌↔◌, IsTrue, length};
ghost use Rattle.dns_label.specs.Name.{IsName, low, wire};
ghost use Rattle.dns_message.specs.Record.{IsRecord, record_octets};
ghost use Rattle.dns_wire.specs.Suffix.{EndsWith};
ghost use Rattle.zone_records.specs.Record as spec;
ghost use Rattle.zone_records.specs.Zone.{soa_type};

use dns_name::{Class, Name, Rtype, ToName, Ttl, first_name};
use dns_octets::number_at;
use dns_wire::compare::flat_ends_with;
use std::marker::Model;

/// The length of a record without its owner and its data: type, class, TTL and RDLENGTH (RFC 1035 3.2.1).
const FIXED_OCTETS: usize = 10;

/// The class ANY (RFC 1035 3.2.5), which no record of a zone has.
pub const ANY: u16 = 255;

/// A record that borrows its octets (RFC 1035 3.2.1).
#[derive(Debug, Drop)]
pub struct Record<'a> {
    /// The whole record, every name in full.
    octets: &'a [u8],
    /// The length of the owner in octets.
    owner_len: usize,
}

impl<'a> Model for Record<'a> {
    ghost use Rattle.zone_records.specs.Record.{Record};
    ghost use Rattle.zone_records.specs.Stored.{IsStored, record_in};

    ghost Value = { Record };

    ghost view = { λ r. record_in r.octets.now };

    ghost invariant = { λ r. IsStored r.octets.now r.owner_len };
}

impl<'a> Record<'a> {
    /// Returns the record whose octets these are.
    pub fn from_octets(octets: &'a [u8]) -> Record<'a>
        requires { (r : spec.Record) × IsRecord r × (octets.now ≡ record_octets r) }
        ensures { (r : spec.Record) → IsRecord r → octets.now ≡ record_octets r → result ≡ r }
    {
        Record {
            octets,
            owner_len: first_name(octets).len(),
        }
    }

    /// Returns the record whose octets these are, as `from_octets` does, without reading its owner. The caller knows how
    /// many of them are the owner.
    pub fn with_owner_len(octets: &'a [u8], owner_len: usize) -> Record<'a>
        requires { (r : spec.Record) × IsRecord r × (octets.now ≡ record_octets r) × (owner_len ≡ length (wire r.owner)) }
        ensures { (r : spec.Record) → IsRecord r → octets.now ≡ record_octets r → result ≡ r }
    {
        Record { octets, owner_len }
    }

    /// Returns the octets of the whole record, every name in full.
    pub fn as_octets(&self) -> &'a [u8]
        ensures octets { result.now ≡ record_octets self.now }
        ensures known { IsRecord self.now }
    {
        self.octets
    }

    /// Returns the owner.
    pub fn owner(&self) -> Name<&'a [u8]>
        ensures owner { result ≡ self.now.owner }
        ensures name { IsName self.now.owner }
    {
        Name::from_octets_unchecked(&self.octets[..self.owner_len])
    }

    /// Returns the type.
    pub fn rtype(&self) -> Rtype
        ensures { result ≡ self.now.rtype }
    {
        Rtype::from_int(number_at(self.octets, self.owner_len))
    }

    /// Returns the class.
    pub fn class(&self) -> Class
        ensures { result ≡ self.now.class }
    {
        Class::from_int(number_at(self.octets, self.owner_len + 2))
    }

    /// Returns the TTL, in seconds.
    pub fn ttl(&self) -> Ttl
        ensures { result ≡ self.now.ttl }
    {
        let start = self.owner_len + 4;
        let ttl = &self.octets[start..start + 4];
        Ttl::from_secs(u32::from_be_bytes([ttl[0], ttl[1], ttl[2], ttl[3]]))
    }

    /// Returns the octets of the data, every name in full.
    pub fn data(&self) -> &'a [u8]
        ensures { result.now ≡ self.now.rdata }
    {
        &self.octets[self.owner_len + FIXED_OCTETS..]
    }

    /// Returns whether the type is SOA.
    pub fn is_soa(&self) -> bool
        ensures { result ≡ (self.now.rtype == soa_type) }
    {
        self.rtype() == Rtype::SOA
    }

    /// Returns whether the owner is the name or a name under it, up to ASCII case.
    pub fn is_under<N: ToName>(&self, apex: &N) -> bool
        ensures { IsTrue result ↔ EndsWith (low self.now.owner) (low (N.name apex.now)) }
    {
        match apex.as_flat_slice() {
            Some(end) => flat_ends_with(self.owner().as_slice(), end),
            None => self.owner().ends_with(apex),
        }
    }

    /// Returns whether the owner is the name, up to ASCII case.
    pub fn is_at<N: ToName>(&self, name: &N) -> bool
        ensures { IsTrue result ↔ (low self.now.owner ≡ low (N.name name.now)) }
    {
        self.owner().name_eq(name)
    }
}
