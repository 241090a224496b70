//! The fixed fields of an OPT record (RFC 6891 6.1.2 and 6.1.3).
//!
//! ```text
//! owner: the root | type: OPT | class: UDP payload size | TTL: response code (8 bits), version (8), DO (1), not in use (15)
//! ```
ghost use Rattle.std.specs.Prelude.{◌≡◌, ◌<◌, ◌/◌, ◌^◌, false};
ghost use Rattle.dns_header.specs.Header.{rcode_of};
ghost use Rattle.dns_header.specs.OptFields.{OptFields, opt_fields, extended_rcode};

use crate::Header;
use dns_name::{Class, OptRcode, Ttl};
use std::marker::Model;

/// The fields in the class and the TTL of an OPT record, whose owner is the root.
#[derive(Clone, Copy, Debug, PartialEq, Eq)]
pub struct OptHeader {
    udp_payload_size: u16,
    high_rcode: u8,
    version: u8,
    dnssec_ok: bool,
    reserved: u16,
}

impl Model for OptHeader {
    ghost Value = { OptFields };

    ghost view = { λ header. record {
      payload_size = header.udp_payload_size;
      high_rcode = header.high_rcode;
      version = header.version;
      dnssec_ok = header.dnssec_ok;
      reserved = header.reserved;
    } };

    ghost invariant = { λ header. header.reserved < 2 ^ 15 };

    ghost inverse = { λ fields. record {
      udp_payload_size = fields.payload_size;
      high_rcode = fields.high_rcode;
      version = fields.version;
      dnssec_ok = fields.dnssec_ok;
      reserved = fields.reserved;
    } };
}

impl Default for OptHeader {
    fn default() -> Self
        ensures { result ≡ opt_fields 0 0 }
    {
        OptHeader::new()
    }
}

impl OptHeader {
    /// Returns a header with all fields zero.
    pub fn new() -> Self
        ensures { result ≡ opt_fields 0 0 }
    {
        OptHeader {
            udp_payload_size: 0,
            high_rcode: 0,
            version: 0,
            dnssec_ok: false,
            reserved: 0,
        }
    }

    /// Returns the header in a class and a TTL.
    pub fn from_class_and_ttl(class: Class, ttl: Ttl) -> Self
        ensures { result ≡ opt_fields class ttl }
    {
        let ttl = ttl.as_secs();
        OptHeader {
            udp_payload_size: class.to_int(),
            high_rcode: (ttl / 0x100_0000) as u8,
            version: (ttl / 0x1_0000 % 0x100) as u8,
            dnssec_ok: ttl / 0x8000 % 2 == 1,
            reserved: (ttl % 0x8000) as u16,
        }
    }

    /// Returns the class of the record, which is the UDP payload size.
    pub fn class(self) -> Class
        ensures { result ≡ self.payload_size }
    {
        Class::from_int(self.udp_payload_size)
    }

    /// Returns the TTL of the record, which has all fields except the UDP payload size.
    pub fn ttl(self) -> Ttl
        ensures { opt_fields self.payload_size result ≡ self }
    {
        let high = u32::from(self.high_rcode) * 0x100_0000 + u32::from(self.version) * 0x1_0000;
        let low = u32::from(self.dnssec_ok) * 0x8000 + u32::from(self.reserved);
        Ttl::from_secs(high + low)
    }

    /// Returns how many octets of a UDP message the sender accepts (RFC 6891 6.2.3).
    pub fn udp_payload_size(self) -> u16
        ensures { result ≡ self.payload_size }
    {
        self.udp_payload_size
    }

    /// Returns the response code of a message with this record: its high eight bits from here, the low four from the
    /// message's header (RFC 6891 6.1.3).
    pub fn rcode(self, header: Header) -> OptRcode
        ensures { result ≡ extended_rcode self (rcode_of header) }
    {
        let low = u16::from(header.rcode().to_int());
        OptRcode::masked_from_int(u16::from(self.high_rcode) * 16 + low)
    }

    /// Returns the version of EDNS.
    pub fn version(self) -> u8
        ensures { result ≡ self.version }
    {
        self.version
    }

    /// Returns whether the sender accepts DNSSEC records (DO; RFC 3225 3).
    pub fn dnssec_ok(self) -> bool
        ensures { result ≡ self.dnssec_ok }
    {
        self.dnssec_ok
    }

    /// Sets the UDP payload size.
    pub fn set_udp_payload_size(&mut self, value: u16)
        ensures { self.new ≡ record self.old { payload_size = value } }
    {
        self.udp_payload_size = value;
    }

    /// Sets the high eight bits of the response code. The low four are in the message's header.
    pub fn set_rcode(&mut self, rcode: OptRcode)
        ensures { self.new ≡ record self.old { high_rcode = rcode / 16 } }
    {
        self.high_rcode = (rcode.to_int() / 16) as u8;
    }

    /// Sets the version of EDNS.
    pub fn set_version(&mut self, version: u8)
        ensures { self.new ≡ record self.old { version = version } }
    {
        self.version = version;
    }

    /// Sets or clears DO.
    pub fn set_dnssec_ok(&mut self, value: bool)
        ensures { self.new ≡ record self.old { dnssec_ok = value } }
    {
        self.dnssec_ok = value;
    }
}
