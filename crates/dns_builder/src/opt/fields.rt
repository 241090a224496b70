//! The fixed fields of an OPT record (RFC 6891 6.1.2 and 6.1.3).
ghost use Rattle.std.specs.Prelude.{◌≡◌, ◌%◌, ◌/◌};

use super::OptBuilder;
use dns_name::{Composer, OptRcode};

impl<Target: Composer> OptBuilder<Target> {
    ghost use Rattle.dns_header.specs.Header.{rcode_of};
    ghost use Rattle.dns_header.specs.HeaderFields.{fields_of};
    ghost use Rattle.dns_header.specs.OptFields.{extended_rcode};
    ghost use Rattle.dns_builder.specs.OptSeen.{opt_in, LeavesMessage};

    /// Returns how many octets of a UDP message the sender accepts (RFC 6891 6.2.3).
    pub fn udp_payload_size(&self) -> u16
        ensures { result ≡ (opt_in Target.list self.now).fields.payload_size }
    {
        self.fields.udp_payload_size()
    }

    /// Sets how many octets of a UDP message the sender accepts.
    pub fn set_udp_payload_size(&mut self, value: u16)
        ensures opt { opt_in Target.list self.new ≡ record (opt_in Target.list self.old) { fields = record (opt_in Target.list self.old).fields { payload_size = value } } }
        ensures leaves { LeavesMessage Target.list Target.known Target.bound Target.stays self.old self.new }
    {
        self.fields.set_udp_payload_size(value);
    }

    /// Returns the response code of the message: its high eight bits from the record, the low four from the header
    /// (RFC 6891 6.1.3).
    pub fn rcode(&self) -> OptRcode
        ensures { result ≡ extended_rcode (opt_in Target.list self.now).fields (rcode_of (opt_in Target.list self.now).header) }
    {
        self.fields.rcode(self.header)
    }

    /// Sets the response code of the message: its high eight bits in the record, the low four in the header.
    pub fn set_rcode(&mut self, rcode: OptRcode)
        ensures opt { opt_in Target.list self.new ≡ record (opt_in Target.list self.old) {
          header = (opt_in Target.list self.new).header;
          fields = record (opt_in Target.list self.old).fields { high_rcode = rcode / 16 };
        } }
        ensures header { fields_of (opt_in Target.list self.new).header ≡ record (fields_of (opt_in Target.list self.old).header) { rcode = rcode % 16 } }
        ensures leaves { LeavesMessage Target.list Target.known Target.bound Target.stays self.old self.new }
    {
        self.header.set_rcode(rcode.rcode());
        self.fields.set_rcode(rcode);
    }

    /// Returns the version of EDNS.
    pub fn version(&self) -> u8
        ensures { result ≡ (opt_in Target.list self.now).fields.version }
    {
        self.fields.version()
    }

    /// Sets the version of EDNS.
    pub fn set_version(&mut self, version: u8)
        ensures opt { opt_in Target.list self.new ≡ record (opt_in Target.list self.old) { fields = record (opt_in Target.list self.old).fields { version = version } } }
        ensures leaves { LeavesMessage Target.list Target.known Target.bound Target.stays self.old self.new }
    {
        self.fields.set_version(version);
    }

    /// Returns whether the sender accepts DNSSEC records (DO; RFC 3225 3).
    pub fn dnssec_ok(&self) -> bool
        ensures { result ≡ (opt_in Target.list self.now).fields.dnssec_ok }
    {
        self.fields.dnssec_ok()
    }

    /// Sets or clears DO.
    pub fn set_dnssec_ok(&mut self, value: bool)
        ensures opt { opt_in Target.list self.new ≡ record (opt_in Target.list self.old) { fields = record (opt_in Target.list self.old).fields { dnssec_ok = value } } }
        ensures leaves { LeavesMessage Target.list Target.known Target.bound Target.stays self.old self.new }
    {
        self.fields.set_dnssec_ok(value);
    }
}
