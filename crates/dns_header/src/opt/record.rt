//! OPT records (RFC 6891 6.1).
ghost use Rattle.std.specs.Prelude.{◌≡◌};
ghost use Rattle.dns_header.specs.Header.{rcode_of};
ghost use Rattle.dns_header.specs.OptFields.{OptParts, opt_fields, extended_rcode};

use super::{Opt, OptHeader};
use crate::{Header, Record};
use dns_name::{Octets, OptRcode};
use std::marker::Model;

/// An OPT record. Its owner is the root.
#[derive(Debug, Drop)]
pub struct OptRecord<Octs: Octets> {
    header: OptHeader,
    opt: Opt<Octs>,
}

impl<Octs: Octets> Model for OptRecord<Octs> {
    ghost Value = { OptParts };

    ghost view = { λ found. record { fields = found.header; options = found.opt } };
}

impl<Octs: Octets> OptRecord<Octs> {
    /// Returns the OPT record with the fields of the record. Its owner is ignored.
    pub fn from_record<N: Drop>(rr: Record<N, Opt<Octs>>) -> Self
        ensures { result ≡ record { fields = opt_fields rr.class rr.ttl; options = rr.rdata } }
    {
        let header = OptHeader::from_class_and_ttl(rr.class(), rr.ttl());
        OptRecord {
            header,
            opt: rr.into_data(),
        }
    }

    /// Returns the fixed fields.
    pub fn header(&self) -> OptHeader
        ensures { result ≡ self.now.fields }
    {
        self.header
    }

    /// Returns how many octets of a UDP message the sender accepts (RFC 6891 6.2.3).
    pub fn udp_payload_size(&self) -> u16
        ensures { result ≡ self.now.fields.payload_size }
    {
        self.header.udp_payload_size()
    }

    /// Returns the response code of a message with this record: its high eight bits from here, the low four from the
    /// message's header (RFC 6891 6.1.3).
    pub fn rcode(&self, header: Header) -> OptRcode
        ensures { result ≡ extended_rcode self.now.fields (rcode_of header) }
    {
        self.header.rcode(header)
    }

    /// Returns the version of EDNS.
    pub fn version(&self) -> u8
        ensures { result ≡ self.now.fields.version }
    {
        self.header.version()
    }

    /// Returns whether the sender accepts DNSSEC records (DO; RFC 3225 3).
    pub fn dnssec_ok(&self) -> bool
        ensures { result ≡ self.now.fields.dnssec_ok }
    {
        self.header.dnssec_ok()
    }

    /// Returns the options.
    pub fn opt(&self) -> &Opt<Octs>
        ensures { result.now ≡ self.now.options }
    {
        &self.opt
    }
}
