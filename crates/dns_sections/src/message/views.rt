//! The header of a message.
ghost use Rattle.std.specs.Prelude.{◌≡◌, ◌↔◌, ◌++◌, take, drop, IsTrue};
ghost use Rattle.dns_header.specs.Header.{rcode_of};
ghost use Rattle.dns_header.specs.HeaderFields.{fields_of};
ghost use Rattle.dns_header.specs.HeaderCounts.{counts_of, counts_in};
ghost use Rattle.dns_sections.specs.Message.{held_by, octets_in};

use crate::Message;
use arrayvec::ArrayVec;
use dns_header::{Header, HeaderCounts, HeaderSection};
use dns_name::{Octets, Rcode};

impl<Octs: Octets> Message<Octs> {
    /// Returns the header without its counts.
    pub fn header(&self) -> Header
        ensures octets { result ≡ take 4 (octets_in Octs.list self.now) }
        ensures said { fields_of result ≡ fields_of (octets_in Octs.list self.now) }
    {
        Header::for_message_slice(self.as_slice())
    }

    /// Returns how many questions and records the header counts.
    pub fn header_counts(&self) -> HeaderCounts
        ensures octets { result ≡ take 8 (drop 4 (octets_in Octs.list self.now)) }
        ensures said { counts_of result ≡ counts_in (octets_in Octs.list self.now) }
    {
        HeaderCounts::for_message_slice(self.as_slice())
    }

    /// Returns the header with its counts.
    pub fn header_section(&self) -> HeaderSection
        ensures { result ≡ take 12 (octets_in Octs.list self.now) }
    {
        HeaderSection::for_message_slice(self.as_slice())
    }

    /// Returns whether the response code is NOERROR.
    pub fn no_error(&self) -> bool
        ensures { IsTrue result ↔ (rcode_of (octets_in Octs.list self.now) ≡ 0) }
    {
        self.header().rcode() == Rcode::NOERROR
    }

    /// Returns whether the response code is other than NOERROR.
    pub fn is_error(&self) -> bool
        ensures { IsTrue result ↔ (rcode_of (octets_in Octs.list self.now) ≡ 0 → ⊥) }
    {
        self.header().rcode() != Rcode::NOERROR
    }
}
