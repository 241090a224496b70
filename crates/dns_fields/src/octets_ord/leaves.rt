//! Numbers, addresses, strings and tags, and what octets begin with.
use super::FieldOctetsOrd;
use super::split::split_prefix;
use crate::Tag;
use dns_name::Octets;
use dns_text::CharStr;
use std::cmp::Ordering;
use std::net::{Ipv4Addr, Ipv6Addr};

impl FieldOctetsOrd for u8 {
    fn split_canonical_field<'a>(&self, octets: &'a [u8]) -> Result<&'a [u8], Ordering> {
        split_prefix(&self.to_be_bytes(), octets)
    }
}

impl FieldOctetsOrd for u16 {
    fn split_canonical_field<'a>(&self, octets: &'a [u8]) -> Result<&'a [u8], Ordering> {
        split_prefix(&self.to_be_bytes(), octets)
    }
}

impl FieldOctetsOrd for u32 {
    fn split_canonical_field<'a>(&self, octets: &'a [u8]) -> Result<&'a [u8], Ordering> {
        split_prefix(&self.to_be_bytes(), octets)
    }
}

impl FieldOctetsOrd for Ipv4Addr {
    fn split_canonical_field<'a>(&self, octets: &'a [u8]) -> Result<&'a [u8], Ordering> {
        split_prefix(&self.octets(), octets)
    }
}

impl FieldOctetsOrd for Ipv6Addr {
    fn split_canonical_field<'a>(&self, octets: &'a [u8]) -> Result<&'a [u8], Ordering> {
        split_prefix(&self.octets(), octets)
    }
}

/// With its case, after its length.
impl<Octs: Octets> FieldOctetsOrd for CharStr<Octs> {
    fn split_canonical_field<'a>(&self, octets: &'a [u8]) -> Result<&'a [u8], Ordering> {
        let behind = split_prefix(&[self.len() as u8], octets)?;
        split_prefix(self.as_slice(), behind)
    }
}

impl<Octs: Octets> FieldOctetsOrd for Tag<Octs> {
    fn split_canonical_field<'a>(&self, octets: &'a [u8]) -> Result<&'a [u8], Ordering> {
        self.0.split_canonical_field(octets)
    }
}
