//! The header of a message with its counts (RFC 1035 4.1.1).
ghost use Rattle.std.specs.Prelude.{◌≡◌, ◌+◌, ◌≤◌, ◌↔◌, ◌++◌, length, take, drop, replicate, IsOk, IfOk, IfErr, OnOk, OnErr};
ghost use Rattle.dns_header.specs.HeaderFields.{fields_of};
ghost use Rattle.dns_header.specs.HeaderCounts.{counts_of, counts_in};
ghost use Rattle.dns_octets.specs.Parser.{GoesOn, octets_of, place_of, rest_of};

use crate::{Header, HeaderCounts};
use dns_name::{AppendError, Compose, OctetsBuilder, ParseError, Parser};
use std::marker::Model;

/// The first twelve octets of a message.
#[derive(Clone, Copy, Debug, PartialEq, Eq)]
pub struct HeaderSection {
    inner: [u8; 12],
}

impl Model for HeaderSection {
    ghost use Rattle.std.specs.Prelude.{ℕ, List};

    ghost Value = { List ℕ };

    ghost view = { λ section. section.inner };

    ghost inverse = { λ octets. record { inner = octets } };
}

impl Default for HeaderSection {
    fn default() -> Self
        ensures { result ≡ replicate 12 0 }
    {
        HeaderSection::new()
    }
}

impl HeaderSection {
    /// Returns a header with all bits clear, and counts of zero.
    pub fn new() -> Self
        ensures { result ≡ replicate 12 0 }
    {
        HeaderSection { inner: [0; 12] }
    }

    /// Returns the header section of a message. The slice must have at least twelve octets.
    pub fn for_message_slice(s: &[u8]) -> Self
        requires { 12 ≤ length s.now }
        ensures { result ≡ take 12 s.now }
    {
        let mut inner = [0; 12];
        inner.copy_from_slice(&s[..12]);
        HeaderSection { inner }
    }

    /// Returns the twelve octets.
    pub fn as_slice(&self) -> &[u8]
        ensures octets { result.now ≡ self.now }
        ensures twelve { length self.now ≡ 12 }
    {
        &self.inner
    }

    /// Returns the header.
    pub fn header(&self) -> Header
        ensures octets { result ≡ take 4 self.now }
        ensures said { fields_of result ≡ fields_of self.now }
    {
        Header::for_message_slice(&self.inner)
    }

    /// Returns the counts.
    pub fn counts(&self) -> HeaderCounts
        ensures octets { result ≡ drop 4 self.now }
        ensures said { counts_of result ≡ counts_in self.now }
    {
        HeaderCounts::for_message_slice(&self.inner)
    }

    /// Replaces the header; the counts stay.
    pub fn set_header(&mut self, header: Header)
        ensures { self.new ≡ header ++ drop 4 self.old }
    {
        self.inner[..4].copy_from_slice(header.as_slice());
    }

    /// Replaces the counts; the header stays.
    pub fn set_counts(&mut self, counts: HeaderCounts)
        ensures { self.new ≡ take 4 self.old ++ counts }
    {
        self.inner[4..].copy_from_slice(counts.as_slice());
    }

    /// Parses a header section. Fails with `ShortInput` exactly if fewer than twelve octets are left. The parser then
    /// stays where it is.
    pub fn parse(parser: &mut Parser<'_>) -> Result<Self, ParseError>
        ensures ok { IfOk result (λ section. section ≡ take 12 (rest_of parser.old)) }
        ensures place { OnOk result (GoesOn parser.old parser.new 12) }
        ensures enough { IsOk result ↔ (place_of parser.old + 12 ≤ length (octets_of parser.old)) }
        ensures short { IfErr result (λ e. e ≡ ParseError.ShortInput) }
        ensures err { OnErr result (parser.new ≡ parser.old) }
    {
        let octets = parser.parse_octets(12)?;
        Ok(HeaderSection::for_message_slice(octets))
    }
}

/// Writes the twelve octets.
impl Compose for HeaderSection {
    ghost composed = { λ section. section };

    fn compose<Target: OctetsBuilder>(&self, target: &mut Target) -> Result<(), AppendError> {
        target.append_slice(self.as_slice())
    }
}
