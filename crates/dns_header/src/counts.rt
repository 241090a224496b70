//! The counts of questions and records in a message (RFC 1035 4.1.1; in updates RFC 2136 2.2).
ghost use Rattle.std.specs.Prelude.{◌≡◌, ◌+◌, ◌-◌, ◌<◌, ◌≤◌, ◌↔◌, ℕ, [], ◌∷◌, length, take, drop, slice_index, IsErr, OnOk, OnErr};
ghost use Rattle.dns_octets.specs.Numbers.{number_at};
ghost use Rattle.dns_header.specs.HeaderCounts.{counts_of, counts_in, ChangesNumber};

use std::marker::Model;
use thiserror::Error;

/// How many questions, answers, authority and additional records a message has. The sections of an update have other
/// names.
#[derive(Clone, Copy, Debug, PartialEq, Eq)]
pub struct HeaderCounts {
    inner: [u8; 8],
}

impl Model for HeaderCounts {
    ghost use Rattle.std.specs.Prelude.{ℕ, List};

    ghost Value = { List ℕ };

    ghost view = { λ counts. counts.inner };

    ghost inverse = { λ octets. record { inner = octets } };
}

impl Default for HeaderCounts {
    fn default() -> Self
        ensures { result ≡ 0 ∷ 0 ∷ 0 ∷ 0 ∷ 0 ∷ 0 ∷ 0 ∷ 0 ∷ [] }
    {
        HeaderCounts::new()
    }
}

impl HeaderCounts {
    /// Returns counts of zero.
    pub fn new() -> Self
        ensures { result ≡ 0 ∷ 0 ∷ 0 ∷ 0 ∷ 0 ∷ 0 ∷ 0 ∷ 0 ∷ [] }
    {
        HeaderCounts { inner: [0; 8] }
    }

    /// Returns the counts of a message. The slice must have at least twelve octets.
    pub fn for_message_slice(message: &[u8]) -> Self
        requires { 12 ≤ length message.now }
        ensures octets { result ≡ take 8 (drop 4 message.now) }
        ensures said { counts_of result ≡ counts_in message.now }
    {
        let mut inner = [0; 8];
        inner.copy_from_slice(&message[4..12]);
        HeaderCounts { inner }
    }

    /// Returns the eight octets of the counts.
    pub fn as_slice(&self) -> &[u8]
        ensures octets { result.now ≡ self.now }
        ensures eight { length self.now ≡ 8 }
    {
        &self.inner
    }

    /// Replaces all counts.
    pub fn set(&mut self, counts: HeaderCounts)
        ensures { self.new ≡ counts }
    {
        *self = counts;
    }

    /// Returns the eight octets of the counts.
    pub(crate) fn octets(self) -> [u8; 8]
        ensures same { result ≡ self }
        ensures eight { length self ≡ 8 }
        ensures each { (i : ℕ) → slice_index self i < 256 }
    {
        self.inner
    }

    /// Returns the 16-bit number at a place.
    fn number(self, place: usize) -> u16
        requires { place < 7 }
        ensures { result ≡ number_at self place }
    {
        u16::from_be_bytes([self.inner[place], self.inner[place + 1]])
    }

    /// Sets the 16-bit number at a place.
    fn set_number(&mut self, place: usize, number: u16)
        requires { place < 7 }
        ensures { ChangesNumber place number self.old self.new }
    {
        let [high, low] = number.to_be_bytes();
        self.inner[place] = high;
        self.inner[place + 1] = low;
    }
}

/// Reading the counts.
impl HeaderCounts {
    /// Returns how many questions there are.
    pub fn qdcount(self) -> u16
        ensures { result ≡ (counts_of self).qd }
    {
        self.number(0)
    }

    /// Returns how many answers there are.
    pub fn ancount(self) -> u16
        ensures { result ≡ (counts_of self).an }
    {
        self.number(2)
    }

    /// Returns how many authority records there are.
    pub fn nscount(self) -> u16
        ensures { result ≡ (counts_of self).ns }
    {
        self.number(4)
    }

    /// Returns how many additional records there are.
    pub fn arcount(self) -> u16
        ensures { result ≡ (counts_of self).ar }
    {
        self.number(6)
    }

    /// Returns how many zones of an update there are.
    pub fn zocount(self) -> u16
        ensures { result ≡ (counts_of self).qd }
    {
        self.qdcount()
    }

    /// Returns how many prerequisites of an update there are.
    pub fn prcount(self) -> u16
        ensures { result ≡ (counts_of self).an }
    {
        self.ancount()
    }

    /// Returns how many changes of an update there are.
    pub fn upcount(self) -> u16
        ensures { result ≡ (counts_of self).ns }
    {
        self.nscount()
    }

    /// Returns how many additional records of an update there are.
    pub fn adcount(self) -> u16
        ensures { result ≡ (counts_of self).ar }
    {
        self.arcount()
    }
}

/// Each call changes the count that it names and no other.
impl HeaderCounts {
    /// Sets how many questions there are.
    pub fn set_qdcount(&mut self, value: u16)
        ensures { counts_of self.new ≡ record (counts_of self.old) { qd = value } }
    {
        self.set_number(0, value);
    }

    /// Sets how many answers there are.
    pub fn set_ancount(&mut self, value: u16)
        ensures { counts_of self.new ≡ record (counts_of self.old) { an = value } }
    {
        self.set_number(2, value);
    }

    /// Sets how many authority records there are.
    pub fn set_nscount(&mut self, value: u16)
        ensures { counts_of self.new ≡ record (counts_of self.old) { ns = value } }
    {
        self.set_number(4, value);
    }

    /// Sets how many additional records there are.
    pub fn set_arcount(&mut self, value: u16)
        ensures { counts_of self.new ≡ record (counts_of self.old) { ar = value } }
    {
        self.set_number(6, value);
    }

    /// Sets how many zones of an update there are.
    pub fn set_zocount(&mut self, value: u16)
        ensures { counts_of self.new ≡ record (counts_of self.old) { qd = value } }
    {
        self.set_qdcount(value);
    }

    /// Sets how many prerequisites of an update there are.
    pub fn set_prcount(&mut self, value: u16)
        ensures { counts_of self.new ≡ record (counts_of self.old) { an = value } }
    {
        self.set_ancount(value);
    }

    /// Sets how many changes of an update there are.
    pub fn set_upcount(&mut self, value: u16)
        ensures { counts_of self.new ≡ record (counts_of self.old) { ns = value } }
    {
        self.set_nscount(value);
    }

    /// Sets how many additional records of an update there are.
    pub fn set_adcount(&mut self, value: u16)
        ensures { counts_of self.new ≡ record (counts_of self.old) { ar = value } }
    {
        self.set_arcount(value);
    }

    /// Counts one question more. Fails, and changes nothing, exactly if there are 65,535 already.
    pub fn inc_qdcount(&mut self) -> Result<(), CountOverflow>
        ensures more { OnOk result (counts_of self.new ≡ record (counts_of self.old) { qd = (counts_of self.old).qd + 1 }) }
        ensures full { IsErr result ↔ ((counts_of self.old).qd ≡ 65535) }
        ensures err { OnErr result (self.new ≡ self.old) }
    {
        let more = self.qdcount().checked_add(1).ok_or(CountOverflow)?;
        self.set_qdcount(more);
        Ok(())
    }

    /// Counts one answer more. Fails, and changes nothing, exactly if there are 65,535 already.
    pub fn inc_ancount(&mut self) -> Result<(), CountOverflow>
        ensures more { OnOk result (counts_of self.new ≡ record (counts_of self.old) { an = (counts_of self.old).an + 1 }) }
        ensures full { IsErr result ↔ ((counts_of self.old).an ≡ 65535) }
        ensures err { OnErr result (self.new ≡ self.old) }
    {
        let more = self.ancount().checked_add(1).ok_or(CountOverflow)?;
        self.set_ancount(more);
        Ok(())
    }

    /// Counts one authority record more. Fails, and changes nothing, exactly if there are 65,535 already.
    pub fn inc_nscount(&mut self) -> Result<(), CountOverflow>
        ensures more { OnOk result (counts_of self.new ≡ record (counts_of self.old) { ns = (counts_of self.old).ns + 1 }) }
        ensures full { IsErr result ↔ ((counts_of self.old).ns ≡ 65535) }
        ensures err { OnErr result (self.new ≡ self.old) }
    {
        let more = self.nscount().checked_add(1).ok_or(CountOverflow)?;
        self.set_nscount(more);
        Ok(())
    }

    /// Counts one additional record more. Fails, and changes nothing, exactly if there are 65,535 already.
    pub fn inc_arcount(&mut self) -> Result<(), CountOverflow>
        ensures more { OnOk result (counts_of self.new ≡ record (counts_of self.old) { ar = (counts_of self.old).ar + 1 }) }
        ensures full { IsErr result ↔ ((counts_of self.old).ar ≡ 65535) }
        ensures err { OnErr result (self.new ≡ self.old) }
    {
        let more = self.arcount().checked_add(1).ok_or(CountOverflow)?;
        self.set_arcount(more);
        Ok(())
    }

    /// Counts one question less. There must be at least one.
    pub fn dec_qdcount(&mut self)
        requires { 0 < (counts_of self.old).qd }
        ensures { counts_of self.new ≡ record (counts_of self.old) { qd = (counts_of self.old).qd - 1 } }
    {
        self.set_qdcount(self.qdcount() - 1);
    }

    /// Counts one answer less. There must be at least one.
    pub fn dec_ancount(&mut self)
        requires { 0 < (counts_of self.old).an }
        ensures { counts_of self.new ≡ record (counts_of self.old) { an = (counts_of self.old).an - 1 } }
    {
        self.set_ancount(self.ancount() - 1);
    }

    /// Counts one authority record less. There must be at least one.
    pub fn dec_nscount(&mut self)
        requires { 0 < (counts_of self.old).ns }
        ensures { counts_of self.new ≡ record (counts_of self.old) { ns = (counts_of self.old).ns - 1 } }
    {
        self.set_nscount(self.nscount() - 1);
    }

    /// Counts one additional record less. There must be at least one.
    pub fn dec_arcount(&mut self)
        requires { 0 < (counts_of self.old).ar }
        ensures { counts_of self.new ≡ record (counts_of self.old) { ar = (counts_of self.old).ar - 1 } }
    {
        self.set_arcount(self.arcount() - 1);
    }
}

/// The section already has 65,535 questions or records.
#[derive(Clone, Copy, Debug, PartialEq, Eq, Error)]
#[error("increasing a header count lead to an overflow")]
pub struct CountOverflow;
