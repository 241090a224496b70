//! Messages over octets.
ghost use Rattle.std.specs.Prelude.{◌≡◌, ◌≤◌, ◌<◌, ◌↔◌, length, IsOk, IfOk, IfErr};
ghost use Rattle.dns_sections.specs.Message.{held_by, octets_in, message_octets};

use crate::{Message, ShortMessage};
use dns_name::Octets;

impl<Octs: Octets> Message<Octs> {
    /// Returns the message with these octets. Fails with `ShortMessage` exactly if there are fewer than twelve.
    pub fn from_octets(octets: Octs) -> Result<Self, ShortMessage>
    where
        Octs: Drop,
        ensures ok { IfOk result (λ message. held_by message ≡ octets) }
        ensures enough { IsOk result ↔ (12 ≤ length (Octs.list octets)) }
    {
        if octets.octets().len() < 12 {
            return Err(ShortMessage);
        }
        Ok(Message { octets })
    }

    /// Returns the message with these octets. Fails exactly if there are fewer than twelve, and then returns them as
    /// the error.
    pub fn try_from_octets(octets: Octs) -> Result<Self, Octs>
        ensures ok { IfOk result (λ message. held_by message ≡ octets) }
        ensures enough { IsOk result ↔ (12 ≤ length (Octs.list octets)) }
        ensures back { IfErr result (λ refused. refused ≡ octets) }
    {
        if octets.octets().len() < 12 {
            return Err(octets);
        }
        Ok(Message { octets })
    }

    /// Returns what holds the octets.
    pub fn as_octets(&self) -> &Octs
        ensures { result.now ≡ held_by self.now }
    {
        &self.octets
    }

    /// Returns what holds the octets.
    pub fn into_octets(self) -> Octs
        ensures { result ≡ held_by self }
    {
        self.octets
    }

    /// Returns the octets of the message.
    pub fn as_slice(&self) -> &[u8]
        ensures octets { result.now ≡ octets_in Octs.list self.now }
        ensures header { 12 ≤ length (octets_in Octs.list self.now) }
    {
        self.octets.octets()
    }

    /// Returns the same message over a slice.
    pub fn for_slice(&self) -> Message<&[u8]>
        ensures { message_octets result ≡ octets_in Octs.list self.now }
    {
        Message {
            octets: self.octets.octets(),
        }
    }

    /// The same as `for_slice`.
    pub fn for_slice_ref(&self) -> Message<&[u8]>
        ensures { message_octets result ≡ octets_in Octs.list self.now }
    {
        self.for_slice()
    }
}

impl<'a> Message<&'a [u8]> {
    /// Returns the message with these octets. Fails with `ShortMessage` exactly if there are fewer than twelve.
    pub fn from_slice(slice: &'a [u8]) -> Result<Self, ShortMessage>
        ensures ok { IfOk result (λ message. message_octets message ≡ slice.now) }
        ensures enough { IsOk result ↔ (12 ≤ length slice.now) }
    {
        Message::from_octets(slice)
    }
}
