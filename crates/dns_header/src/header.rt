//! The first four octets of a message (RFC 1035 4.1.1).
ghost use Rattle.std.specs.Prelude.{◌≡◌, ◌==◌, ◌≤◌, ◌<◌, ◌%◌, ℕ, [], ◌∷◌, length, slice_index, take};
ghost use Rattle.std.specs.Int.{bit_at};
ghost use Rattle.dns_header.specs.Header.{id_of, is_response, opcode_of, recursion_desired, rcode_of};
ghost use Rattle.dns_header.specs.HeaderFields.{fields_of, is_authoritative, is_truncated, recursion_available, is_reserved, is_authentic, checking_disabled};
ghost use Rattle.dns_header.specs.HeaderBits.{SetsBit, ChangesBit, SetsOpcode, SetsRcode};
ghost use Rattle.dns_header.specs.Flags.{flags_in, with_flags};

mod flags;

use dns_name::{Opcode, Rcode};
pub use flags::{Flags, FlagsFromStrError};
use std::marker::Model;

/// The first four octets of a message: its header without the counts.
#[derive(Clone, Copy, Debug, PartialEq, Eq)]
pub struct Header {
    inner: [u8; 4],
}

impl Model for Header {
    ghost use Rattle.std.specs.Prelude.{ℕ, List};

    ghost Value = { List ℕ };

    ghost view = { λ header. header.inner };

    ghost inverse = { λ octets. record { inner = octets } };
}

impl Default for Header {
    fn default() -> Self
        ensures { result ≡ 0 ∷ 0 ∷ 0 ∷ 0 ∷ [] }
    {
        Header::new()
    }
}

impl Header {
    /// Returns a header with all bits clear.
    pub fn new() -> Self
        ensures { result ≡ 0 ∷ 0 ∷ 0 ∷ 0 ∷ [] }
    {
        Header { inner: [0; 4] }
    }

    /// Returns the header of a message. The slice must have at least four octets.
    pub fn for_message_slice(s: &[u8]) -> Header
        requires { 4 ≤ length s.now }
        ensures octets { result ≡ take 4 s.now }
        ensures said { fields_of result ≡ fields_of s.now }
    {
        Header {
            inner: [s[0], s[1], s[2], s[3]],
        }
    }

    /// Returns the four octets of the header.
    pub fn as_slice(&self) -> &[u8]
        ensures octets { result.now ≡ self.now }
        ensures four { length self.now ≡ 4 }
    {
        &self.inner
    }

    /// Returns the four octets of the header.
    pub(crate) fn octets(self) -> [u8; 4]
        ensures same { result ≡ self }
        ensures four { length self ≡ 4 }
        ensures each { (i : ℕ) → slice_index self i < 256 }
    {
        self.inner
    }

    /// Returns whether a bit of an octet is set. Bits are counted from the lowest.
    fn bit(self, place: usize, bit: u32) -> bool
        requires { (place < 4) × (bit < 8) }
        ensures { result ≡ (bit_at (slice_index self place) bit == 1) }
    {
        self.inner[place] >> bit & 1 == 1
    }

    /// Sets or clears a bit of an octet. Bits are counted from the lowest.
    fn set_bit(&mut self, place: usize, bit: u32, set: bool)
        requires { (place < 4) × (bit < 8) }
        ensures { ChangesBit place bit set self.old self.new }
    {
        self.inner[place] = with_bit(self.inner[place], bit, set);
    }
}

/// Returns the octet with a bit set or cleared. Bits are counted from the lowest.
fn with_bit(octet: u8, bit: u32, set: bool) -> u8
    requires { bit < 8 }
    ensures { SetsBit bit set octet result }
{
    if set {
        octet | 1 << bit
    } else {
        octet & !(1 << bit)
    }
}

/// Returns the octet with its opcode replaced by the low four bits of another.
fn with_opcode(octet: u8, opcode: u8) -> u8
    ensures { SetsOpcode (opcode % 16) octet result }
{
    octet / 128 * 128 + opcode % 16 * 8 + octet % 8
}

/// Returns the octet with its response code replaced.
fn with_rcode(octet: u8, rcode: u8) -> u8
    requires { rcode < 16 }
    ensures { SetsRcode rcode octet result }
{
    octet / 16 * 16 + rcode
}

/// Reading the fields.
impl Header {
    /// Returns the identifier, which a response copies from its query.
    pub fn id(self) -> u16
        ensures { result ≡ id_of self }
    {
        u16::from_be_bytes([self.inner[0], self.inner[1]])
    }

    /// Returns whether the message is a response (QR).
    pub fn qr(self) -> bool
        ensures { result ≡ is_response self }
    {
        self.bit(2, 7)
    }

    /// Returns the opcode, which is the kind of query.
    pub fn opcode(self) -> Opcode
        ensures { result ≡ opcode_of self }
    {
        Opcode::from_int(self.inner[2] / 8 % 16)
    }

    /// Returns whether the responding server is an authority for the name (AA).
    pub fn aa(self) -> bool
        ensures { result ≡ is_authoritative self }
    {
        self.bit(2, 2)
    }

    /// Returns whether the message was truncated (TC).
    pub fn tc(self) -> bool
        ensures { result ≡ is_truncated self }
    {
        self.bit(2, 1)
    }

    /// Returns whether the query asks for recursion (RD).
    pub fn rd(self) -> bool
        ensures { result ≡ recursion_desired self }
    {
        self.bit(2, 0)
    }

    /// Returns whether the server offers recursion (RA).
    pub fn ra(self) -> bool
        ensures { result ≡ recursion_available self }
    {
        self.bit(3, 7)
    }

    /// Returns the reserved bit (Z).
    pub fn z(self) -> bool
        ensures { result ≡ is_reserved self }
    {
        self.bit(3, 6)
    }

    /// Returns whether the server vouches that all data is authentic (AD).
    pub fn ad(self) -> bool
        ensures { result ≡ is_authentic self }
    {
        self.bit(3, 5)
    }

    /// Returns whether the query accepts data that is not authenticated (CD).
    pub fn cd(self) -> bool
        ensures { result ≡ checking_disabled self }
    {
        self.bit(3, 4)
    }

    /// Returns the response code.
    pub fn rcode(self) -> Rcode
        ensures { result ≡ rcode_of self }
    {
        Rcode::masked_from_int(self.inner[3])
    }

    /// Returns the one-bit flags, except Z.
    pub fn flags(self) -> Flags
        ensures { result ≡ flags_in (fields_of self) }
    {
        Flags {
            qr: self.qr(),
            aa: self.aa(),
            tc: self.tc(),
            rd: self.rd(),
            ra: self.ra(),
            ad: self.ad(),
            cd: self.cd(),
        }
    }
}

/// Each call changes the field that it names and nothing else.
impl Header {
    /// Sets the identifier, which a response copies from its query.
    pub fn set_id(&mut self, value: u16)
        ensures { fields_of self.new ≡ record (fields_of self.old) { id = value } }
    {
        let [high, low] = value.to_be_bytes();
        self.inner[0] = high;
        self.inner[1] = low;
    }

    /// Sets the opcode, to the low four bits of its number.
    pub fn set_opcode(&mut self, opcode: Opcode)
        ensures { fields_of self.new ≡ record (fields_of self.old) { opcode = opcode % 16 } }
    {
        self.inner[2] = with_opcode(self.inner[2], opcode.to_int());
    }

    /// Sets the response code.
    pub fn set_rcode(&mut self, rcode: Rcode)
        ensures { fields_of self.new ≡ record (fields_of self.old) { rcode = rcode } }
    {
        self.inner[3] = with_rcode(self.inner[3], rcode.to_int());
    }

    /// Sets whether the message is a response (QR).
    pub fn set_qr(&mut self, set: bool)
        ensures { fields_of self.new ≡ record (fields_of self.old) { qr = set } }
    {
        self.set_bit(2, 7, set);
    }

    /// Sets whether the responding server is an authority for the name (AA).
    pub fn set_aa(&mut self, set: bool)
        ensures { fields_of self.new ≡ record (fields_of self.old) { aa = set } }
    {
        self.set_bit(2, 2, set);
    }

    /// Sets whether the message was truncated (TC).
    pub fn set_tc(&mut self, set: bool)
        ensures { fields_of self.new ≡ record (fields_of self.old) { tc = set } }
    {
        self.set_bit(2, 1, set);
    }

    /// Sets whether the query asks for recursion (RD).
    pub fn set_rd(&mut self, set: bool)
        ensures { fields_of self.new ≡ record (fields_of self.old) { rd = set } }
    {
        self.set_bit(2, 0, set);
    }

    /// Sets whether the server offers recursion (RA).
    pub fn set_ra(&mut self, set: bool)
        ensures { fields_of self.new ≡ record (fields_of self.old) { ra = set } }
    {
        self.set_bit(3, 7, set);
    }

    /// Sets or clears the reserved bit (Z).
    pub fn set_z(&mut self, set: bool)
        ensures { fields_of self.new ≡ record (fields_of self.old) { z = set } }
    {
        self.set_bit(3, 6, set);
    }

    /// Sets whether the server vouches that all data is authentic (AD).
    pub fn set_ad(&mut self, set: bool)
        ensures { fields_of self.new ≡ record (fields_of self.old) { ad = set } }
    {
        self.set_bit(3, 5, set);
    }

    /// Sets whether the query accepts data that is not authenticated (CD).
    pub fn set_cd(&mut self, set: bool)
        ensures { fields_of self.new ≡ record (fields_of self.old) { cd = set } }
    {
        self.set_bit(3, 4, set);
    }
    /// Sets the one-bit flags, except Z.
    pub fn set_flags(&mut self, flags: Flags)
        ensures { fields_of self.new ≡ with_flags flags (fields_of self.old) }
    {
        self.set_qr(flags.qr);
        self.set_aa(flags.aa);
        self.set_tc(flags.tc);
        self.set_rd(flags.rd);
        self.set_ra(flags.ra);
        self.set_ad(flags.ad);
        self.set_cd(flags.cd);
    }
}
