//! A parser: a place in octets that values are read from, one after another.
ghost use Rattle.std.specs.Prelude.{◌≡◌, ◌+◌, ◌-◌, ◌≤◌, ◌<◌, ◌↔◌, [], ◌∷◌, length, take, drop, IsOk, IfOk, OnOk, OnErr};

use crate::error::ShortInput;

/// A place in a slice of octets, from which values are parsed.
///
/// A call that fails leaves the parser as it was.
#[derive(Debug)]
pub struct Parser<'a> {
    octets: &'a [u8],
    place: usize,
    ghost within: { place ≤ length octets.now },
}

impl Clone for Parser<'_> {
    ghost is_clone = { λ parser copy. copy ≡ parser };

    fn clone(&self) -> Result<Self, std::alloc::AllocError> {
        Ok(*self)
    }
}

impl Copy for Parser<'_> {}

impl<'a> Parser<'a> {
    ghost use Rattle.dns_octets.specs.Parser.{GoesOn, octets_of, place_of, rest_of};
    ghost use Rattle.std.specs.Int.{from_be_bytes, to_be_bytes, w16, w32};

    /// Returns a parser at the first of the octets.
    pub fn from_ref(octets: &'a [u8]) -> Self
        ensures octets { octets_of result ≡ octets.now }
        ensures place { place_of result ≡ 0 }
    {
        Parser { octets, place: 0 }
    }

    /// Returns all octets, also those before the place.
    pub fn as_slice(&self) -> &'a [u8]
        ensures { result.now ≡ octets_of self.now }
    {
        self.octets
    }

    /// Returns the place: the number of octets before it.
    pub fn pos(&self) -> usize
        ensures { result ≡ place_of self.now }
    {
        self.place
    }

    /// Returns the number of all octets, also of those before the place.
    pub fn len(&self) -> usize
        ensures { result ≡ length (octets_of self.now) }
    {
        self.octets.len()
    }

    /// Returns the number of octets that are left.
    pub fn remaining(&self) -> usize
        ensures { result + place_of self.now ≡ length (octets_of self.now) }
    {
        self.octets.len() - self.place
    }

    /// Returns the next `len` octets and leaves them to be read. Fails exactly if fewer are left.
    pub fn peek(&self, len: usize) -> Result<&'a [u8], ShortInput>
        ensures ok { IfOk result (λ octets. octets.now ≡ take len (rest_of self.now)) }
        ensures enough { IsOk result ↔ (place_of self.now + len ≤ length (octets_of self.now)) }
    {
        if len > self.remaining() {
            return Err(ShortInput);
        }
        Ok(&self.octets[self.place..self.place + len])
    }

    /// Returns all octets that are left, and leaves them to be read.
    pub fn peek_all(&self) -> &'a [u8]
        ensures { result.now ≡ rest_of self.now }
    {
        &self.octets[self.place..]
    }

    /// Goes to the place `pos`. Fails exactly if `pos` is past the end of the octets.
    pub fn seek(&mut self, pos: usize) -> Result<(), ShortInput>
        ensures ok { OnOk result ((self.new.octets ≡ self.old.octets) × (place_of self.new ≡ pos)) }
        ensures enough { IsOk result ↔ (pos ≤ length (octets_of self.old)) }
        ensures err { OnErr result (self.new ≡ self.old) }
    {
        if pos > self.octets.len() {
            return Err(ShortInput);
        }
        self.place = pos;
        Ok(())
    }

    /// Skips `len` octets. Fails exactly if fewer are left.
    pub fn advance(&mut self, len: usize) -> Result<(), ShortInput>
        ensures ok { OnOk result (GoesOn self.old self.new len) }
        ensures enough { IsOk result ↔ (place_of self.old + len ≤ length (octets_of self.old)) }
        ensures err { OnErr result (self.new ≡ self.old) }
    {
        if self.remaining() < len {
            return Err(ShortInput);
        }
        self.place += len;
        Ok(())
    }

    /// Goes to the end of the octets.
    pub fn advance_to_end(&mut self)
        ensures octets { octets_of self.new ≡ octets_of self.old }
        ensures place { place_of self.new ≡ length (octets_of self.old) }
    {
        self.place = self.octets.len();
    }

    /// Reads the next `len` octets. Fails exactly if fewer are left.
    pub fn parse_octets(&mut self, len: usize) -> Result<&'a [u8], ShortInput>
        ensures ok { IfOk result (λ octets. octets.now ≡ take len (rest_of self.old)) }
        ensures place { OnOk result (GoesOn self.old self.new len) }
        ensures enough { IsOk result ↔ (place_of self.old + len ≤ length (octets_of self.old)) }
        ensures err { OnErr result (self.new ≡ self.old) }
    {
        let octets = self.peek(len)?;
        self.place += len;
        Ok(octets)
    }

    /// Fills `buf` with the next octets. Fails exactly if fewer are left than `buf` is long, and `buf` then stays as it
    /// was.
    pub fn parse_buf(&mut self, buf: &mut [u8]) -> Result<(), ShortInput>
        ensures ok { OnOk result (buf.new ≡ take (length buf.old) (rest_of self.old)) }
        ensures place { OnOk result (GoesOn self.old self.new (length buf.old)) }
        ensures enough { IsOk result ↔ (place_of self.old + length buf.old ≤ length (octets_of self.old)) }
        ensures err { OnErr result ((self.new ≡ self.old) × (buf.new ≡ buf.old)) }
    {
        let octets = self.parse_octets(buf.len())?;
        buf.copy_from_slice(octets);
        Ok(())
    }

    /// Returns a parser in the same octets and at the same place that ends `len` octets further on, and skips these
    /// octets. Fails exactly if fewer are left.
    pub fn parse_parser(&mut self, len: usize) -> Result<Parser<'a>, ShortInput>
        ensures octets { IfOk result (λ parser. octets_of parser ≡ take (place_of self.old + len) (octets_of self.old)) }
        ensures here { IfOk result (λ parser. place_of parser ≡ place_of self.old) }
        ensures place { OnOk result (GoesOn self.old self.new len) }
        ensures enough { IsOk result ↔ (place_of self.old + len ≤ length (octets_of self.old)) }
        ensures err { OnErr result (self.new ≡ self.old) }
    {
        if len > self.remaining() {
            return Err(ShortInput);
        }
        let place = self.place;
        self.place += len;
        Ok(Parser {
            octets: &self.octets[..place + len],
            place,
        })
    }

    /// Parses an octet. Fails exactly if none is left.
    pub fn parse_u8(&mut self) -> Result<u8, ShortInput>
        ensures ok { IfOk result (λ octet. octet ∷ [] ≡ take 1 (rest_of self.old)) }
        ensures place { OnOk result (GoesOn self.old self.new 1) }
        ensures enough { IsOk result ↔ (place_of self.old + 1 ≤ length (octets_of self.old)) }
        ensures err { OnErr result (self.new ≡ self.old) }
    {
        let octets = self.parse_octets(1)?;
        Ok(octets[0])
    }

    /// Parses a number of two octets, the high octet first. Fails exactly if fewer are left.
    pub fn parse_u16_be(&mut self) -> Result<u16, ShortInput>
        ensures ok { IfOk result (λ number. number ≡ from_be_bytes w16 (take 2 (rest_of self.old))) }
        ensures back { IfOk result (λ number. to_be_bytes w16 number ≡ take 2 (rest_of self.old)) }
        ensures place { OnOk result (GoesOn self.old self.new 2) }
        ensures enough { IsOk result ↔ (place_of self.old + 2 ≤ length (octets_of self.old)) }
        ensures err { OnErr result (self.new ≡ self.old) }
    {
        let octets = self.parse_octets(2)?;
        Ok(u16::from_be_bytes([octets[0], octets[1]]))
    }

    /// Parses a number of four octets, the high octet first. Fails exactly if fewer are left.
    pub fn parse_u32_be(&mut self) -> Result<u32, ShortInput>
        ensures ok { IfOk result (λ number. number ≡ from_be_bytes w32 (take 4 (rest_of self.old))) }
        ensures back { IfOk result (λ number. to_be_bytes w32 number ≡ take 4 (rest_of self.old)) }
        ensures place { OnOk result (GoesOn self.old self.new 4) }
        ensures enough { IsOk result ↔ (place_of self.old + 4 ≤ length (octets_of self.old)) }
        ensures err { OnErr result (self.new ≡ self.old) }
    {
        let octets = self.parse_octets(4)?;
        Ok(u32::from_be_bytes([octets[0], octets[1], octets[2], octets[3]]))
    }
}
