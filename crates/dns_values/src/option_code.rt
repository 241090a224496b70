//! The codes of the options in an OPT record.
ghost use Rattle.std.specs.Prelude.{◌≡◌, ◌+◌, ◌≤◌, ◌↔◌, take, length, IsOk, IfOk, OnOk, OnErr, IfErr};
ghost use Rattle.std.specs.Int.{from_be_bytes, to_be_bytes, w16};
ghost use Rattle.dns_octets.specs.Parser.{GoesOn, octets_of, place_of, rest_of};

use dns_octets::{AppendError, Compose, OctetsBuilder, ParseError, Parser};
use std::marker::Model;

/// The code of an EDNS option (RFC 6891, section 6.1.2).
#[derive(Clone, Copy, Debug, PartialEq, Eq, PartialOrd, Ord, Hash)]
pub struct OptionCode(u16);

impl Model for OptionCode {
    ghost use Rattle.std.specs.Prelude.{ℕ};

    ghost Value = { ℕ };

    ghost view = { λ code. code.0 };

    ghost inverse = { λ number. record { 0 = number } };
}

impl OptionCode {
    /// Returns the code of this number.
    pub const fn from_int(number: u16) -> Self
        ensures { result ≡ number }
    {
        OptionCode(number)
    }

    /// Returns the number of the code.
    pub const fn to_int(self) -> u16
        ensures { result ≡ self }
    {
        self.0
    }

    /// Parses a code, the high octet of its number first. Fails with `ShortInput` exactly if fewer
    /// than two octets are left. The parser then stays where it was.
    pub fn parse(parser: &mut Parser<'_>) -> Result<Self, ParseError>
        ensures ok { IfOk result (λ code. code ≡ from_be_bytes w16 (take 2 (rest_of parser.old))) }
        ensures place { OnOk result (GoesOn parser.old parser.new 2) }
        ensures enough { IsOk result ↔ (place_of parser.old + 2 ≤ length (octets_of parser.old)) }
        ensures short { IfErr result (λ e. e ≡ ParseError.ShortInput) }
        ensures err { OnErr result (parser.new ≡ parser.old) }
    {
        Ok(OptionCode(parser.parse_u16_be()?))
    }
}

/// Composes the two octets of the number, the high octet first.
impl Compose for OptionCode {
    ghost composed = { λ code. to_be_bytes w16 code };

    fn compose<Target: OctetsBuilder>(&self, target: &mut Target) -> Result<(), AppendError> {
        self.to_int().compose(target)
    }
}
