//! Serial numbers.
ghost use Rattle.std.specs.Prelude.{◌≡◌, ◌<◌, ◌≤◌, ◌+◌, ◌-◌, ◌%◌, ◌^◌, ◌↔◌, Some, pos, int_div, take, length, IsOk, IfOk, IfErr, OnOk, OnErr};
ghost use Rattle.std.specs.Fmt.{decimal};
ghost use Rattle.std.specs.Int.{from_be_bytes, to_be_bytes, int_rem_euclid, w32};
ghost use Rattle.std.specs.Ordering.{nat_cmp};
ghost use Rattle.std.specs.Result.{result_ok};
ghost use Rattle.dns_octets.specs.Parser.{GoesOn, octets_of, place_of, rest_of};
ghost use Rattle.dns_values.specs.Mnemonic.{number_spelled};
ghost use Rattle.dns_values.specs.Serial.{serial_add, serial_cmp};

use crate::canonical::CanonicalOrd;
use crate::mnemonic;
use dns_octets::{AppendError, Compose, OctetsBuilder, ParseError, Parser};
use jiff::Timestamp;
use std::cmp::Ordering;
use std::fmt;
use std::marker::Model;
use std::str::FromStr;
use thiserror::Error;

/// A serial number, which wraps around at 2^32 (RFC 1982).
#[derive(Clone, Copy, Debug, PartialEq, Eq, Hash)]
pub struct Serial(pub u32);

/// Half of the range.
const HALF: u32 = 2_147_483_648;

impl Model for Serial {
    ghost use Rattle.std.specs.Prelude.{ℕ};

    ghost Value = { ℕ };

    ghost view = { λ serial. serial.0 };

    ghost inverse = { λ number. record { 0 = number } };
}

impl Serial {
    /// The number of octets of a serial number in a message.
    pub const COMPOSE_LEN: u16 = 4;

    /// Returns the serial number of these octets, the high octet first.
    pub const fn from_be_bytes(octets: [u8; 4]) -> Self
        ensures { result ≡ from_be_bytes w32 octets }
    {
        Serial(u32::from_be_bytes(octets))
    }

    /// Returns the number.
    pub const fn into_int(self) -> u32
        ensures { result ≡ self }
    {
        self.0
    }

    /// Returns the serial number that is `other` later, modulo 2^32 (RFC 1982, section 3.1).
    /// `other` has to be below 2^31.
    pub fn add(self, other: u32) -> Self
        requires { other < 2 ^ 31 }
        ensures { result ≡ serial_add self other }
    {
        Serial(self.0.wrapping_add(other))
    }

    /// Compares two serial numbers. Returns None exactly if they are 2^31 apart (RFC 1982, section
    /// 3.2).
    #[tactic(auto, using(crate::proofs::Serials::serial_cmp_rules))]
    pub fn partial_cmp(&self, other: &Serial) -> Option<Ordering>
        ensures { result ≡ serial_cmp self.now other.now }
    {
        if self.0 == other.0 {
            return Some(Ordering::Equal);
        }
        if self.0 < other.0 {
            match (other.0 - self.0).cmp(&HALF) {
                Ordering::Less => Some(Ordering::Less),
                Ordering::Equal => None,
                Ordering::Greater => Some(Ordering::Greater),
            }
        } else {
            match (self.0 - other.0).cmp(&HALF) {
                Ordering::Less => Some(Ordering::Greater),
                Ordering::Equal => None,
                Ordering::Greater => Some(Ordering::Less),
            }
        }
    }

    /// Parses a serial number, the high octet first. Fails with `ShortInput` exactly if fewer than
    /// four octets are left. The parser then stays where it was.
    pub fn parse(parser: &mut Parser<'_>) -> Result<Self, ParseError>
        ensures ok { IfOk result (λ serial. serial ≡ from_be_bytes w32 (take 4 (rest_of parser.old))) }
        ensures place { OnOk result (GoesOn parser.old parser.new 4) }
        ensures enough { IsOk result ↔ (place_of parser.old + 4 ≤ length (octets_of parser.old)) }
        ensures short { IfErr result (λ e. e ≡ ParseError.ShortInput) }
        ensures err { OnErr result (parser.new ≡ parser.old) }
    {
        Ok(Serial(parser.parse_u32_be()?))
    }
}

/// Composes the four octets of the number, the high octet first.
impl Compose for Serial {
    ghost composed = { λ serial. to_be_bytes w32 serial };

    fn compose<Target: OctetsBuilder>(&self, target: &mut Target) -> Result<(), AppendError> {
        self.0.compose(target)
    }
}

/// The plain order of the numbers.
impl CanonicalOrd for Serial {
    ghost canonical = { nat_cmp };

    fn canonical_cmp(&self, other: &Serial) -> Ordering {
        self.0.cmp(&other.0)
    }
}

impl From<u32> for Serial {
    ghost from_gives = { λ number serial. serial ≡ number };

    fn from(number: u32) -> Serial {
        Serial(number)
    }
}

/// The second of the instant, modulo 2^32.
impl From<Timestamp> for Serial {
    ghost from_gives = { λ instant serial. pos serial ≡ int_rem_euclid (int_div instant.nanosecond (pos 1_000_000_000)) (pos (2 ^ 32)) };

    fn from(instant: Timestamp) -> Serial {
        Serial(instant.as_second().rem_euclid(1 << 32) as u32)
    }
}

/// Parses digits up to 2^32 - 1. Leading zeros are allowed, a sign is not.
impl FromStr for Serial {
    type Err = IllegalSignatureTime;

    ghost from_str_gives = { λ word result. result_ok result ≡ number_spelled (2 ^ 32) word };

    fn from_str(word: &str) -> Result<Self, IllegalSignatureTime> {
        match mnemonic::number_spelled(word.as_bytes()) {
            Some(number) => Ok(Serial::from(number)),
            None => Err(IllegalSignatureTime),
        }
    }
}

/// Writes the number in digits.
impl fmt::Display for Serial {
    ghost output = { λ serial. Some (decimal serial) };

    fn fmt<W: fmt::Write>(&self, f: &mut fmt::Formatter<W>) -> fmt::Result {
        write!(f, "{}", self.0)
    }
}

/// The text is no serial number.
#[derive(Clone, Copy, Debug, PartialEq, Eq, Error)]
#[error("illegal signature time")]
pub struct IllegalSignatureTime;
