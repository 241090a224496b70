//! The class of a record.
ghost use Rattle.std.specs.Prelude.{◌≡◌, ◌+◌, ◌≤◌, ◌↔◌, take, length, IsOk, IfOk, OnOk, OnErr, IfErr, Some};
ghost use Rattle.std.specs.Int.{from_be_bytes, to_be_bytes, w16};
ghost use Rattle.std.specs.Option.{option_copied};
ghost use Rattle.std.specs.Result.{result_ok};
ghost use Rattle.dns_octets.specs.Parser.{GoesOn, octets_of, place_of, rest_of};
ghost use Rattle.dns_values.specs.Mnemonic.{class_read, class_written, rows_of, text_of, classes};

use crate::mnemonic::{self, Mnemonic};
use dns_octets::{AppendError, Compose, OctetsBuilder, ParseError, Parser};
use std::fmt;
use std::marker::Model;
use std::str::FromStr;
use thiserror::Error;

/// The class of a record (RFC 1035, section 3.2.4).
#[derive(Clone, Copy, Debug, PartialEq, Eq, PartialOrd, Ord, Hash)]
pub struct Class(u16);

impl Model for Class {
    ghost use Rattle.std.specs.Prelude.{ℕ};

    ghost Value = { ℕ };

    ghost view = { λ class. class.0 };

    ghost inverse = { λ number. record { 0 = number } };
}

impl Class {
    /// The Internet (RFC 1035).
    pub const IN: Class = Class(1);
    /// Chaos (RFC 1035).
    pub const CH: Class = Class(3);
    /// Hesiod (RFC 1035).
    pub const HS: Class = Class(4);

    /// Returns the class of this number.
    pub const fn from_int(number: u16) -> Self
        ensures { result ≡ number }
    {
        Class(number)
    }

    /// Returns the number of the class.
    pub const fn to_int(self) -> u16
        ensures { result ≡ self }
    {
        self.0
    }

    /// Parses a class, the high octet of its number first. Fails with `ShortInput` exactly if fewer
    /// than two octets are left. The parser then stays where it was.
    pub fn parse(parser: &mut Parser<'_>) -> Result<Self, ParseError>
        ensures ok { IfOk result (λ class. class ≡ from_be_bytes w16 (take 2 (rest_of parser.old))) }
        ensures place { OnOk result (GoesOn parser.old parser.new 2) }
        ensures enough { IsOk result ↔ (place_of parser.old + 2 ≤ length (octets_of parser.old)) }
        ensures short { IfErr result (λ e. e ≡ ParseError.ShortInput) }
        ensures err { OnErr result (parser.new ≡ parser.old) }
    {
        Ok(Class(parser.parse_u16_be()?))
    }

    /// Returns the class that a word stands for: its mnemonic, or `CLASS` and the number in digits,
    /// both up to ASCII case (RFC 3597, section 5). Returns None if there is none.
    pub fn from_bytes(word: &[u8]) -> Option<Self>
        ensures { result ≡ class_read word.now }
    {
        let number = mnemonic::number_read(mnemonics(), "CLASS", word)?;
        Some(Class::from_int(number))
    }

    /// Returns the mnemonic, if there is one.
    fn mnemonic(self) -> Option<&'static str>
        ensures { option_copied result ≡ text_of classes self }
    {
        mnemonic::text_of(mnemonics(), self.to_int())
    }
}

/// Composes the two octets of the number, the high octet first.
impl Compose for Class {
    ghost composed = { λ class. to_be_bytes w16 class };

    fn compose<Target: OctetsBuilder>(&self, target: &mut Target) -> Result<(), AppendError> {
        self.to_int().compose(target)
    }
}

/// Parses what `Class::from_bytes` does.
impl FromStr for Class {
    type Err = ClassFromStrError;

    ghost from_str_gives = { λ word result. result_ok result ≡ class_read word };

    fn from_str(word: &str) -> Result<Self, ClassFromStrError> {
        Class::from_bytes(word.as_bytes()).ok_or(ClassFromStrError)
    }
}

/// Writes the mnemonic, or `CLASS` and the number if it has none.
impl fmt::Display for Class {
    ghost output = { λ class. Some (class_written class) };

    #[tactic(auto, using(crate::proofs::Words::written_rules))]
    fn fmt<W: fmt::Write>(&self, f: &mut fmt::Formatter<W>) -> fmt::Result {
        match self.mnemonic() {
            Some(text) => f.write_str(text),
            None => write!(f, "CLASS{}", self.to_int()),
        }
    }
}

/// The word stands for no class.
#[derive(Clone, Copy, Debug, PartialEq, Eq, Error)]
#[error("unknown class")]
pub struct ClassFromStrError;

/// The classes that have a mnemonic.
#[rattlefmt::skip]
static MNEMONICS: [Mnemonic; 3] = [(Class::IN.0, "IN"), (Class::CH.0, "CH"), (Class::HS.0, "HS")];

/// The classes that have a mnemonic.
#[tactic(auto, unfolding(crate::specs::Mnemonic::classes))]
fn mnemonics() -> &'static [Mnemonic]
    ensures { rows_of result.now ≡ classes }
{
    &MNEMONICS
}
