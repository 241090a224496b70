//! Words for types: mnemonics, or `TYPE` and the number (RFC 3597, section 5).
ghost use Rattle.std.specs.Prelude.{◌≡◌, ◌↔◌, ℕ, IsTrue, Some, map};
ghost use Rattle.std.specs.Char.{to_ascii_lowercase};
ghost use Rattle.std.specs.Option.{option_copied};
ghost use Rattle.dns_values.specs.Mnemonic.{number_named, text_of, rows_of};
ghost use Rattle.dns_field_texts.specs.TypeWords.{more_types, type_word_read, type_word_written};

use crate::frequent_types::frequent_type;
use dns_name::Rtype;
use std::fmt;
use std::marker::Model;

/// A number and its mnemonic.
pub(crate) type Mnemonic = (u16, &'static str);

/// Returns the type that a word stands for: its mnemonic, or `TYPE` and the number in digits, both up to ASCII case.
#[tactic(auto, unfolding(crate::specs::TypeWords::type_word_read))]
pub fn read_type(word: &[u8]) -> Option<Rtype>
    ensures { result ≡ type_word_read word.now }
{
    if let Some(rtype) = frequent_type(word) {
        return Some(rtype);
    }
    Rtype::from_bytes(word).or_else(|| more_type(word))
}

/// Returns the type of the table whose mnemonic is the word, up to ASCII case.
fn more_type(word: &[u8]) -> Option<Rtype>
    ensures { result ≡ number_named more_types word.now }
{
    let number = number_named(more_mnemonics(), word)?;
    Some(Rtype::from_int(number))
}

/// Returns the number whose mnemonic is the word, up to ASCII case.
#[tactic(auto, using(dns_values::proofs::Words::named_rules))]
pub(crate) fn number_named(table: &[Mnemonic], word: &[u8]) -> Option<u16>
    ensures { result ≡ number_named (rows_of table.now) word.now }
{
    for row in table {
        if is_named_by(word, row.1) {
            return Some(row.0);
        }
    }
    None
}

/// Returns whether the word is the mnemonic, up to ASCII case.
fn is_named_by(word: &[u8], mnemonic: &str) -> bool
    ensures { IsTrue result ↔ (map to_ascii_lowercase mnemonic.now ≡ map to_ascii_lowercase word.now) }
{
    mnemonic.as_bytes().eq_ignore_ascii_case(word)
}

/// Returns the mnemonic of a number.
#[tactic(auto, using(dns_values::proofs::Words::text_rules))]
fn mnemonic_of(table: &[Mnemonic], number: u16) -> Option<&'static str>
    ensures { option_copied result ≡ text_of (rows_of table.now) number }
{
    for row in table {
        if row.0 == number {
            return Some(row.1);
        }
    }
    None
}

/// What shows a type by its mnemonic, or by `TYPE` and the number if it has none.
#[derive(Debug, Drop)]
pub struct DisplayType(pub Rtype);

impl Model for DisplayType {
    ghost Value = { ℕ };

    ghost view = { λ shown. shown.0 };
}

impl DisplayType {
    /// Returns the mnemonic, if it is one that `Rtype` does not have.
    fn mnemonic(&self) -> Option<&'static str>
        ensures { option_copied result ≡ text_of more_types self.now }
    {
        mnemonic_of(more_mnemonics(), self.0.to_int())
    }
}

impl fmt::Display for DisplayType {
    ghost output = { λ rtype. Some (type_word_written rtype) };

    #[tactic(auto, using(crate::proofs::TypeWords::written_rules))]
    fn fmt<W: fmt::Write>(&self, f: &mut fmt::Formatter<W>) -> fmt::Result {
        match self.mnemonic() {
            Some(text) => f.write_str(text),
            None => write!(f, "{}", self.0),
        }
    }
}

/// The types that have a mnemonic and that `Rtype` has none for.
#[rattlefmt::skip]
static MORE_MNEMONICS: [Mnemonic; 53] = [
    (19, "X25"),
    (20, "ISDN"),
    (21, "RT"),
    (22, "NSAP"),
    (23, "NSAP-PTR"),
    (24, "SIG"),
    (25, "KEY"),
    (26, "PX"),
    (27, "GPOS"),
    (30, "NXT"),
    (31, "EID"),
    (32, "NIMLOC"),
    (34, "ATMA"),
    (37, "CERT"),
    (38, "A6"),
    (40, "SINK"),
    (42, "APL"),
    (45, "IPSECKEY"),
    (49, "DHCID"),
    (53, "SMIMEA"),
    (55, "HIP"),
    (56, "NINFO"),
    (57, "RKEY"),
    (58, "TALINK"),
    (61, "OPENPGPKEY"),
    (62, "CSYNC"),
    (66, "DSYNC"),
    (67, "HHIT"),
    (68, "BRID"),
    (100, "UINFO"),
    (101, "UID"),
    (102, "GID"),
    (103, "UNSPEC"),
    (104, "NID"),
    (105, "L32"),
    (106, "L64"),
    (107, "LP"),
    (108, "EUI48"),
    (109, "EUI64"),
    (128, "NXNAME"),
    (249, "TKEY"),
    (253, "MAILB"),
    (254, "MAILA"),
    (256, "URI"),
    (258, "AVC"),
    (259, "DOA"),
    (260, "AMTRELAY"),
    (261, "RESINFO"),
    (262, "WALLET"),
    (263, "CLA"),
    (264, "IPN"),
    (32768, "TA"),
    (32769, "DLV"),
];

/// The types that have a mnemonic and that `Rtype` has none for.
#[tactic(auto, unfolding(crate::specs::TypeWords::more_types))]
fn more_mnemonics() -> &'static [Mnemonic]
    ensures { rows_of result.now ≡ more_types }
{
    &MORE_MNEMONICS
}
