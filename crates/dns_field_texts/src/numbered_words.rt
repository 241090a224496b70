//! Words for numbers of fields that have mnemonics: digits, or a mnemonic.
ghost use Rattle.std.specs.Prelude.{◌≡◌, ◌^◌};
ghost use Rattle.dns_values.specs.Mnemonic.{number_named, number_spelled, rows_of};
ghost use Rattle.dns_field_texts.specs.NumberedWords as of_words;

use crate::digits::as_digits;
use crate::type_words::{Mnemonic, number_named};

/// Returns the algorithm of DNSSEC that a word stands for: the digits of a number of 8 bits, or a mnemonic up to ASCII case
/// (RFC 4034 3.2 and A.1).
#[tactic(auto, unfolding(crate::specs::NumberedWords::algorithm_read))]
pub fn read_algorithm(word: &[u8]) -> Option<u8>
    ensures { result ≡ of_words.algorithm_read word.now }
{
    read_number8(word).or_else(|| named_algorithm(word))
}

/// Returns the type of certificate that a word stands for: the digits of a number of 16 bits, or a mnemonic up to ASCII case
/// (RFC 4398 2.1 and 2.2).
#[tactic(auto, unfolding(crate::specs::NumberedWords::certificate_type_read))]
pub fn read_certificate_type(word: &[u8]) -> Option<u16>
    ensures { result ≡ of_words.certificate_type_read word.now }
{
    read_number16(word).or_else(|| number_named(certificate_types(), word))
}

/// Returns the number of 8 bits that these digits spell.
#[tactic(auto, using(crate::proofs::ParsedNumbers::parsed_rules))]
fn read_number8(digits: &[u8]) -> Option<u8>
    ensures { result ≡ number_spelled (2 ^ 8) digits.now }
{
    as_digits(digits)?.parse().ok()
}

/// Returns the number of 16 bits that these digits spell.
#[tactic(auto, using(crate::proofs::ParsedNumbers::parsed_rules))]
fn read_number16(digits: &[u8]) -> Option<u16>
    ensures { result ≡ number_spelled (2 ^ 16) digits.now }
{
    as_digits(digits)?.parse().ok()
}

/// Returns the algorithm whose mnemonic is the word, up to ASCII case.
fn named_algorithm(word: &[u8]) -> Option<u8>
    ensures { result ≡ number_named of_words.algorithms word.now }
{
    let number = number_named(algorithms(), word)?;
    u8::try_from(number).ok()
}

/// The algorithms that have a mnemonic (RFC 4034 A.1, and IANA's registry), and how BIND writes three of them.
#[rattlefmt::skip]
static ALGORITHMS: [Mnemonic; 20] = [
    (0, "DELETE"),
    (1, "RSAMD5"),
    (2, "DH"),
    (3, "DSA"),
    (5, "RSASHA1"),
    (6, "DSA-NSEC3-SHA1"),
    (7, "RSASHA1-NSEC3-SHA1"),
    (8, "RSASHA256"),
    (10, "RSASHA512"),
    (12, "ECC-GOST"),
    (13, "ECDSAP256SHA256"),
    (14, "ECDSAP384SHA384"),
    (15, "ED25519"),
    (16, "ED448"),
    (252, "INDIRECT"),
    (253, "PRIVATEDNS"),
    (254, "PRIVATEOID"),
    (6, "NSEC3DSA"),
    (7, "NSEC3RSASHA1"),
    (12, "ECCGOST"),
];

/// The algorithms that have a mnemonic.
#[tactic(auto, unfolding(crate::specs::NumberedWords::algorithms))]
fn algorithms() -> &'static [Mnemonic]
    ensures { rows_of result.now ≡ of_words.algorithms }
{
    &ALGORITHMS
}

/// The types of certificates that have a mnemonic (RFC 4398 2.1).
#[rattlefmt::skip]
static CERTIFICATE_TYPES: [Mnemonic; 10] = [
    (1, "PKIX"),
    (2, "SPKI"),
    (3, "PGP"),
    (4, "IPKIX"),
    (5, "ISPKI"),
    (6, "IPGP"),
    (7, "ACPKIX"),
    (8, "IACPKIX"),
    (253, "URI"),
    (254, "OID"),
];

/// The types of certificates that have a mnemonic.
#[tactic(auto, unfolding(crate::specs::NumberedWords::certificate_types))]
fn certificate_types() -> &'static [Mnemonic]
    ensures { rows_of result.now ≡ of_words.certificate_types }
{
    &CERTIFICATE_TYPES
}
