//! Numbers of records, types and classes as words, and names.
ghost use Rattle.std.specs.Prelude.{◌≡◌, ◌^◌, ◌∷◌, List, ℕ};
ghost use Rattle.dns_name.specs.Mnemonic.{number_spelled, type_read, class_read};
ghost use Rattle.dns_scan.specs.Scans.{ScansWord};
ghost use Rattle.dns_scan.specs.Token.{unquoted};

use super::numbers::spelled_u32;
use crate::{Scan, Scanner};
use dns_name::{Class, Name, Octets, Rtype, Serial, ToName, Ttl};

/// A serial number is digits alone.
impl<S: Scanner> Scan<S> for Serial {
    ghost scans = { λ scanner value left. ScansWord (number_spelled (2 ^ 32)) (S.tokens scanner) value left };

    fn scan(scanner: &mut S) -> Result<Serial, S::Error> {
        scanner.scan_ascii_str(read_serial)
    }
}

/// A time to live is its seconds, digits alone.
impl<S: Scanner> Scan<S> for Ttl {
    ghost scans = { λ scanner value left. ScansWord (number_spelled (2 ^ 32)) (S.tokens scanner) value left };

    fn scan(scanner: &mut S) -> Result<Ttl, S::Error> {
        scanner.scan_ascii_str(read_ttl)
    }
}

/// A type is a mnemonic, up to ASCII case, or `TYPE` and its number (RFC 3597 5).
impl<S: Scanner> Scan<S> for Rtype {
    ghost scans = { λ scanner value left. ScansWord type_read (S.tokens scanner) value left };

    fn scan(scanner: &mut S) -> Result<Rtype, S::Error> {
        scanner.scan_ascii_str(read_rtype)
    }
}

/// A class is a mnemonic, up to ASCII case, or `CLASS` and its number (RFC 3597 5).
impl<S: Scanner> Scan<S> for Class {
    ghost scans = { λ scanner value left. ScansWord class_read (S.tokens scanner) value left };

    fn scan(scanner: &mut S) -> Result<Class, S::Error> {
        scanner.scan_ascii_str(read_class)
    }
}

/// A name is an unquoted token that spells one at the scanner's place.
impl<Octs: Octets, S: Scanner<Name = Name<Octs>>> Scan<S> for Name<Octs> {
    ghost scans = { λ scanner name left. (text : List ℕ) × (S.tokens scanner ≡ unquoted text ∷ left) × S.names scanner text name };

    fn scan(scanner: &mut S) -> Result<Name<Octs>, S::Error> {
        scanner.scan_name()
    }
}

/// Returns the serial number that these digits spell, if they spell one.
fn read_serial(text: &str) -> Option<Serial>
    ensures { result ≡ number_spelled (2 ^ 32) text.now }
{
    text.parse().ok()
}

/// Returns the time to live of as many seconds as these digits spell, if they spell a number.
fn read_ttl(text: &str) -> Option<Ttl>
    ensures { result ≡ number_spelled (2 ^ 32) text.now }
{
    match spelled_u32(text) {
        Some(seconds) => Some(Ttl::from_secs(seconds)),
        None => None,
    }
}

/// Returns the type that the word stands for, if any.
fn read_rtype(text: &str) -> Option<Rtype>
    ensures { result ≡ type_read text.now }
{
    text.parse().ok()
}

/// Returns the class that the word stands for, if any.
fn read_class(text: &str) -> Option<Class>
    ensures { result ≡ class_read text.now }
{
    text.parse().ok()
}
