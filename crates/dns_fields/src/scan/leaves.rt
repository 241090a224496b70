//! Fields that are scanned.
ghost use Rattle.std.specs.Prelude.{List, ℕ, IfSome, IfNone};
ghost use Rattle.std.specs.Net.Addr.{ipv4_octets, ipv6_segments};
ghost use Rattle.std.specs.Net.Grammar.{IsDotted, IsColonHex};

use super::ScanField;
use super::dotted::ipv4_in;
use crate::{Compressible, Tag, Uncompressed};
use dns_name::{FromBuilder, ToName};
use dns_text::{CharStr, Scan, Scanner};
use std::net::{Ipv4Addr, Ipv6Addr};

impl<S: Scanner> ScanField<S> for u8 {
    fn scan_field(scanner: &mut S) -> Result<Self, S::Error> {
        u8::scan(scanner)
    }
}

impl<S: Scanner> ScanField<S> for u16 {
    fn scan_field(scanner: &mut S) -> Result<Self, S::Error> {
        u16::scan(scanner)
    }
}

impl<S: Scanner> ScanField<S> for u32 {
    fn scan_field(scanner: &mut S) -> Result<Self, S::Error> {
        u32::scan(scanner)
    }
}

impl<S: Scanner> ScanField<S> for Ipv4Addr {
    fn scan_field(scanner: &mut S) -> Result<Self, S::Error> {
        scanner.scan_ascii_str(read_ipv4)
    }
}

impl<S: Scanner> ScanField<S> for Ipv6Addr {
    fn scan_field(scanner: &mut S) -> Result<Self, S::Error> {
        scanner.scan_ascii_str(read_ipv6)
    }
}

impl<N: ToName + Drop, S: Scanner<Name = N>> ScanField<S> for Compressible<N> {
    fn scan_field(scanner: &mut S) -> Result<Self, S::Error> {
        Ok(Compressible(scanner.scan_name()?))
    }
}

impl<N: ToName + Drop, S: Scanner<Name = N>> ScanField<S> for Uncompressed<N> {
    fn scan_field(scanner: &mut S) -> Result<Self, S::Error> {
        Ok(Uncompressed(scanner.scan_name()?))
    }
}

impl<Octs: FromBuilder + Drop, S: Scanner<Octets = Octs>> ScanField<S> for CharStr<Octs> {
    fn scan_field(scanner: &mut S) -> Result<Self, S::Error> {
        scanner.scan_charstr()
    }
}

impl<Octs: FromBuilder + Drop, S: Scanner<Octets = Octs>> ScanField<S> for Tag<Octs> {
    fn scan_field(scanner: &mut S) -> Result<Self, S::Error> {
        Ok(Tag(scanner.scan_charstr()?))
    }
}

/// The address that the text writes in four decimal numbers.
fn read_ipv4(text: &str) -> Option<Ipv4Addr>
    ensures some { IfSome result (λ address. IsDotted text.now (ipv4_octets address)) }
    ensures none { IfNone result ((octets : List ℕ) → IsDotted text.now octets → ⊥) }
{
    ipv4_in(text.as_bytes())
}

/// The address that the text writes in groups of hex digits (RFC 4291 2.2).
fn read_ipv6(text: &str) -> Option<Ipv6Addr>
    ensures some { IfSome result (λ address. IsColonHex text.now (ipv6_segments address)) }
    ensures none { IfNone result ((segments : List ℕ) → IsColonHex text.now segments → ⊥) }
{
    Ipv6Addr::parse_ascii(text.as_bytes()).ok()
}
