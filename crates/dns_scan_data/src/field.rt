//! Scanning fields into octets.
ghost use Rattle.std.specs.Prelude.{◌≡◌, ◌++◌, List, ℕ, true, false, IfErr, IfNone, IfSome, OnErr, OnOk};
ghost use Rattle.std.specs.Net.Addr.{ipv6_segments};
ghost use Rattle.std.specs.Net.Grammar.{IsColonHex};
ghost use Rattle.dns_fields.specs.Scanned.{NoFieldScans};
ghost use Rattle.dns_scan.specs.Token.{SameNames};
ghost use Rattle.dns_scan_data.specs.Appended.{AppendsField, GoesOn};

use crate::colon_hex::colon_hex_in;
use dns_entry_scanner::WireScanner;
use dns_fields::{Compressible, HasField, ScanField, Tag, Uncompressed};
use dns_name::{FromBuilder, ToName};
use dns_text::{CharStr, Scanner, ScannerError};
use std::net::{Ipv4Addr, Ipv6Addr};

/// A field that is scanned into octets.
pub trait ScanFieldInto<S: Scanner>: HasField {
    /// Scans the field, takes its tokens, and appends its octets, every name in full.
    ///
    /// Fails with an error other than `short_buf` only if the tokens do not begin with such a field. It may then have
    /// appended a part of the field.
    fn scan_field_into(scanner: &mut S, octets: &mut Vec<u8>) -> Result<(), S::Error>
        ensures ok { OnOk result (AppendsField (S.names scanner.old) Self.kind (S.tokens scanner.old) (S.tokens scanner.new)
            octets.old.items octets.new.items) }
        ensures err { IfErr result (λ error. S.Error.is_short error ≡ false
            → NoFieldScans (S.names scanner.old) Self.kind (S.tokens scanner.old)) }
        ensures names { SameNames (S.names scanner.old) (S.names scanner.new) }
        ensures more { GoesOn octets.old.items octets.new.items };
}

impl<S: Scanner> ScanFieldInto<S> for u8 {
    fn scan_field_into(scanner: &mut S, octets: &mut Vec<u8>) -> Result<(), S::Error> {
        let number = match u8::scan_field(scanner) {
            Ok(number) => number,
            Err(error) => return Err(error),
        };
        match octets.push(number) {
            Ok(()) => Ok(()),
            Err(_) => Err(S::Error::short_buf()),
        }
    }
}

impl<S: Scanner> ScanFieldInto<S> for u16 {
    fn scan_field_into(scanner: &mut S, octets: &mut Vec<u8>) -> Result<(), S::Error> {
        let number = match u16::scan_field(scanner) {
            Ok(number) => number,
            Err(error) => return Err(error),
        };
        match append_two::<S>(octets, number.to_be_bytes()) {
            Ok(()) => Ok(()),
            Err(error) => Err(error),
        }
    }
}

impl<S: Scanner> ScanFieldInto<S> for u32 {
    fn scan_field_into(scanner: &mut S, octets: &mut Vec<u8>) -> Result<(), S::Error> {
        let number = match u32::scan_field(scanner) {
            Ok(number) => number,
            Err(error) => return Err(error),
        };
        match append_four::<S>(octets, number.to_be_bytes()) {
            Ok(()) => Ok(()),
            Err(error) => Err(error),
        }
    }
}

impl<S: Scanner> ScanFieldInto<S> for Ipv4Addr {
    fn scan_field_into(scanner: &mut S, octets: &mut Vec<u8>) -> Result<(), S::Error> {
        let address = match Ipv4Addr::scan_field(scanner) {
            Ok(address) => address,
            Err(error) => return Err(error),
        };
        match append_four::<S>(octets, address.octets()) {
            Ok(()) => Ok(()),
            Err(error) => Err(error),
        }
    }
}

impl<S: Scanner> ScanFieldInto<S> for Ipv6Addr {
    fn scan_field_into(scanner: &mut S, octets: &mut Vec<u8>) -> Result<(), S::Error> {
        let address = match scanner.scan_ascii_str(read_ipv6) {
            Ok(address) => address,
            Err(error) => return Err(error),
        };
        match octets.extend_from_slice(&address.octets()) {
            Ok(()) => Ok(()),
            Err(_) => Err(S::Error::short_buf()),
        }
    }
}

impl<N: ToName + Drop, S: WireScanner<Name = N>> ScanFieldInto<S> for Compressible<N> {
    #[tactic(auto, using(crate::proofs::Names::compressible_appended, crate::proofs::Names::no_compressible, crate::proofs::Names::name_gone))]
    fn scan_field_into(scanner: &mut S, octets: &mut Vec<u8>) -> Result<(), S::Error> {
        match scanner.scan_name_into(octets) {
            Ok(()) => Ok(()),
            Err(error) => Err(error),
        }
    }
}

impl<N: ToName + Drop, S: WireScanner<Name = N>> ScanFieldInto<S> for Uncompressed<N> {
    #[tactic(auto, using(crate::proofs::Names::uncompressed_appended, crate::proofs::Names::no_uncompressed, crate::proofs::Names::name_gone))]
    fn scan_field_into(scanner: &mut S, octets: &mut Vec<u8>) -> Result<(), S::Error> {
        match scanner.scan_name_into(octets) {
            Ok(()) => Ok(()),
            Err(error) => Err(error),
        }
    }
}

impl<Octs: FromBuilder + Drop, S: WireScanner<Octets = Octs>> ScanFieldInto<S> for CharStr<Octs> {
    #[tactic(auto, using(crate::proofs::Strings::no_string, crate::proofs::Strings::string_gone))]
    fn scan_field_into(scanner: &mut S, octets: &mut Vec<u8>) -> Result<(), S::Error> {
        match scanner.scan_charstr_into(octets) {
            Ok(()) => Ok(()),
            Err(error) => Err(error),
        }
    }
}

impl<Octs: FromBuilder + Drop, S: WireScanner<Octets = Octs>> ScanFieldInto<S> for Tag<Octs> {
    #[tactic(auto, using(crate::proofs::Strings::no_tag, crate::proofs::Strings::string_gone))]
    fn scan_field_into(scanner: &mut S, octets: &mut Vec<u8>) -> Result<(), S::Error> {
        match scanner.scan_charstr_into(octets) {
            Ok(()) => Ok(()),
            Err(error) => Err(error),
        }
    }
}

/// Returns the address that the text writes in groups of hexadecimal digits (RFC 4291 2.2).
fn read_ipv6(text: &str) -> Option<Ipv6Addr>
    ensures some { IfSome result (λ address. IsColonHex text.now (ipv6_segments address)) }
    ensures none { IfNone result ((segments : List ℕ) → IsColonHex text.now segments → ⊥) }
{
    colon_hex_in(text.as_bytes())
}

/// Appends two octets. Fails with `short_buf` if out of memory, and then appends nothing.
///
/// Room is made for both at once, so each takes a store, where a slice takes a call. It is inlined for the same reason.
#[inline(always)]
fn append_two<S: Scanner>(octets: &mut Vec<u8>, both: [u8; 2]) -> Result<(), S::Error>
    ensures ok { OnOk result (octets.new.items ≡ octets.old.items ++ both) }
    ensures err { IfErr result (λ error. S.Error.is_short error ≡ true) }
    ensures same { OnErr result (octets.new.items ≡ octets.old.items) }
{
    if octets.reserve(2).is_err() {
        return Err(S::Error::short_buf());
    }
    let [a, b] = both;
    octets.push_reserved(a);
    octets.push_reserved(b);
    Ok(())
}

/// Appends four octets, as `append_two` does two.
#[inline(always)]
fn append_four<S: Scanner>(octets: &mut Vec<u8>, all: [u8; 4]) -> Result<(), S::Error>
    ensures ok { OnOk result (octets.new.items ≡ octets.old.items ++ all) }
    ensures err { IfErr result (λ error. S.Error.is_short error ≡ true) }
    ensures same { OnErr result (octets.new.items ≡ octets.old.items) }
{
    if octets.reserve(4).is_err() {
        return Err(S::Error::short_buf());
    }
    let [a, b, c, d] = all;
    octets.push_reserved(a);
    octets.push_reserved(b);
    octets.push_reserved(c);
    octets.push_reserved(d);
    Ok(())
}
