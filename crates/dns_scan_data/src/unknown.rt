//! Scanning unknown data into octets.
ghost use Rattle.std.specs.Prelude.{◌≡◌, ◌≤◌, ◌++◌, List, [], ℕ, length, false, IfErr, OnErr, OnOk};
ghost use Rattle.dns_scan.specs.Token.{SameNames};
ghost use Rattle.dns_scan.specs.UnknownData.{IsUnknownData};

use crate::hex::scan_hex_into;
use dns_text::{Scan, Scanner, ScannerError};

/// Scans the octets of unknown data whose marker `\#` was taken, and appends them: their number, and then all words that
/// are left, joined to one text in base 16 (RFC 3597 5).
///
/// Fails with an error other than `short_buf` only if the tokens are no such data. Nothing is then appended.
pub fn scan_unknown_octets_into<S: Scanner>(
    scanner: &mut S,
    octets: &mut Vec<u8>,
) -> Result<(), S::Error>
    ensures ok { OnOk result ((content : List ℕ) × IsUnknownData (S.tokens scanner.old) content × (S.tokens scanner.new ≡ [])
        × (length content ≤ 65535) × (octets.new.items ≡ octets.old.items ++ content)) }
    ensures err { IfErr result (λ error. S.Error.is_short error ≡ false
        → (content : List ℕ) → IsUnknownData (S.tokens scanner.old) content → ⊥) }
    ensures same { OnErr result (octets.new.items ≡ octets.old.items) }
    ensures names { SameNames (S.names scanner.old) (S.names scanner.new) }
{
    let number = match u16::scan(scanner) {
        Ok(number) => number,
        Err(error) => return Err(error),
    };
    let len = octets.len();
    match scan_hex_into(scanner, octets) {
        Ok(()) => {
            if octets.len() - len != usize::from(number) {
                octets.truncate(len);
                return Err(S::Error::custom("another number of octets"));
            }
            Ok(())
        }
        Err(error) => {
            octets.truncate(len);
            Err(error)
        }
    }
}
