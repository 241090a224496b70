//! Unknown data as text (RFC 3597 5).
ghost use Rattle.std.specs.Prelude.{◌≡◌, ◌≤◌, List, ℕ, [], false, length, IfOk, IfErr, OnErr};
ghost use Rattle.dns_scan.specs.Token.{IsEnding, SameNames};
ghost use Rattle.dns_scan.specs.UnknownData.{IsUnknownData, ScansUnknown};

use crate::{Scan, Scanner, ScannerError, base16};
use dns_name::{FromBuilder, Octets, Rtype, UnknownRecordData};

/// Returns the octets of unknown data whose marker `\#` has been taken: their number, and words of base 16 that are
/// joined before digits are paired.
///
/// Fails if the tokens left are no such data, and with `short_buf` if there is no room or no memory for it.
pub fn scan_unknown_octets<S: Scanner>(scanner: &mut S) -> Result<S::Octets, S::Error>
    ensures ok { IfOk result (λ octets. IsUnknownData (S.tokens scanner.old) (⟦<S::Octets as Octets>⟧.list octets) × (S.tokens scanner.new ≡ [])) }
    ensures fits { IfOk result (λ octets. length (⟦<S::Octets as Octets>⟧.list octets) ≤ 65535) }
    ensures err { IfErr result (λ error. S.Error.is_short error ≡ false → (octets : List ℕ) → IsUnknownData (S.tokens scanner.old) octets → ⊥) }
    ensures left { OnErr result (IsEnding (S.tokens scanner.new) (S.tokens scanner.old)) }
    ensures names { SameNames (S.names scanner.old) (S.names scanner.new) }
{
    let number = u16::scan(scanner)?;
    let octets = base16::scan_entry(scanner)?;
    if octets.octets().len() != usize::from(number) {
        return Err(S::Error::custom("another number of octets"));
    }
    Ok(octets)
}

/// Returns unknown data of this type, whose marker `\#` has been taken.
///
/// Fails if the tokens left are no such data, and with `short_buf` if there is no room or no memory for it.
pub fn scan_without_marker<S: Scanner>(
    rtype: Rtype,
    scanner: &mut S,
) -> Result<UnknownRecordData<S::Octets>, S::Error>
    ensures ok { IfOk result (λ rdata. (rdata.number ≡ rtype) × IsUnknownData (S.tokens scanner.old) rdata.octets × (S.tokens scanner.new ≡ [])) }
    ensures err { IfErr result (λ error. S.Error.is_short error ≡ false → (octets : List ℕ) → IsUnknownData (S.tokens scanner.old) octets → ⊥) }
    ensures left { OnErr result (IsEnding (S.tokens scanner.new) (S.tokens scanner.old)) }
    ensures names { SameNames (S.names scanner.old) (S.names scanner.new) }
{
    let octets = scan_unknown_octets(scanner)?;
    match UnknownRecordData::from_octets(rtype, octets) {
        Ok(rdata) => Ok(rdata),
        Err(_) => Err(S::Error::custom("too many octets")),
    }
}

/// Unknown data is a word for the type, the marker `\#`, the number of octets, and the octets.
impl<Octs: FromBuilder + Drop, S: Scanner<Octets = Octs>> Scan<S> for UnknownRecordData<Octs> {
    ghost scans = { λ scanner rdata left. ScansUnknown (S.tokens scanner) rdata left };

    fn scan(scanner: &mut S) -> Result<UnknownRecordData<Octs>, S::Error> {
        let rtype = Rtype::scan(scanner)?;
        if !scanner.scan_opt_unknown_marker()? {
            return Err(S::Error::custom("'\\#' expected"));
        }
        scan_without_marker(rtype, scanner)
    }
}
