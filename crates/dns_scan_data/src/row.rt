//! Scanning rows of fields into octets.
ghost use Rattle.std.specs.Prelude.{◌≡◌, false, IfErr, OnOk};
ghost use Rattle.dns_fields.specs.Scanned.{NoRowScans};
ghost use Rattle.dns_scan.specs.Token.{SameNames};
ghost use Rattle.dns_scan_data.specs.Appended.{AppendsRow, GoesOn};

use crate::ScanFieldInto;
use crate::hex::scan_hex_into;
use dns_entry_scanner::WireScanner;
use dns_fields::{HasFields, Last, Rest16, Rest64, RestText, Row, ScanRow, Strings};
use dns_name::FromBuilder;
use dns_text::{Scanner, ScannerError};

/// A row that is scanned into octets.
pub trait ScanRowInto<S: Scanner>: HasFields {
    /// Scans the fields one after another, takes their tokens, and appends their octets, every name in full.
    ///
    /// Fails with an error other than `short_buf` only if the tokens do not begin with such fields. It may then have
    /// appended some of them.
    fn scan_fields_into(scanner: &mut S, octets: &mut Vec<u8>) -> Result<(), S::Error>
        ensures ok { OnOk result (AppendsRow (S.names scanner.old) Self.kinds (S.tokens scanner.old) (S.tokens scanner.new)
            octets.old.items octets.new.items) }
        ensures err { IfErr result (λ error. S.Error.is_short error ≡ false
            → NoRowScans (S.names scanner.old) Self.kinds (S.tokens scanner.old)) }
        ensures names { SameNames (S.names scanner.old) (S.names scanner.new) }
        ensures more { GoesOn octets.old.items octets.new.items };
}

impl<S: Scanner> ScanRowInto<S> for () {
    fn scan_fields_into(scanner: &mut S, octets: &mut Vec<u8>) -> Result<(), S::Error> {
        Ok(())
    }
}

impl<S: Scanner, A: ScanFieldInto<S>, B: ScanRowInto<S>> ScanRowInto<S> for (A, B) {
    fn scan_fields_into(scanner: &mut S, octets: &mut Vec<u8>) -> Result<(), S::Error> {
        match A::scan_field_into(scanner, octets) {
            Ok(()) => match B::scan_fields_into(scanner, octets) {
                Ok(()) => Ok(()),
                Err(error) => Err(error),
            },
            Err(error) => Err(error),
        }
    }
}

impl<Octs: FromBuilder + Drop, S: WireScanner<Octets = Octs>> ScanRowInto<S>
    for Last<RestText<Octs>> {
    #[tactic(auto, using(crate::proofs::Strings::text_gone))]
    fn scan_fields_into(scanner: &mut S, octets: &mut Vec<u8>) -> Result<(), S::Error> {
        match scanner.scan_octets_into(octets) {
            Ok(()) => Ok(()),
            Err(error) => Err(error),
        }
    }
}

impl<Octs: FromBuilder + Drop, S: Scanner<Octets = Octs>> ScanRowInto<S> for Last<Rest16<Octs>> {
    #[tactic(auto, using(crate::proofs::AppendedHex::hex_row))]
    fn scan_fields_into(scanner: &mut S, octets: &mut Vec<u8>) -> Result<(), S::Error> {
        match scan_hex_into(scanner, octets) {
            Ok(()) => Ok(()),
            Err(error) => Err(error),
        }
    }
}

impl<Octs: FromBuilder + Drop, S: Scanner<Octets = Octs>> ScanRowInto<S> for Last<Rest64<Octs>> {
    fn scan_fields_into(scanner: &mut S, octets: &mut Vec<u8>) -> Result<(), S::Error> {
        scan_and_append::<S, Last<Rest64<Octs>>>(scanner, octets)
    }
}

/// Each token is a string. There must be at least one.
impl<Octs: FromBuilder + Drop, S: WireScanner<Octets = Octs>> ScanRowInto<S>
    for Last<Strings<Octs>> {
    fn scan_fields_into(scanner: &mut S, octets: &mut Vec<u8>) -> Result<(), S::Error> {
        if !scanner.continues() {
            return Err(S::Error::end_of_entry());
        }
        match scanner.scan_charstr_entry_into(octets) {
            Ok(()) => Ok(()),
            Err(error) => Err(error),
        }
    }
}

/// Scans a row as a value and appends its octets.
fn scan_and_append<S: Scanner, R: Row + ScanRow<S>>(
    scanner: &mut S,
    octets: &mut Vec<u8>,
) -> Result<(), S::Error>
    ensures ok { OnOk result (AppendsRow (S.names scanner.old) R.kinds (S.tokens scanner.old) (S.tokens scanner.new)
        octets.old.items octets.new.items) }
    ensures err { IfErr result (λ error. S.Error.is_short error ≡ false
        → NoRowScans (S.names scanner.old) R.kinds (S.tokens scanner.old)) }
    ensures names { SameNames (S.names scanner.old) (S.names scanner.new) }
    ensures more { GoesOn octets.old.items octets.new.items }
{
    let row = match R::scan_fields(scanner) {
        Ok(row) => row,
        Err(error) => return Err(error),
    };
    match row.compose_fields(octets) {
        Ok(()) => Ok(()),
        Err(_) => Err(S::Error::short_buf()),
    }
}
