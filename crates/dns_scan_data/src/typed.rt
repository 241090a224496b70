//! Scanning data of a type into octets.
ghost use Rattle.std.specs.Prelude.{◌≡◌, Some, false, IfErr, OnErr, OnOk};
ghost use Rattle.dns_fields.specs.Fields.{kinds_of};
ghost use Rattle.dns_fields.specs.Scanned.{NoDataScans};
ghost use Rattle.dns_scan.specs.Token.{SameNames};
ghost use Rattle.dns_scan_data.specs.Appended.{AppendsTyped};

use crate::ScanRowInto;
use dns_name::{LongRecordData, Rtype};
use dns_text::{Scanner, ScannerError};

/// Scans the fields of data of the type from the first tokens, takes these, and appends the octets of the data, every name in
/// full. The caller guarantees that data of the type has the fields of the row. Tokens after the last field stay.
///
/// Fails with an error other than `short_buf` only if the tokens do not begin with data of the type of at most 65,535
/// octets. Nothing is then appended.
pub fn scan_row_into<S: Scanner, R: ScanRowInto<S>>(
    rtype: Rtype,
    scanner: &mut S,
    octets: &mut Vec<u8>,
) -> Result<(), S::Error>
    requires { kinds_of rtype ≡ Some R.kinds }
    ensures ok { OnOk result (AppendsTyped (S.names scanner.old) rtype (S.tokens scanner.old) (S.tokens scanner.new)
        octets.old.items octets.new.items) }
    ensures err { IfErr result (λ error. S.Error.is_short error ≡ false
        → NoDataScans (S.names scanner.old) rtype (S.tokens scanner.old)) }
    ensures same { OnErr result (octets.new.items ≡ octets.old.items) }
    ensures names { SameNames (S.names scanner.old) (S.names scanner.new) }
{
    let len = octets.len();
    match R::scan_fields_into(scanner, octets) {
        Ok(()) => {
            if octets.len() - len > 65535 {
                octets.truncate(len);
                return Err(S::Error::custom(LongRecordData.as_str()));
            }
            Ok(())
        }
        Err(error) => {
            octets.truncate(len);
            Err(error)
        }
    }
}
