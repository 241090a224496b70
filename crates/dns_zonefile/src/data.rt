//! Scanning data of any type into octets.
ghost use Rattle.std.specs.Prelude.{◌≡◌, ◌∷◌, false, IfErr, IfOk, OnErr, OnOk};
ghost use Rattle.dns_fields.specs.Scanned.{NoDataScans};
ghost use Rattle.dns_rdata.specs.Data.{IsUnmarked, NoAnyDataScans};
ghost use Rattle.dns_scan.specs.Token.{SameNames, marker};
ghost use Rattle.dns_scan_data.specs.Appended.{AppendsTyped};
ghost use Rattle.dns_zonefile.specs.AppendedData.{AppendsData};

use dns_entry_scanner::WireScanner;
use dns_name::{FromBuilder, Rtype, ToName};
use dns_rdata::with_types;
use dns_scan_data::{scan_row_into, scan_unknown_octets_into};
use dns_text::{Scanner, ScannerError};

/// Scans data of the type from the first tokens, takes these, and appends the octets of the data, every name in full
/// (RFC 1035 5.1). Returns whether it is unknown data.
///
/// If the first token is the unquoted `\#`, this is unknown data (RFC 3597 5). It takes all tokens, and need not have
/// the fields of the type. A type without fields has this form alone. Tokens after the last field stay.
///
/// Fails with an error other than `short_buf` only if the tokens do not begin with data of the type of at most 65,535
/// octets. Nothing is then appended.
pub(crate) fn scan_data_into<S: WireScanner>(
    rtype: Rtype,
    scanner: &mut S,
    octets: &mut Vec<u8>,
) -> Result<bool, S::Error>
where
    S::Name: Drop,
    S::Error: Drop,
    ensures ok { IfOk result (λ unknown. AppendsData (S.names scanner.old) rtype (S.tokens scanner.old) (S.tokens scanner.new)
        octets.old.items octets.new.items unknown) }
    ensures err { IfErr result (λ error. S.Error.is_short error ≡ false
        → NoAnyDataScans (S.names scanner.old) rtype (S.tokens scanner.old)) }
    ensures same { OnErr result (octets.new.items ≡ octets.old.items) }
    ensures names { SameNames (S.names scanner.old) (S.names scanner.new) }
{
    match scanner.scan_opt_unknown_marker() {
        Ok(true) => scan_unknown_into(rtype, scanner, octets),
        Ok(false) => scan_typed_into(rtype, scanner, octets),
        Err(error) => Err(error),
    }
}

/// Scans unknown data of the type after its marker.
fn scan_unknown_into<S: Scanner>(
    rtype: Rtype,
    scanner: &mut S,
    octets: &mut Vec<u8>,
) -> Result<bool, S::Error>
    ensures ok { IfOk result (λ unknown. AppendsData (S.names scanner.old) rtype (marker ∷ S.tokens scanner.old)
        (S.tokens scanner.new) octets.old.items octets.new.items unknown) }
    ensures err { IfErr result (λ error. S.Error.is_short error ≡ false
        → NoAnyDataScans (S.names scanner.old) rtype (marker ∷ S.tokens scanner.old)) }
    ensures same { OnErr result (octets.new.items ≡ octets.old.items) }
    ensures names { SameNames (S.names scanner.old) (S.names scanner.new) }
{
    match scan_unknown_octets_into(scanner, octets) {
        Ok(()) => Ok(true),
        Err(error) => Err(error),
    }
}

/// Scans the fields of data of the type.
fn scan_typed_into<S: WireScanner>(
    rtype: Rtype,
    scanner: &mut S,
    octets: &mut Vec<u8>,
) -> Result<bool, S::Error>
where
    S::Name: Drop,
    S::Error: Drop,
    requires { IsUnmarked (S.tokens scanner.old) }
    ensures ok { IfOk result (λ unknown. AppendsData (S.names scanner.old) rtype (S.tokens scanner.old) (S.tokens scanner.new)
        octets.old.items octets.new.items unknown) }
    ensures err { IfErr result (λ error. S.Error.is_short error ≡ false
        → NoAnyDataScans (S.names scanner.old) rtype (S.tokens scanner.old)) }
    ensures same { OnErr result (octets.new.items ≡ octets.old.items) }
    ensures names { SameNames (S.names scanner.old) (S.names scanner.new) }
{
    match scan_row_of_type(rtype, scanner, octets) {
        Ok(()) => Ok(false),
        Err(error) => Err(error),
    }
}

/// The arms of `scan_row_of_type`.
macro_rules! scanned_into {
    (($type:ident, $scanner:ident, $octets:ident, $S:ident) $($variant:ident = $rtype:ident: $row:ty,)*) => {
        match $type {
            $(Rtype::$rtype => scan_row_into::<$S, $row>($type, $scanner, $octets),)*
            _ => Err($S::Error::custom("'\\#' expected")),
        }
    };
}

/// Scans the row of the type. Fails if the type has none.
fn scan_row_of_type<N, Octs, S: WireScanner<Name = N, Octets = Octs>>(
    rtype: Rtype,
    scanner: &mut S,
    octets: &mut Vec<u8>,
) -> Result<(), S::Error>
where
    N: ToName + Drop,
    Octs: FromBuilder + Drop,
    S::Error: Drop,
    ensures ok { OnOk result (AppendsTyped (S.names scanner.old) rtype (S.tokens scanner.old) (S.tokens scanner.new)
        octets.old.items octets.new.items) }
    ensures err { IfErr result (λ error. S.Error.is_short error ≡ false
        → NoDataScans (S.names scanner.old) rtype (S.tokens scanner.old)) }
    ensures same { OnErr result (octets.new.items ≡ octets.old.items) }
    ensures names { SameNames (S.names scanner.old) (S.names scanner.new) }
{
    with_types!(scanned_into, rtype, scanner, octets, S)
}
