//! Data of any type, scanned from text.
ghost use Rattle.std.specs.Prelude.{◌≡◌, ◌∷◌, false, IfOk, IfErr, OnErr};
ghost use Rattle.dns_fields.specs.Scanned.{NoDataScans};
ghost use Rattle.dns_text.specs.Token.{IsEnding, SameNames, marker};
ghost use Rattle.dns_rdata.specs.Data.{IsUnmarked, NoAnyDataScans, ScansAnyData};
ghost use Rattle.dns_rdata.specs.ZoneData.{data_of};

use super::ZoneRecordData;
use dns_name::{FromBuilder, Octets, Rtype, ToName};
use dns_rr_data::ScanData;
use dns_text::{Scanner, ScannerError, scan_without_marker};

/// The arms of `scan_fields`.
macro_rules! scanned {
    (($type:ident, $scanner:ident, $S:ident) $($variant:ident = $rtype:ident: $row:ty,)*) => {
        match $type {
            $(Rtype::$rtype => held!($variant, crate::$variant::scan_data($scanner)),)*
            _ => Err($S::Error::custom("'\\#' expected")),
        }
    };
}

impl<Octs: FromBuilder + Drop, N: ToName + Drop> ZoneRecordData<Octs, N> {
    /// Scans data of the type from the first tokens, and takes these (RFC 1035 5.1). If the first one is the unquoted `\#`,
    /// this is unknown data of any type (RFC 3597 5), which takes all tokens and need not have the fields of the type; a type
    /// without fields has this form alone. Tokens after the last field stay.
    ///
    /// Fails with an error other than `short_buf` only if the tokens begin with no data of the type of at most 65,535 octets.
    /// The tokens left are then the last of those left before.
    pub fn scan<S: Scanner<Octets = Octs, Name = N>>(
        rtype: Rtype,
        scanner: &mut S,
    ) -> Result<Self, S::Error>
        ensures ok { IfOk result (λ rdata. ScansAnyData (S.names scanner.old) rtype (data_of rdata) (S.tokens scanner.old)
            (S.tokens scanner.new)) }
        ensures err { IfErr result (λ error. S.Error.is_short error ≡ false
            → NoAnyDataScans (S.names scanner.old) rtype (S.tokens scanner.old)) }
        ensures left { OnErr result (IsEnding (S.tokens scanner.new) (S.tokens scanner.old)) }
        ensures names { SameNames (S.names scanner.old) (S.names scanner.new) }
    {
        match scanner.scan_opt_unknown_marker() {
            Ok(true) => ZoneRecordData::scan_octets(rtype, scanner),
            Ok(false) => ZoneRecordData::scan_fields(rtype, scanner),
            Err(error) => Err(error),
        }
    }

    /// Scans unknown data of the type after its marker.
    fn scan_octets<S: Scanner<Octets = Octs, Name = N>>(
        rtype: Rtype,
        scanner: &mut S,
    ) -> Result<Self, S::Error>
        ensures ok { IfOk result (λ rdata. ScansAnyData (S.names scanner.old) rtype (data_of rdata)
            (marker ∷ S.tokens scanner.old) (S.tokens scanner.new)) }
        ensures err { IfErr result (λ error. S.Error.is_short error ≡ false
            → NoAnyDataScans (S.names scanner.old) rtype (marker ∷ S.tokens scanner.old)) }
        ensures left { OnErr result (IsEnding (S.tokens scanner.new) (S.tokens scanner.old)) }
        ensures names { SameNames (S.names scanner.old) (S.names scanner.new) }
    {
        match scan_without_marker(rtype, scanner) {
            Ok(unknown) => Ok(ZoneRecordData::Unknown(unknown)),
            Err(error) => Err(error),
        }
    }

    /// Scans the fields of data of the type, if it has some.
    fn scan_fields<S: Scanner<Octets = Octs, Name = N>>(
        rtype: Rtype,
        scanner: &mut S,
    ) -> Result<Self, S::Error>
        requires { IsUnmarked (S.tokens scanner.old) }
        ensures ok { IfOk result (λ rdata. ScansAnyData (S.names scanner.old) rtype (data_of rdata) (S.tokens scanner.old)
            (S.tokens scanner.new)) }
        ensures err { IfErr result (λ error. S.Error.is_short error ≡ false
            → NoDataScans (S.names scanner.old) rtype (S.tokens scanner.old)) }
        ensures left { OnErr result (IsEnding (S.tokens scanner.new) (S.tokens scanner.old)) }
        ensures names { SameNames (S.names scanner.old) (S.names scanner.new) }
    {
        with_types!(scanned, rtype, scanner, S)
    }
}
