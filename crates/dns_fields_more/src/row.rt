//! Data of further types in octets, every name in full.
ghost use Rattle.std.specs.Prelude.{◌≡◌, ◌↔◌, false, IsTrue, IfErr, OnErr, OnOk};
ghost use Rattle.dns_scan.specs.Token.{SameNames};
ghost use Rattle.dns_fields_more.specs.Text.{AppendsFurther, NoFurtherScans};
ghost use Rattle.dns_octets.specs.Parser.{rest_of};
ghost use Rattle.dns_fields_more.specs.Forms.{IsFurtherData};
ghost use Rattle.dns_fields_more.specs.Rows.{EndWell, StandAs};

use crate::scan::scan_forms;
use crate::{Form, Value, forms_of};
use dns_entry_scanner::EntryScanner;
use dns_name::{LongRecordData, Parser, Rtype};
use dns_text::ScannerError;

/// Returns whether the octets are data of the further type: a row of its fields, every name in full.
pub fn is_further_data(rtype: Rtype, octets: &[u8]) -> bool
    ensures { IsTrue result ↔ IsFurtherData rtype octets.now }
{
    let Some(forms) = forms_of(rtype) else {
        return false;
    };
    octets.len() <= 65535 && are_fields(forms, Parser::from_ref(octets))
}

/// Scans data of the further type from the first tokens, takes these, and appends the octets of the data, every name in full
/// (RFC 1035 5.1). Tokens after the last field stay.
///
/// Fails with an error other than `short_buf` only if the tokens do not begin with data of the type of at most 65,535
/// octets. Nothing is then appended.
pub fn scan_further_into<S: EntryScanner>(
    rtype: Rtype,
    scanner: &mut S,
    octets: &mut Vec<u8>,
) -> Result<(), S::Error>
    ensures ok { OnOk result (AppendsFurther (S.names scanner.old) rtype (S.tokens scanner.old) (S.tokens scanner.new)
        octets.old.items octets.new.items) }
    ensures err { IfErr result (λ error. S.Error.is_short error ≡ false
        → NoFurtherScans (S.names scanner.old) rtype (S.tokens scanner.old)) }
    ensures same { OnErr result (octets.new.items ≡ octets.old.items) }
    ensures names { SameNames (S.names scanner.old) (S.names scanner.new) }
{
    let Some(forms) = forms_of(rtype) else {
        return Err(S::Error::custom("no further type"));
    };
    let len = octets.len();
    match scan_forms(forms, scanner, octets) {
        Ok(()) => {
            if octets.len() - len > 65535 {
                octets.truncate(len);
                return Err(S::Error::custom(LongRecordData.as_str()));
            }
            Ok(())
        }
        Err(error) => {
            octets.truncate(len);
            Err(error)
        }
    }
}

/// Returns whether what is left of the octets are fields of the forms, one after another.
fn are_fields(forms: &[Form], mut parser: Parser<'_>) -> bool
    requires { EndWell forms.now }
    ensures { IsTrue result ↔ StandAs forms.now (rest_of parser.entry) }
{
    let Some((form, others)) = forms.split_first() else {
        return parser.remaining() == 0;
    };
    match Value::parse(*form, &mut parser) {
        Ok(_) => are_fields(others, parser),
        Err(_) => false,
    }
}
