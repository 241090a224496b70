//! Fields and rows that are read from the tokens of an entry (RFC 1035 5.1).
ghost use Rattle.std.specs.Prelude.{◌≡◌, ◌≤◌, ◌<◌, false, length, Some, IfOk, IfErr, IfSome, IfNone, OnErr};
ghost use Rattle.dns_scan.specs.Token.{IsEnding, SameNames};
ghost use Rattle.dns_fields.specs.Fields.{kinds_of, octets};
ghost use Rattle.dns_fields.specs.Scanned.{ScansField, ScansRow, ScansData, NoFieldScans, NoRowScans, NoDataScans};

mod dotted;
mod leaves;
mod rests;

use crate::{HasField, HasFields};
use dns_name::LongRecordData;
use dns_text::{Scanner, ScannerError};

/// A field that is read from tokens.
pub trait ScanField<S: Scanner>: HasField + Sized + Drop {
    /// Scans the field, and takes its tokens.
    ///
    /// Fails with an error other than `short_buf` only if the tokens begin with no such field. The tokens left are then the
    /// last of those left before.
    fn scan_field(scanner: &mut S) -> Result<Self, S::Error>
        ensures ok { IfOk result (λ value. ScansField (S.names scanner.old) (Self.field value) (S.tokens scanner.old)
            (S.tokens scanner.new)) }
        ensures err { IfErr result (λ error. S.Error.is_short error ≡ false
            → NoFieldScans (S.names scanner.old) Self.kind (S.tokens scanner.old)) }
        ensures left { OnErr result (IsEnding (S.tokens scanner.new) (S.tokens scanner.old)) }
        ensures names { SameNames (S.names scanner.old) (S.names scanner.new) };
}

/// A row that is read from tokens.
pub trait ScanRow<S: Scanner>: HasFields + Sized + Drop {
    /// Scans the fields, and takes their tokens. Fails as `scan_row` does, but not for their length.
    fn scan_fields(scanner: &mut S) -> Result<Self, S::Error>
        ensures ok { IfOk result (λ row. ScansRow (S.names scanner.old) (Self.fields row) (S.tokens scanner.old)
            (S.tokens scanner.new)) }
        ensures err { IfErr result (λ error. S.Error.is_short error ≡ false
            → NoRowScans (S.names scanner.old) Self.kinds (S.tokens scanner.old)) }
        ensures left { OnErr result (IsEnding (S.tokens scanner.new) (S.tokens scanner.old)) }
        ensures names { SameNames (S.names scanner.old) (S.names scanner.new) };
}

impl<S: Scanner> ScanRow<S> for () {
    fn scan_fields(scanner: &mut S) -> Result<Self, S::Error> {
        Ok(())
    }
}

impl<S: Scanner, A: ScanField<S>, B: ScanRow<S>> ScanRow<S> for (A, B) {
    fn scan_fields(scanner: &mut S) -> Result<Self, S::Error> {
        let first = A::scan_field(scanner)?;
        let others = B::scan_fields(scanner)?;
        Ok((first, others))
    }
}

/// Scans data of a type, as a row of its kinds, from the first tokens, and takes these. Tokens after the last field stay.
///
/// Fails with an error other than `short_buf` only if the tokens begin with no such data: also if its fields have more than
/// 65,535 octets, with `custom` by the text of `LongRecordData`. The tokens left are then the last of those left before.
pub fn scan_row<S: Scanner, R: ScanRow<S>, const RTYPE: u16>(scanner: &mut S) -> Result<R, S::Error>
    requires { kinds_of RTYPE ≡ Some R.kinds }
    ensures ok { IfOk result (λ row. ScansData (S.names scanner.old) RTYPE (R.fields row) (S.tokens scanner.old)
        (S.tokens scanner.new)) }
    ensures err { IfErr result (λ error. S.Error.is_short error ≡ false
        → NoDataScans (S.names scanner.old) RTYPE (S.tokens scanner.old)) }
    ensures left { OnErr result (IsEnding (S.tokens scanner.new) (S.tokens scanner.old)) }
    ensures names { SameNames (S.names scanner.old) (S.names scanner.new) }
{
    scan_row_of(RTYPE, scanner)
}

/// Scans data of a type that is given as a value, as `scan_row` does.
pub fn scan_row_of<S: Scanner, R: ScanRow<S>>(rtype: u16, scanner: &mut S) -> Result<R, S::Error>
    requires { kinds_of rtype ≡ Some R.kinds }
    ensures ok { IfOk result (λ row. ScansData (S.names scanner.old) rtype (R.fields row) (S.tokens scanner.old)
        (S.tokens scanner.new)) }
    ensures err { IfErr result (λ error. S.Error.is_short error ≡ false
        → NoDataScans (S.names scanner.old) rtype (S.tokens scanner.old)) }
    ensures left { OnErr result (IsEnding (S.tokens scanner.new) (S.tokens scanner.old)) }
    ensures names { SameNames (S.names scanner.old) (S.names scanner.new) }
{
    let row = R::scan_fields(scanner)?;
    match fitting(row) {
        Some(row) => Ok(row),
        None => Err(S::Error::custom(LongRecordData.as_str())),
    }
}

/// Returns the row if its fields fit into a record: they have at most 65,535 octets (RFC 1035 3.2.1).
fn fitting<R: HasFields + Drop>(row: R) -> Option<R>
    ensures same { IfSome result (λ it. it ≡ row) }
    ensures fits { IfSome result (λ _. length (octets (R.fields row)) ≤ 65535) }
    ensures none { IfNone result (65535 < length (octets (R.fields row))) }
{
    if row.fields_len().is_some() {
        Some(row)
    } else {
        None
    }
}
