//! Data of one type, as code for data of any type uses it.
//!
//! Each type implements these traits for itself, so that a call with its data passes no impl for each of its fields.
ghost use Rattle.std.specs.Prelude.{◌≡◌, List, Err, false, IfOk, IfErr, OnOk, OnErr};
ghost use Rattle.dns_fields.specs.Fields.{Field};
ghost use Rattle.dns_fields.specs.Held.{OneIsPast};
ghost use Rattle.dns_fields.specs.Reading.{NoRow, ReadsRow};
ghost use Rattle.dns_fields.specs.Scanned.{NoDataScans, ScansData};
ghost use Rattle.dns_name.specs.RecordData.{IsAtEnd};
ghost use Rattle.dns_octets.specs.Parser.{octets_of, place_of};
ghost use Rattle.dns_octets.specs.declared.error.AppendError.TheVariants.{ShortBuf, BadLength};
ghost use Rattle.dns_text.specs.Token.{IsEnding, SameNames};

use crate::DataType;
use dns_fields::{Row, RowOctetsOrd, ShowRow};
use dns_name::{AppendError, EmptyBuilder, FromBuilder, ParseError, Parser};
use dns_text::Scanner;
use std::alloc::Global;

/// Data of a type that has fields. All that its parsing, scanning and conversion say of it.
pub trait HasType {
    type Type: DataType;

    ghost held: { Self → List Field };
}

/// Data that is written, compared and printed as the row of its fields.
pub trait TypedData: HasType {
    type Row: Row + RowOctetsOrd + ShowRow;

    /// Returns the row of its fields.
    fn typed_row(&self) -> &Self::Row
        ensures { Self.Row.fields result.now ≡ Self.held self.now };
}

/// Data of a type, parsed from a message.
pub trait ParseData<'a>: HasType + Sized {
    /// Parses the data up to the end of the parser. Fails if what is left is no data of the type. The parser then stays where
    /// it is.
    fn parse_data(parser: &mut Parser<'a>) -> Result<Self, ParseError>
        ensures ok { IfOk result (λ rdata. ReadsRow Self.Type.number (octets_of parser.old) (place_of parser.old) (Self.held rdata)) }
        ensures end { OnOk result (IsAtEnd parser.old parser.new) }
        ensures no_data { OnErr result (NoRow Self.Type.number (octets_of parser.old) (place_of parser.old)) }
        ensures err { OnErr result (parser.new ≡ parser.old) };
}

/// Data of a type, scanned from tokens.
pub trait ScanData<S: Scanner>: HasType + Sized {
    /// Scans the data from the first tokens, and takes these. Tokens after the last field stay (RFC 1035 5.1).
    ///
    /// Fails with an error other than `short_buf` only if the tokens begin with no data of the type. The tokens left are then
    /// the last of those left before.
    fn scan_data(scanner: &mut S) -> Result<Self, S::Error>
        ensures ok { IfOk result (λ rdata. ScansData (S.names scanner.old) Self.Type.number (Self.held rdata)
            (S.tokens scanner.old) (S.tokens scanner.new)) }
        ensures err { IfErr result (λ error. S.Error.is_short error ≡ false
            → NoDataScans (S.names scanner.old) Self.Type.number (S.tokens scanner.old)) }
        ensures left { OnErr result (IsEnding (S.tokens scanner.new) (S.tokens scanner.old)) }
        ensures names { SameNames (S.names scanner.old) (S.names scanner.new) };
}

/// Data of a type, converted to data over octets of another kind.
pub trait FlattenData<Octs: FromBuilder>: HasType + Sized
where
    Octs::Builder: EmptyBuilder + Drop,
{
    type Flat: HasType;

    /// Returns the same fields over such octets, with flat names. Fails with `ShortBuf` only if these can't hold as many as a
    /// field has, and with `OutOfMemory` only if out of memory.
    fn flatten_data(self, alloc: Global) -> Result<Self::Flat, AppendError>
        ensures ok { IfOk result (λ flat. Self.Flat.held flat ≡ Self.held self) }
        ensures short { result ≡ Err ShortBuf → OneIsPast Octs.Builder.limit (Self.held self) }
        ensures not_bad { result ≡ Err BadLength → ⊥ };
}
