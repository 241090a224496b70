//! Fields and rows that are parsed from a message.
ghost use Rattle.std.specs.Prelude.{◌≡◌, ◌<◌, ◌≤◌, ◌↔◌, ◌∷◌, [], Some, ℕ, List, length, IfOk, OnOk, OnErr, IsErrOf};
ghost use Rattle.dns_octets.specs.Parser.{octets_of, place_of};
ghost use Rattle.dns_name.specs.RecordData.{IsAtEnd};
ghost use Rattle.dns_fields.specs.Fields.{kinds_of};
ghost use Rattle.dns_fields.specs.Reading.{ReadsField, ReadsFields, ReadsRow, IsSoleField, AreSoleFields, NoField, NoFields, NoRow, IsCutField, AreCutFields, IsCutRow, IsLongRow};
ghost use Rattle.dns_fields.specs.declared.read.error.ReadError.TheVariants.{ShortInput, LongRecordData};

mod error;
mod leaves;
mod rests;

use crate::{HasField, HasFields};
use dns_name::Parser;
pub use error::ReadError;

/// A field that is parsed from a message.
pub trait ReadField<'a>: HasField + Sized + Drop {
    /// Parses the field at the parser's place, and leaves the parser after it.
    ///
    /// Fails if no such field is there: with `ShortInput` exactly if the octets end too early for it, and never with
    /// `LongRecordData`. The parser then stays where it is.
    fn read_field(parser: &mut Parser<'a>) -> Result<Self, ReadError>
        ensures ok { IfOk result (λ value. ReadsField (octets_of parser.old) (place_of parser.old) (Self.field value)
            (place_of parser.new)) }
        ensures sole { IfOk result (λ value. IsSoleField (octets_of parser.old) (place_of parser.old)
            (Self.field value) (place_of parser.new)) }
        ensures same { octets_of parser.new ≡ octets_of parser.old }
        ensures err { OnErr result (NoField (octets_of parser.old) (place_of parser.old) Self.kind) }
        ensures short { IsErrOf result ShortInput ↔ IsCutField (octets_of parser.old) (place_of parser.old) Self.kind }
        ensures not_long { IsErrOf result LongRecordData → ⊥ }
        ensures stays { OnErr result (parser.new ≡ parser.old) };
}

/// A row that is parsed from a message.
pub trait ReadRow<'a>: HasFields + Sized + Drop {
    /// Parses the fields up to the end of the parser.
    ///
    /// Fails if no such fields are there, or more than they: with `ShortInput` exactly if the octets end too early for them,
    /// and never with `LongRecordData`.
    fn read_fields(parser: &mut Parser<'a>) -> Result<Self, ReadError>
        ensures ok { IfOk result (λ row. ReadsFields (octets_of parser.old) (place_of parser.old) (Self.fields row)) }
        ensures sole { IfOk result (λ row. AreSoleFields (octets_of parser.old) (place_of parser.old) (Self.fields row)) }
        ensures end { OnOk result (IsAtEnd parser.old parser.new) }
        ensures err { OnErr result (NoFields (octets_of parser.old) (place_of parser.old) Self.kinds) }
        ensures short { IsErrOf result ShortInput ↔ AreCutFields (octets_of parser.old) (place_of parser.old) Self.kinds }
        ensures not_long { IsErrOf result LongRecordData → ⊥ };
}

impl<'a> ReadRow<'a> for () {
    fn read_fields(parser: &mut Parser<'a>) -> Result<Self, ReadError> {
        if parser.remaining() > 0 {
            return Err(ReadError::TrailingData);
        }
        Ok(())
    }
}

impl<'a, A: ReadField<'a>, B: ReadRow<'a>> ReadRow<'a> for (A, B) {
    fn read_fields(parser: &mut Parser<'a>) -> Result<Self, ReadError> {
        let first = A::read_field(parser)?;
        let others = B::read_fields(parser)?;
        Ok((first, others))
    }
}

/// Parses data of a type, as a row of its kinds, up to the end of the parser.
///
/// Fails exactly if what is left is no such data: with `ShortInput` exactly if the octets end too early for it, and with
/// `LongRecordData` exactly if its fields are all there, with nothing after them, but have more than 65,535 octets with their
/// names in full. The parser then stays where it is.
pub fn parse_row<'a, R: ReadRow<'a>, const RTYPE: u16>(
    parser: &mut Parser<'a>,
) -> Result<R, ReadError>
    requires { kinds_of RTYPE ≡ Some R.kinds }
    ensures ok { IfOk result (λ row. ReadsRow RTYPE (octets_of parser.old) (place_of parser.old) (R.fields row)) }
    ensures end { OnOk result (IsAtEnd parser.old parser.new) }
    ensures no_data { OnErr result (NoRow RTYPE (octets_of parser.old) (place_of parser.old)) }
    ensures short { IsErrOf result ShortInput ↔ IsCutRow RTYPE (octets_of parser.old) (place_of parser.old) }
    ensures long { IsErrOf result LongRecordData ↔ IsLongRow RTYPE (octets_of parser.old) (place_of parser.old) }
    ensures err { OnErr result (parser.new ≡ parser.old) }
{
    read_row(RTYPE, parser)
}

/// Parses data of a type that is given as a value, as `parse_row` does.
pub fn read_row<'a, R: ReadRow<'a>>(rtype: u16, parser: &mut Parser<'a>) -> Result<R, ReadError>
    requires { kinds_of rtype ≡ Some R.kinds }
    ensures ok { IfOk result (λ row. ReadsRow rtype (octets_of parser.old) (place_of parser.old) (R.fields row)) }
    ensures end { OnOk result (IsAtEnd parser.old parser.new) }
    ensures no_data { OnErr result (NoRow rtype (octets_of parser.old) (place_of parser.old)) }
    ensures short { IsErrOf result ShortInput ↔ IsCutRow rtype (octets_of parser.old) (place_of parser.old) }
    ensures long { IsErrOf result LongRecordData ↔ IsLongRow rtype (octets_of parser.old) (place_of parser.old) }
    ensures err { OnErr result (parser.new ≡ parser.old) }
{
    let mut reader = *parser;
    let row = R::read_fields(&mut reader)?;
    if row.fields_len().is_none() {
        return Err(ReadError::LongRecordData);
    }
    *parser = reader;
    Ok(row)
}
