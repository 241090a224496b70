//! Record data of a type, held as the row of its fields.
ghost use Rattle.std.specs.Prelude.{◌≡◌, ◌==◌, ◌↔◌, List, false, Err, IsOk, IsErrOf, IfOk, IfErr, OnOk, OnErr, Some};
ghost use Rattle.std.specs.Ordering.{as_partial_cmp};
ghost use Rattle.std.proofs.Common.{refl};
ghost use Rattle.dns_fields.specs.Alike.{keys, rows_eq, rows_cmp, canonical_rows_cmp};
ghost use Rattle.dns_fields.specs.AlikeLaws.{rows_equivalent, rows_partly_equivalent, rows_total, rows_ties, rows_order, rows_alike};
ghost use Rattle.dns_fields.specs.Fields.{Field, canonical_octets};
ghost use Rattle.dns_fields.specs.Held.{FitsRecord, OneIsPast, hold_octets};
ghost use Rattle.dns_fields.specs.Reading.{ReadsRow, NoRow, IsCutRow};
ghost use Rattle.dns_fields.specs.Scanned.{ScansData, NoDataScans};
ghost use Rattle.dns_fields.specs.Shown.{data_pieces};
ghost use Rattle.dns_fields.specs.Written.{written_parts};
ghost use Rattle.dns_name.specs.RecordData.{IsAtEnd};
ghost use Rattle.dns_octets.specs.declared.error.AppendError.TheVariants.{ShortBuf, BadLength};
ghost use Rattle.dns_octets.specs.declared.error.ParseError.TheVariants.{ShortInput};
ghost use Rattle.dns_octets.specs.Parser.{octets_of, place_of};
ghost use Rattle.dns_text.specs.Token.{IsEnding, SameNames};
ghost use Rattle.dns_text.specs.Document.{document_text};
ghost use Rattle.dns_text.specs.Document.Layout.{Simple};
ghost use Rattle.dns_text.specs.Documents.{block_of};

use crate::{DataType, RowOf};
use dns_fields::{
    CanonicalOctetsOrd, ConvertRow, HasFields, OverOctets, ReadRow, Row, RowOctetsOrd, ScanRow,
    ShowRow, canonical_row_cmp_octets, compose_canonical_row, compose_row, read_row, row_len,
    scan_row_of, show_row,
};
use dns_name::{
    AppendError, CanonicalOrd, ComposeRecordData, Composer, EmptyBuilder, FlattenInto, FromBuilder,
    OctetsFrom, ParseError, ParseRecordData, Parser, RecordData, Rtype,
};
use dns_text::{DisplayKind, Formatter, Scanner, ZonefileFmt};
use std::alloc::Global;
use std::cmp::Ordering;
use std::fmt;
use std::hash::{Hash, Hasher};
use std::marker::{Model, PhantomData};

/// Data of the type that `T` stands for, as a row of fields.
///
/// A contract sees it as its row. A row with a field of any length has at most 65,535 octets.
#[derive(Debug, Drop)]
pub struct RowData<T, R: HasFields> {
    pub(crate) row: R,
    pub(crate) rtype: PhantomData<T>,
}

impl<T, R: HasFields> Model for RowData<T, R> {
    ghost Value = { List Field };

    ghost view = { λ rdata. R.fields rdata.row };

    ghost invariant = { λ rdata. FitsRecord (R.fields rdata.row) };
}

impl<T, R: HasFields> RowData<T, R> {
    /// Returns the row.
    pub fn as_row(&self) -> &R
        ensures { R.fields result.now ≡ self.now }
    {
        &self.row
    }
}

impl<T: DataType, R: RowOf<T>> RowData<T, R> {
    /// Parses the data up to the end of the parser.
    ///
    /// Fails if what is left is no data of the type, and with `ShortInput` exactly if the octets end too early for it. The
    /// parser then stays where it is.
    pub fn parse<'a>(parser: &mut Parser<'a>) -> Result<Self, ParseError>
    where
        R: ReadRow<'a>,
        ensures ok { IfOk result (λ rdata. ReadsRow T.number (octets_of parser.old) (place_of parser.old) rdata) }
        ensures end { OnOk result (IsAtEnd parser.old parser.new) }
        ensures no_data { OnErr result (NoRow T.number (octets_of parser.old) (place_of parser.old)) }
        ensures short { IsErrOf result ShortInput ↔ IsCutRow T.number (octets_of parser.old) (place_of parser.old) }
        ensures err { OnErr result (parser.new ≡ parser.old) }
    {
        Ok(RowData {
            row: read_row(T::number(), parser)?,
            rtype: PhantomData,
        })
    }

    /// Scans the data from the first tokens, and takes these. Tokens after the last field stay (RFC 1035 5.1).
    ///
    /// Fails with an error other than `short_buf` only if the tokens begin with no data of the type. The tokens left are then
    /// the last of those left before.
    pub fn scan<S: Scanner>(scanner: &mut S) -> Result<Self, S::Error>
    where
        R: ScanRow<S>,
        ensures ok { IfOk result (λ rdata. ScansData (S.names scanner.old) T.number rdata (S.tokens scanner.old)
            (S.tokens scanner.new)) }
        ensures err { IfErr result (λ error. S.Error.is_short error ≡ false
            → NoDataScans (S.names scanner.old) T.number (S.tokens scanner.old)) }
        ensures left { OnErr result (IsEnding (S.tokens scanner.new) (S.tokens scanner.old)) }
        ensures names { SameNames (S.names scanner.old) (S.names scanner.new) }
    {
        match scan_row_of(T::number(), scanner) {
            Ok(row) => Ok(RowData {
                row,
                rtype: PhantomData,
            }),
            Err(error) => Err(error),
        }
    }
}

/// Takes this type alone.
impl<'a, T: DataType, R: RowOf<T> + ReadRow<'a>> ParseRecordData<'a> for RowData<T, R> {
    ghost takes = { λ number. number == T.number };

    ghost reads = { λ message place number rdata. ReadsRow number message place rdata };

    fn parse_rdata(rtype: Rtype, parser: &mut Parser<'a>) -> Result<Option<Self>, ParseError> {
        if rtype.to_int() != T::number() {
            return Ok(None);
        }
        Ok(Some(RowData::parse(parser)?))
    }
}

/// Returns the same fields over other octets. Fails with `ShortBuf` only if these can't hold as many as a field has, and with
/// `OutOfMemory` only if out of memory. Data that is numbers and addresses never fails.
impl<T, A, B> OctetsFrom<RowData<T, A>> for RowData<T, B>
where
    A: ConvertRow<B, B::Octets> + Drop,
    B: OverOctets,
    <B::Octets as FromBuilder>::Builder: EmptyBuilder + Drop,
{
    ghost octets_from_gives = { λ source result. IfOk result (λ rdata. rdata ≡ source)
        × (result ≡ Err ShortBuf → OneIsPast B.Octets.Builder.limit source)
        × (result ≡ Err BadLength → ⊥)
        × (hold_octets source ≡ false → IsOk result) };

    fn try_octets_from(alloc: Global, source: RowData<T, A>) -> Result<Self, AppendError> {
        Ok(RowData {
            row: ConvertRow::<_, B::Octets>::convert_fields(&source.row, alloc)?,
            rtype: PhantomData,
        })
    }
}

/// Returns the same fields, with flat names.
impl<T, A, B> FlattenInto<RowData<T, B>> for RowData<T, A>
where
    A: ConvertRow<B, B::Octets> + Drop,
    B: OverOctets,
    <B::Octets as FromBuilder>::Builder: EmptyBuilder + Drop,
{
    ghost flattens = { λ rdata flat. flat ≡ rdata };

    ghost is_long = { OneIsPast B.Octets.Builder.limit };

    fn try_flatten_into(self, alloc: Global) -> Result<RowData<T, B>, AppendError> {
        RowData::try_octets_from(alloc, self)
    }
}

impl<T: DataType, R: HasFields> RecordData for RowData<T, R> {
    ghost rtype = { λ _. T.number };

    fn rtype(&self) -> Rtype {
        Rtype::from_int(T::number())
    }
}

impl<T: DataType, R: Row> ComposeRecordData for RowData<T, R> {
    ghost parts = { written_parts };

    ghost canonical_octets = { canonical_octets };

    fn rdlen(&self, compress: bool) -> Option<u16> {
        row_len(&self.row, compress)
    }

    fn compose_rdata<Target: Composer>(&self, target: &mut Target) -> Result<(), AppendError> {
        compose_row(&self.row, target)
    }

    fn compose_canonical_rdata<Target: Composer>(
        &self,
        target: &mut Target,
    ) -> Result<(), AppendError> {
        compose_canonical_row(&self.row, target)
    }
}

/// Single strings and CAA tags up to ASCII case (RFC 8659 4.1).
impl<T, R: Row> PartialEq for RowData<T, R> {
    ghost eq = { rows_eq };

    ghost laws = { rows_partly_equivalent };

    fn eq(&self, other: &Self) -> bool {
        self.row.fields_eq(&other.row)
    }
}

impl<T, R: Row> Eq for RowData<T, R> {
    ghost laws = { rows_equivalent };
}

impl<T, R: Row> PartialOrd for RowData<T, R> {
    ghost partial_cmp = { as_partial_cmp rows_cmp };

    ghost laws = { rows_order };

    fn partial_cmp(&self, other: &Self) -> Option<Ordering> {
        Some(self.cmp(other))
    }
}

impl<T, R: Row> Ord for RowData<T, R> {
    ghost cmp = { rows_cmp };

    ghost total = { rows_total };

    ghost matches_partial_cmp = { λ _ _. refl };

    ghost matches_eq = { rows_ties };

    fn cmp(&self, other: &Self) -> Ordering {
        self.row.fields_cmp(&other.row)
    }
}

/// The order of the canonical octets (RFC 4034 6.3).
impl<T, R: Row> CanonicalOrd for RowData<T, R> {
    ghost canonical = { canonical_rows_cmp };

    fn canonical_cmp(&self, other: &Self) -> Ordering {
        self.row.canonical_fields_cmp(&other.row)
    }
}

/// The same order, against data that is held as octets.
impl<T: DataType, R: Row + RowOctetsOrd> CanonicalOctetsOrd for RowData<T, R> {
    fn canonical_octets_cmp(&self, octets: &[u8]) -> Ordering {
        canonical_row_cmp_octets(&self.row, octets)
    }
}

impl<T, R: Row> Hash for RowData<T, R> {
    ghost hash_input = { keys };

    ghost respects_eq = { rows_alike };

    fn hash<H: Hasher>(&self, state: &mut H) {
        self.row.hash_fields(state);
    }
}

/// The tokens of the fields in a block, with the comments of the type.
impl<T: DataType, R: ShowRow> ZonefileFmt for RowData<T, R> {
    ghost document = { λ rdata. block_of (data_pieces T.number rdata) };

    fn fmt<F: Formatter>(&self, formatter: &mut F) -> fmt::Result {
        show_row(T::number(), &self.row, formatter)
    }
}

/// With one space between two fields.
impl<T: DataType, R: ShowRow> fmt::Display for RowData<T, R> {
    ghost output = { λ rdata. Some (document_text Simple (block_of (data_pieces T.number rdata))) };

    fn fmt<W: fmt::Write>(&self, f: &mut fmt::Formatter<W>) -> fmt::Result {
        fmt::Display::fmt(&self.display_zonefile(DisplayKind::Simple), f)
    }
}
