//! Data of type TXT (RFC 1035 3.3.14).
ghost use Rattle.std.specs.Prelude.{◌≡◌, ◌≤◌, ◌<◌, ◌↔◌, length, List, ℕ, [], ◌∷◌, Err, IsOk, IfOk, IfSome, IfNone};
ghost use Rattle.std.proofs.Common.{refl};
ghost use Rattle.std.specs.List.{concat};
ghost use Rattle.dns_fields.specs.Fields as fields;
ghost use Rattle.dns_fields.specs.Fields.{strings};
ghost use Rattle.dns_fields.specs.Strings.{AreStringOctets};
ghost use Rattle.dns_octets.specs.declared.error.AppendError.TheVariants.{ShortBuf, BadLength};
ghost use Rattle.dns_octets.specs.Builder.{IsPast};
ghost use Rattle.dns_rr_data.specs.Built.{AreTextStrings, text_len};
ghost use Rattle.dns_rr_data.specs.declared.txt.append_error.TxtAppendError.TheVariants.{LongRecordData};

mod append_error;
mod builder;
mod cut;
mod iter;

use crate::{FlattenData, HasType, Number, ParseData, RowData, RowOf, ScanData, TypedData};
pub use append_error::TxtAppendError;
pub use builder::TxtBuilder;
use cut::{append_joined, append_strings, fill, is_long};
use dns_fields::{Last, Strings};
use dns_name::{AppendError, EmptyBuilder, FlattenInto, FromBuilder, Octets, ParseError, Parser};
use dns_text::Scanner;
pub use iter::{TxtCharStrIter, TxtIter};
use std::alloc::Global;
use std::marker::PhantomData;
use thiserror::Error;

/// The octets are not one or more strings, or are more than 65,535.
#[derive(Clone, Copy, Debug, PartialEq, Eq, Error)]
#[error("invalid TXT data")]
pub struct TxtError;

/// One or more strings for anyone to read.
pub type Txt<Octs> = RowData<Number<16>, TxtRow<Octs>>;

/// The field of TXT data: its strings (RFC 1035 3.3.14).
pub type TxtRow<Octs> = Last<Strings<Octs>>;

impl<Octs: Octets> RowOf<Number<16>> for TxtRow<Octs> {
    ghost of_type = { refl };
}

impl<Octs: Octets> RowData<Number<16>, TxtRow<Octs>> {
    /// Returns the data of these octets. Fails if they are not one or more strings, or are more than 65,535.
    pub fn from_octets(octets: Octs) -> Result<Self, TxtError>
    where
        Octs: Drop,
        ensures ok { IfOk result (λ rdata. (each : List (List ℕ)) × (rdata ≡ strings each ∷ [])
            × (Octs.list octets ≡ fields.field_octets (strings each))) }
        ensures are { IsOk result ↔ (AreStringOctets (Octs.list octets) × (length (Octs.list octets) ≤ 65535)) }
    {
        if octets.octets().len() > 65_535 {
            return Err(TxtError);
        }
        match Strings::from_octets(octets) {
            Some(strings) => Ok(RowData {
                row: Last(strings),
                rtype: PhantomData,
            }),
            None => Err(TxtError),
        }
    }

    /// Returns the data of octets that are strings, and not too many.
    fn of_strings(octets: Octs) -> Self
    where
        Octs: Drop,
        requires are { AreStringOctets (Octs.list octets) }
        requires short { length (Octs.list octets) ≤ 65535 }
        ensures { (each : List (List ℕ)) → Octs.list octets ≡ fields.field_octets (strings each) → result ≡ strings each ∷ [] }
    {
        match Txt::from_octets(octets) {
            Ok(rdata) => rdata,
            Err(_) => unreachable!(),
        }
    }

    /// Returns the data of a text, as strings of 255 octets and one of the rest. An empty text is one empty string.
    ///
    /// Fails with `LongRecordData` exactly if the data would have more than 65,535 octets, and with `ShortBuf` if out of
    /// room or memory.
    pub fn build_from_slice(alloc: Global, text: &[u8]) -> Result<Self, TxtAppendError>
    where
        Octs: FromBuilder + Drop,
        Octs::Builder: EmptyBuilder + Drop,
        ensures ok { IfOk result (λ rdata. (each : List (List ℕ)) × (rdata ≡ strings each ∷ [])
            × AreTextStrings text.now each) }
        ensures long { (result ≡ Err LongRecordData) ↔ (65535 < text_len (length text.now)) }
    {
        if is_long(0, text.len()) {
            return Err(TxtAppendError::LongRecordData);
        }
        let mut builder = Octs::Builder::empty(alloc);
        append_strings(&mut builder, text)?;
        fill(&mut builder)?;
        Ok(Txt::of_strings(Octs::from_builder(builder)))
    }

    /// Returns the octets of the strings, joined.
    ///
    /// Fails with `ShortBuf` only if such octets can't be as many, and with `OutOfMemory` if out of memory.
    pub fn text<Text: FromBuilder>(&self, alloc: Global) -> Result<Text, AppendError>
    where
        Text::Builder: EmptyBuilder + Drop,
        ensures ok { IfOk result (λ text. (each : List (List ℕ)) × (self.now ≡ strings each ∷ [])
            × (Text.list text ≡ concat each)) }
        ensures short { result ≡ Err ShortBuf → (each : List (List ℕ)) × (self.now ≡ strings each ∷ [])
            × IsPast Text.Builder.limit (length (concat each)) }
        ensures not_bad { result ≡ Err BadLength → ⊥ }
    {
        let mut builder = Text::Builder::empty(alloc);
        append_joined(&mut builder, self.iter())?;
        Ok(Text::from_builder(builder))
    }

    /// Iterates over the octets of each string. The data has at most 65,535 octets, so it fits into a record.
    pub fn iter(&self) -> TxtIter<'_>
        ensures row { self.now ≡ strings result ∷ [] }
        ensures short { length (fields.octets self.now) ≤ 65535 }
    {
        TxtIter::over(self.row.0.iter())
    }

    /// Iterates over the strings. The data has at most 65,535 octets, so it fits into a record.
    pub fn iter_charstrs(&self) -> TxtCharStrIter<'_>
        ensures row { self.now ≡ strings result ∷ [] }
        ensures short { length (fields.octets self.now) ≤ 65535 }
    {
        TxtCharStrIter::over(self.row.0.iter())
    }

    /// Returns the octets of the string if there is only one.
    pub fn as_flat_slice(&self) -> Option<&[u8]>
        ensures some { IfSome result (λ string. self.now ≡ strings (string.now ∷ []) ∷ []) }
        ensures none { IfNone result ((string : List ℕ) → self.now ≡ strings (string ∷ []) ∷ [] → ⊥) }
    {
        let mut strings = self.iter();
        let first = strings.next()?;
        match strings.next() {
            Some(_) => None,
            None => Some(first),
        }
    }

    /// Returns how many octets the data has: at most 65,535, so it fits into a record.
    pub fn len(&self) -> usize
        ensures octets { result ≡ length (fields.octets self.now) }
        ensures short { result ≤ 65535 }
    {
        self.row.0.as_slice().len()
    }
}

impl<Octs: Octets> HasType for Txt<Octs> {
    type Type = Number<16>;

    ghost held = { λ rdata. rdata };
}

impl<Octs: Octets> TypedData for Txt<Octs> {
    type Row = TxtRow<Octs>;

    fn typed_row(&self) -> &TxtRow<Octs> {
        &self.row
    }
}

impl<'a> ParseData<'a> for Txt<&'a [u8]> {
    fn parse_data(parser: &mut Parser<'a>) -> Result<Self, ParseError> {
        Txt::parse(parser)
    }
}

impl<Octs: FromBuilder + Drop, S: Scanner<Octets = Octs>> ScanData<S> for Txt<Octs> {
    fn scan_data(scanner: &mut S) -> Result<Self, S::Error> {
        Txt::scan(scanner)
    }
}

impl<Source: Octets + Drop, Octs: FromBuilder + Drop> FlattenData<Octs> for Txt<Source>
where
    Octs::Builder: EmptyBuilder + Drop,
{
    type Flat = Txt<Octs>;

    fn flatten_data(self, alloc: Global) -> Result<Txt<Octs>, AppendError> {
        self.try_flatten_into(alloc)
    }
}
