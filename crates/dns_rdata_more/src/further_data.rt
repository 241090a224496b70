//! Record data of a further type, held as its octets.
ghost use Rattle.std.specs.Prelude.{◌≡◌, ◌↔◌, List, ℕ, [], false, IsOk, IfOk, IfErr, OnOk, OnErr};
ghost use Rattle.dns_fields_more.specs.Forms.{IsFurtherData};
ghost use Rattle.dns_fields_more.specs.Text.{AppendsFurther, NoFurtherScans};
ghost use Rattle.dns_name.specs.RecordData.{IsAtEnd};
ghost use Rattle.dns_octets.specs.Parser.{rest_of};
ghost use Rattle.dns_scan.specs.Token.{SameNames};

mod any;
mod fields;
mod flat;
mod order;
mod record;
mod show;

pub use any::AnyFurtherData;
use dns_entry_scanner::EntryScanner;
use dns_fields_more::{is_further_data, scan_further_into};
use dns_name::{Octets, ParseError, Parser, Rtype};
use dns_rr_data::DataType;
use std::alloc::Global;
use std::marker::{Model, PhantomData};
use thiserror::Error;

/// The octets are no data of the type: no row of its fields with every name in full, or more than 65,535 octets.
#[derive(Clone, Copy, Debug, PartialEq, Eq, Error)]
#[error("invalid record data")]
pub struct FurtherDataError;

/// Data of the further type that `T` stands for: the octets of a row of its fields, every name in full.
///
/// A contract sees it as these octets.
#[derive(Debug, Drop)]
pub struct FurtherData<T: DataType, Octs: Octets> {
    octets: Octs,
    rtype: PhantomData<T>,
}

impl<T: DataType, Octs: Octets> Model for FurtherData<T, Octs> {
    ghost Value = { List ℕ };

    ghost view = { λ rdata. Octs.list rdata.octets };

    ghost invariant = { λ rdata. IsFurtherData T.number (Octs.list rdata.octets) };
}

impl<T: DataType, Octs: Octets> FurtherData<T, Octs> {
    /// Returns the data of these octets. Fails exactly if they are no data of the type.
    pub fn from_octets(octets: Octs) -> Result<Self, FurtherDataError>
    where
        Octs: Drop,
        ensures ok { IfOk result (λ rdata. rdata ≡ Octs.list octets) }
        ensures are { IsOk result ↔ IsFurtherData T.number (Octs.list octets) }
    {
        if !is_further_data(Rtype::from_int(T::number()), octets.octets()) {
            return Err(FurtherDataError);
        }
        Ok(FurtherData {
            octets,
            rtype: PhantomData,
        })
    }

    /// Returns what holds the octets, which are data of the type.
    pub fn as_octets(&self) -> &Octs
        ensures octets { Octs.list result.now ≡ self.now }
        ensures are { IsFurtherData T.number self.now }
    {
        &self.octets
    }

    /// Returns what holds the octets, which are data of the type.
    pub fn into_octets(self) -> Octs
        ensures octets { Octs.list result ≡ self }
        ensures are { IsFurtherData T.number self }
    {
        self.octets
    }
}

impl<'a, T: DataType> FurtherData<T, &'a [u8]> {
    /// Parses the data: all that is left in the parser. A name in it has no pointer (RFC 3597 4).
    ///
    /// Fails exactly if what is left is no data of the type. The parser then stays where it is.
    pub fn parse(parser: &mut Parser<'a>) -> Result<Self, ParseError>
        ensures ok { IfOk result (λ rdata. rdata ≡ rest_of parser.old) }
        ensures are { IsOk result ↔ IsFurtherData T.number (rest_of parser.old) }
        ensures end { OnOk result (IsAtEnd parser.old parser.new) }
        ensures err { OnErr result (parser.new ≡ parser.old) }
    {
        match FurtherData::from_octets(parser.peek_all()) {
            Ok(rdata) => {
                parser.advance_to_end();
                Ok(rdata)
            }
            Err(_) => Err(ParseError::form_error("invalid record data")),
        }
    }
}

impl<T: DataType> FurtherData<T, Vec<u8>> {
    /// Returns the data of these octets, which are data of the type.
    pub(crate) fn of_row(octets: Vec<u8>) -> Self
        requires { IsFurtherData T.number octets.items }
        ensures { result ≡ octets.items }
    {
        FurtherData {
            octets,
            rtype: PhantomData,
        }
    }

    /// Scans the data from the first tokens, and takes these. Tokens after the last field stay (RFC 1035 5.1).
    ///
    /// Fails with an error other than `short_buf` only if the tokens do not begin with data of the type of at most 65,535
    /// octets.
    pub fn scan<S: EntryScanner>(alloc: Global, scanner: &mut S) -> Result<Self, S::Error>
    where
        S::Name: Drop,
        ensures ok { IfOk result (λ rdata. AppendsFurther (S.names scanner.old) T.number (S.tokens scanner.old) (S.tokens scanner.new) [] rdata) }
        ensures err { IfErr result (λ error. S.Error.is_short error ≡ false
            → NoFurtherScans (S.names scanner.old) T.number (S.tokens scanner.old)) }
        ensures names { SameNames (S.names scanner.old) (S.names scanner.new) }
    {
        let mut octets = Vec::new(alloc);
        match scan_further_into(Rtype::from_int(T::number()), scanner, &mut octets) {
            Ok(()) => Ok(FurtherData {
                octets,
                rtype: PhantomData,
            }),
            Err(error) => Err(error),
        }
    }
}
