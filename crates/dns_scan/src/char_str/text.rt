//! The texts of character strings (RFC 1035 5.1).
ghost use Rattle.std.specs.Prelude.{◌≡◌, ◌≤◌, List, ℕ, true, length, take, Some, IfOk, IfErr, OnErr};
ghost use Rattle.std.specs.List.{list_all};
ghost use Rattle.std.specs.Fmt.{DisplaysOnOk};
ghost use Rattle.dns_label.specs.Symbol.{IsSymbol, octet, spelled};
ghost use Rattle.dns_scan.specs.StringText.{IsStringText, Spells, is_bare, is_escaped, symbol_of, text_of, plain_text, quoted_text, unquoted_text};
ghost use Rattle.dns_scan.specs.Refused.{IsRefused};
ghost use Rattle.dns_scan.specs.declared.char_str.text.FromStrError.TheVariants.{Presentation};

use crate::CharStr;
use dns_name::{EmptyBuilder, FromBuilder, Octets, OctetsBuilder, Symbol};
use std::alloc::Global;
use std::fmt;
use std::marker::Model;
use thiserror::Error;

/// Why a text spells no character string.
#[derive(Clone, Copy, Debug, PartialEq, Eq, Error)]
pub enum PresentationError {
    /// A part of it is no symbol.
    #[error("bad symbol")]
    BadSymbol,
    /// It spells more than 255 octets.
    #[error("long character string")]
    LongString,
}

/// Why no character string was made of a text.
#[derive(Clone, Copy, Debug, PartialEq, Eq, Error)]
pub enum FromStrError {
    /// The text spells no character string.
    #[error("{0}")]
    Presentation(PresentationError),
    /// There is no room or no memory for the string.
    #[error("short buffer")]
    ShortBuf,
}

impl From<PresentationError> for FromStrError {
    ghost from_gives = { λ reason error. error ≡ Presentation reason };

    fn from(reason: PresentationError) -> FromStrError {
        FromStrError::Presentation(reason)
    }
}

/// How the octets of a string are written.
#[derive(Clone, Copy, Debug, PartialEq, Eq)]
enum Style {
    /// With nothing special around it.
    Plain,
    /// Between quotes.
    Quoted,
    /// As a word of a zone file.
    Unquoted,
}

/// Octets as a quoted token, with its quotes.
#[derive(Debug, Drop)]
pub struct DisplayQuoted<'a> {
    octets: &'a [u8],
}

impl<'a> Model for DisplayQuoted<'a> {
    ghost Value = { List ℕ };

    ghost view = { λ shown. shown.octets.now };
}

impl<'a> DisplayQuoted<'a> {
    /// Returns what shows the octets between quotes. There is a backslash before each quote and backslash; octets outside
    /// 0x20 to 0x7E are a backslash and three digits.
    pub fn of(octets: &'a [u8]) -> Self
        ensures { result ≡ octets.now }
    {
        DisplayQuoted { octets }
    }
}

/// A string as an unquoted token.
#[derive(Debug, Drop)]
pub struct DisplayUnquoted<'a> {
    octets: &'a [u8],
}

impl<'a> Model for DisplayUnquoted<'a> {
    ghost Value = { List ℕ };

    ghost view = { λ shown. shown.octets.now };
}

impl<Octs: Octets> CharStr<Octs> {
    /// Returns what shows the string between quotes. There is a backslash before each quote and backslash; octets
    /// outside 0x20 to 0x7E are a backslash and three digits.
    pub fn display_quoted(&self) -> DisplayQuoted<'_>
        ensures { result ≡ self.now }
    {
        DisplayQuoted::of(self.as_slice())
    }

    /// Returns what shows the string as a word. There is a backslash before each space, quote, parenthesis, semicolon
    /// and backslash; octets outside 0x20 to 0x7E are a backslash and three digits. The string without octets shows as
    /// the empty text, which is no token.
    pub fn display_unquoted(&self) -> DisplayUnquoted<'_>
        ensures { result ≡ self.now }
    {
        DisplayUnquoted {
            octets: self.as_slice(),
        }
    }

    /// Returns the string that a text spells. Each symbol stands for an octet, the plain space, quote, parentheses and
    /// semicolon too.
    ///
    /// Fails with `BadSymbol` at the first part of the text that is no symbol, or with `LongString` at a 256th symbol,
    /// whichever comes first; and with `ShortBuf` if there is no room or no memory for the string.
    pub fn from_str(alloc: Global, text: &str) -> Result<Self, FromStrError>
    where
        Octs: FromBuilder,
        Octs::Builder: EmptyBuilder + Drop,
        ensures ok { IfOk result (λ string. IsStringText text.now string) }
        ensures err { IfErr result (IsRefused text.now) }
    {
        let taken = Taken::read(text.as_bytes())?;
        let mut builder = Octs::Builder::empty(alloc);
        match builder.append_slice(&taken.octets[..taken.len]) {
            Ok(()) => Ok(CharStr::of_short(Octs::from_builder(builder))),
            Err(_) => Err(FromStrError::ShortBuf),
        }
    }
}

/// The octets that a text spells.
#[derive(Drop)]
struct Taken {
    octets: [u8; 255],
    /// The number of octets.
    len: usize,
    ghost whole: { length octets ≡ 255 },
    ghost short: { len ≤ 255 },
}

impl Taken {
    /// Reads the octets that the text spells.
    fn read(text: &[u8]) -> Result<Taken, PresentationError>
        ensures ok { IfOk result (λ taken. Spells text.now (take taken.len taken.octets)) }
        ensures err { IfErr result (λ error. IsRefused text.now (Presentation error)) }
    {
        let mut octets = [0; 255];
        let mut len = 0;
        let mut rest = text;
        while !rest.is_empty() {
            let Some((symbol, behind)) = Symbol::split_from(rest) else {
                return Err(PresentationError::BadSymbol);
            };
            if len == 255 {
                return Err(PresentationError::LongString);
            }
            octets[len] = octet_of(symbol);
            len += 1;
            rest = behind;
        }
        Ok(Taken { octets, len })
    }
}

/// Returns the octet that a symbol stands for.
pub(crate) fn octet_of(symbol: Symbol) -> u8
    requires { IsSymbol symbol }
    ensures { result ≡ octet symbol }
{
    match symbol {
        Symbol::Char(character) => character as u8,
        Symbol::SimpleEscape(octet) | Symbol::DecimalEscape(octet) => octet,
    }
}

/// Shows the plain text: each backslash is written twice, and octets outside 0x20 to 0x7E are a backslash and three
/// digits.
impl<Octs: Octets> fmt::Display for CharStr<Octs> {
    ghost output = { λ string. Some (plain_text string) };

    fn fmt<W: fmt::Write>(&self, f: &mut fmt::Formatter<W>) -> fmt::Result {
        write_octets(f, Style::Plain, self.as_slice())
    }
}

impl fmt::Display for DisplayQuoted<'_> {
    ghost output = { λ string. Some (quoted_text string) };

    fn fmt<W: fmt::Write>(&self, f: &mut fmt::Formatter<W>) -> fmt::Result {
        f.write_str("\"")?;
        write_octets(f, Style::Quoted, self.octets)?;
        f.write_str("\"")
    }
}

impl fmt::Display for DisplayUnquoted<'_> {
    ghost output = { λ string. Some (unquoted_text string) };

    fn fmt<W: fmt::Write>(&self, f: &mut fmt::Formatter<W>) -> fmt::Result {
        write_octets(f, Style::Unquoted, self.octets)
    }
}

/// Writes the text of the octets: each run of those that are written as themselves at once.
fn write_octets<W: fmt::Write>(
    f: &mut fmt::Formatter<W>,
    style: Style,
    octets: &[u8],
) -> fmt::Result
    ensures { DisplaysOnOk W.write_str_gives f.old result (Some (text_of style octets.now)) f.new }
{
    let mut left = octets;
    loop {
        let (run, behind) = left.split_at(bare_len(style, left));
        // What is written as itself is ASCII.
        f.write_str(unsafe { str::from_utf8_unchecked(run) })?;
        let Some((&octet, others)) = behind.split_first() else {
            return Ok(());
        };
        write_symbol(f, style.symbol(octet))?;
        left = others;
    }
}

/// Returns how many octets from the first on are written as themselves.
fn bare_len(style: Style, octets: &[u8]) -> usize
    ensures within { result ≤ length octets.now }
    ensures bare { list_all (is_bare style) (take result octets.now) ≡ true }
{
    let mut len = 0;
    while len < octets.len() && style.is_bare(octets[len]) {
        len += 1;
    }
    len
}

/// Writes a symbol.
fn write_symbol<W: fmt::Write>(f: &mut fmt::Formatter<W>, symbol: Symbol) -> fmt::Result
    requires { IsSymbol symbol }
    ensures { DisplaysOnOk W.write_str_gives f.old result (Some (spelled symbol)) f.new }
{
    match symbol {
        Symbol::Char(character) => f.write_char(character),
        Symbol::SimpleEscape(octet) => {
            f.write_char('\\')?;
            f.write_char(char::from(octet))
        }
        Symbol::DecimalEscape(octet) => {
            f.write_char('\\')?;
            f.write_char(char::from(b'0' + octet / 100))?;
            f.write_char(char::from(b'0' + octet / 10 % 10))?;
            f.write_char(char::from(b'0' + octet % 10))
        }
    }
}

impl Style {
    /// Returns the symbol that stands for the octet.
    fn symbol(self, octet: u8) -> Symbol
        ensures is { result ≡ symbol_of self octet }
        ensures symbol { IsSymbol result }
    {
        match octet {
            b' '..=b'~' if self.escapes(octet) => Symbol::SimpleEscape(octet),
            b' '..=b'~' => Symbol::Char(char::from(octet)),
            _ => Symbol::DecimalEscape(octet),
        }
    }

    /// Returns whether the octet is written as itself.
    fn is_bare(self, octet: u8) -> bool
        ensures { result ≡ is_bare self octet }
    {
        matches!(octet, b' '..=b'~') && !self.escapes(octet)
    }

    /// Returns whether the character is written after a backslash.
    fn escapes(self, octet: u8) -> bool
        ensures { result ≡ is_escaped self octet }
    {
        match self {
            Style::Plain => octet == b'\\',
            Style::Quoted => matches!(octet, b'"' | b'\\'),
            Style::Unquoted => matches!(octet, b' ' | b'"' | b'(' | b')' | b';' | b'\\'),
        }
    }
}
