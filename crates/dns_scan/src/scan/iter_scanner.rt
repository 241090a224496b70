//! A scanner over tokens that are given as texts.
ghost use Rattle.std.specs.Prelude.{◌≡◌, ◌≤◌, ◌↔◌, List, ℕ, [], ◌∷◌, false, true, length, map, drop, IsTrue, IfOk, IfErr, IfSome, IfNone, OnErr};
ghost use Rattle.std.specs.List.{list_all};
ghost use Rattle.std.specs.Iterator.{IsFinite};
ghost use Rattle.std.specs.Iterator.Runs.{WholeRun};
ghost use Rattle.dns_label.specs.NameText.{IsNameText};
ghost use Rattle.dns_scan.specs.StrError.{is_short, is_end};
ghost use Rattle.dns_scan.specs.declared.scan.scanner_error.StrError.TheVariants.{EndOfEntry};
ghost use Rattle.dns_scan.specs.StringText.{IsStringText};
ghost use Rattle.dns_label.specs.Symbol.{is_plain};
ghost use Rattle.dns_scan.specs.Token.{Token, unquoted};

use super::spelled::octets_of;
use crate::{CharStr, FromStrError, Scanner, ScannerError, StrError};
use dns_name::{Compose, Name};
use std::alloc::{AllocError, Global};
use std::marker::Model;

/// A scanner over texts, where each text is an unquoted token. There is nothing between them, so none follows white
/// space. There is no origin: a name may lack its last dot.
///
/// A contract sees it as the list of the tokens that are left.
#[derive(Debug, Drop)]
pub struct IterScanner<'a> {
    alloc: Global,
    texts: Vec<&'a str>,
    /// The number of tokens that have been taken.
    place: usize,
}

impl<'a> Model for IterScanner<'a> {
    ghost Value = { List Token };

    ghost view = { λ scanner. map (λ text. unquoted text.now) (drop scanner.place scanner.texts.items) };

    ghost invariant = { λ scanner. scanner.place ≤ length scanner.texts.items };
}

impl<'a> IterScanner<'a> {
    /// Returns a scanner over the texts of the iterator. It and what is scanned grow on this allocator. Fails if out of
    /// memory.
    pub fn new<I: Iterator<Item = &'a str>>(alloc: Global, texts: I) -> Result<Self, AllocError>
        requires can { I.can_next texts }
        requires finite { IsFinite (I.remaining texts) }
        ensures { IfOk result (λ scanner. WholeRun I.next_gives texts (λ run. scanner ≡ map (λ text. unquoted text.now) run.items)) }
    {
        Ok(IterScanner {
            alloc,
            texts: texts.collect(alloc)?,
            place: 0,
        })
    }

    /// Returns whether there are no tokens left.
    pub fn is_exhausted(&self) -> bool
        ensures { IsTrue result ↔ (self.now ≡ []) }
    {
        self.place == self.texts.len()
    }

    /// Returns the next token, which stays.
    fn peek(&self) -> Option<&'a str>
        ensures some { IfSome result (λ text. (left : List Token) × (self.now ≡ unquoted text.now ∷ left)) }
        ensures none { IfNone result (self.now ≡ []) }
    {
        if self.place == self.texts.len() {
            return None;
        }
        Some(self.texts[self.place])
    }

    /// Takes the next token. Fails with `EndOfEntry` if there is none.
    fn next_text(&mut self) -> Result<&'a str, StrError>
        ensures ok { IfOk result (λ text. self.old ≡ unquoted text.now ∷ self.new) }
        ensures err { OnErr result ((self.old ≡ []) × (self.new ≡ [])) }
        ensures end { IfErr result (λ error. error ≡ EndOfEntry) }
    {
        if self.place == self.texts.len() {
            return Err(StrError::EndOfEntry);
        }
        let text = self.texts[self.place];
        self.place += 1;
        Ok(text)
    }
}

impl<'a> Scanner for IterScanner<'a> {
    type Octets = Vec<u8>;

    type OctetsBuilder = Vec<u8>;

    type Name = Name<Vec<u8>>;

    type Error = StrError;

    ghost tokens = { λ scanner. scanner };

    ghost names = { λ _. IsNameText };

    ghost gap = { λ _. [] };

    fn has_space(&self) -> bool {
        false
    }

    fn continues(&mut self) -> bool {
        !self.is_exhausted()
    }

    fn scan_octets(&mut self) -> Result<Vec<u8>, StrError> {
        let text = self.next_text()?;
        octets_of(self.alloc, text.as_bytes())
    }

    fn scan_charstr(&mut self) -> Result<CharStr<Vec<u8>>, StrError> {
        let text = self.next_text()?;
        string_of(self.alloc, text)
    }

    fn scan_opt_unknown_marker(&mut self) -> Result<bool, StrError> {
        match self.peek() {
            Some(text) if is_marker(text) => {
                self.next_text()?;
                Ok(true)
            }
            _ => Ok(false),
        }
    }

    fn scan_ascii_str<F, T>(&mut self, op: F) -> Result<T, StrError>
    where
        F: FnOnce(&str) -> Option<T>,
    {
        let text = self.next_text()?;
        if !are_plain(text.as_bytes()) {
            return Err(StrError::Custom("invalid word"));
        }
        match op(text) {
            Some(value) => Ok(value),
            None => Err(StrError::Custom("invalid word")),
        }
    }

    fn scan_name(&mut self) -> Result<Name<Vec<u8>>, StrError> {
        let text = self.next_text()?;
        match Name::vec_from_str(self.alloc, text) {
            Ok(name) => Ok(name),
            Err(dns_name::FromStrError::ShortBuf) => Err(StrError::ShortBuf),
            Err(dns_name::FromStrError::Presentation(_)) => Err(StrError::Custom("invalid name")),
        }
    }

    fn scan_string(&mut self) -> Result<String, StrError> {
        let text = self.next_text()?;
        let octets = octets_of(self.alloc, text.as_bytes())?;
        match String::from_utf8(octets) {
            Ok(text) => Ok(text),
            Err(_) => Err(StrError::Custom("invalid UTF-8")),
        }
    }

    fn scan_charstr_entry(&mut self) -> Result<Vec<u8>, StrError> {
        let mut wire = Vec::new(self.alloc);
        loop {
            let Ok(text) = self.next_text() else {
                return Ok(wire);
            };
            let string = string_of(self.alloc, text)?;
            match string.compose(&mut wire) {
                Ok(()) => {}
                Err(_) => return Err(StrError::ShortBuf),
            }
        }
    }

    fn scan_ascii_entry(&mut self) -> Result<String, StrError> {
        let mut joined = String::new(self.alloc);
        loop {
            let Ok(text) = self.next_text() else {
                return Ok(joined);
            };
            if !are_plain(text.as_bytes()) {
                return Err(StrError::Custom("invalid word"));
            }
            match joined.push_str(text) {
                Ok(()) => {}
                Err(_) => return Err(StrError::ShortBuf),
            }
        }
    }

    fn octets_builder(&mut self) -> Result<Vec<u8>, StrError> {
        Ok(Vec::new(self.alloc))
    }

    fn peek_text(&self) -> Result<&[u8], StrError> {
        match self.peek() {
            Some(text) => Ok(text.as_bytes()),
            None => Err(StrError::EndOfEntry),
        }
    }

    fn skip_token(&mut self) {
        if self.place < self.texts.len() {
            self.place += 1;
        }
    }
}

/// Returns the string that a text spells.
fn string_of(alloc: Global, text: &str) -> Result<CharStr<Vec<u8>>, StrError>
    ensures ok { IfOk result (λ string. IsStringText text.now string) }
    ensures err { IfErr result (λ error. is_short error ≡ false → (string : List ℕ) → IsStringText text.now string → ⊥) }
    ensures short { IfErr result (λ error. is_short error ≡ true → (string : List ℕ) × IsStringText text.now string) }
    ensures end { IfErr result (λ error. is_end error ≡ false) }
{
    match CharStr::from_str(alloc, text) {
        Ok(string) => Ok(string),
        Err(FromStrError::ShortBuf) => Err(StrError::ShortBuf),
        Err(FromStrError::Presentation(_)) => Err(StrError::Custom("invalid character string")),
    }
}

/// Returns whether the text is the marker of unknown data.
fn is_marker(text: &str) -> bool
    ensures { IsTrue result ↔ (text.now ≡ 92 ∷ 35 ∷ []) }
{
    matches!(text.as_bytes(), [b'\\', b'#'])
}

/// Returns whether these are printable characters other than the backslash.
fn are_plain(text: &[u8]) -> bool
    ensures { result ≡ list_all is_plain text.now }
{
    text.iter().all(|&octet| is_plain(octet))
}

/// Returns whether this is a printable character other than the backslash.
fn is_plain(octet: u8) -> bool
    ensures { result ≡ is_plain octet }
{
    b' ' <= octet && octet <= b'~' && octet != b'\\'
}
