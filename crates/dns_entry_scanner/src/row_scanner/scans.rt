//! Scanning a row's tokens into values.

use super::RowScanner;
use crate::gap::ends_white;
use crate::spelled_octets::{octets_of, string_of};
use crate::{EntryError, TextName};
use dns_scan::{CharStr, Scanner};

impl<'t, N: TextName> Scanner for RowScanner<'t, N> {
    ghost use Rattle.dns_entry_scanner.specs.RowScanner.{gap_of, names_of, tokens_of};

    type Octets = Vec<u8>;

    type OctetsBuilder = Vec<u8>;

    type Name = N;

    type Error = EntryError;

    ghost tokens = { tokens_of };

    ghost names = { names_of };

    ghost gap = { gap_of };

    fn has_space(&self) -> bool {
        ends_white(self.gap())
    }

    fn continues(&mut self) -> bool {
        self.taken < self.spans.len()
    }

    fn scan_octets(&mut self) -> Result<Vec<u8>, EntryError> {
        let token = self.take_token()?;
        octets_of(self.alloc, token)
    }

    fn scan_charstr(&mut self) -> Result<CharStr<Vec<u8>>, EntryError> {
        let token = self.take_token()?;
        string_of(self.alloc, token)
    }

    fn scan_opt_unknown_marker(&mut self) -> Result<bool, EntryError> {
        match self.peek() {
            Some(token) if token.is_marker() => {
                self.take_token()?;
                Ok(true)
            }
            _ => Ok(false),
        }
    }

    #[inline(always)]
    fn scan_ascii_str<F, T>(&mut self, op: F) -> Result<T, EntryError>
    where
        F: FnOnce(&str) -> Option<T>,
    {
        let token = self.take_token()?;
        let Some(word) = token.word() else {
            return Err(EntryError::Custom("invalid word"));
        };
        match op(word) {
            Some(value) => Ok(value),
            None => Err(EntryError::Custom("invalid word")),
        }
    }

    fn scan_name(&mut self) -> Result<N, EntryError> {
        let token = self.take_token()?;
        if token.quoted {
            return Err(EntryError::Custom("quoted name"));
        }
        N::scan_name(self.alloc, token.text, self.origin)
    }

    fn scan_string(&mut self) -> Result<String, EntryError> {
        let token = self.take_token()?;
        let octets = octets_of(self.alloc, token)?;
        match String::from_utf8(octets) {
            Ok(text) => Ok(text),
            Err(_) => Err(EntryError::Custom("invalid UTF-8")),
        }
    }

    fn scan_charstr_entry(&mut self) -> Result<Vec<u8>, EntryError> {
        let mut wire = Vec::new(self.alloc);
        self.append_strings(&mut wire)?;
        Ok(wire)
    }

    fn scan_ascii_entry(&mut self) -> Result<String, EntryError> {
        let mut joined = String::new(self.alloc);
        loop {
            let Ok(token) = self.take_token() else {
                return Ok(joined);
            };
            let Some(word) = token.word() else {
                return Err(EntryError::Custom("invalid word"));
            };
            joined.push_str(word)?;
        }
    }

    fn octets_builder(&mut self) -> Result<Vec<u8>, EntryError> {
        Ok(Vec::new(self.alloc))
    }

    fn peek_text(&self) -> Result<&[u8], EntryError> {
        match self.peek() {
            Some(token) => Ok(token.text),
            None => Err(EntryError::EndOfEntry),
        }
    }

    fn skip_token(&mut self) {
        let _ = self.take_token();
    }
}
