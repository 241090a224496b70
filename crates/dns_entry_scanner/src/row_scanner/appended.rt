//! Scanning a row's tokens into octets.
ghost use Rattle.std.specs.Prelude.{◌≡◌, ◌≤◌, ◌++◌, List, ℕ, [], false, length, take, IfErr, OnErr, OnOk};
ghost use Rattle.dns_entry_scanner.specs.AppendedName.{AppendsName, HasBehind, SpellsNoName};
ghost use Rattle.dns_entry_scanner.specs.EntryError.{is_end, is_memory};
ghost use Rattle.dns_scan.specs.Token.{IsEnding, IsEntry, IsStringOnWire, SameNames};

use super::RowScanner;
use crate::appended_name::append_name;
use crate::appended_string::{append_string, append_text};
use crate::{EntryError, TextName, WireScanner};

impl<'t, N: TextName> WireScanner for RowScanner<'t, N> {
    fn scan_name_into(&mut self, octets: &mut Vec<u8>) -> Result<(), EntryError> {
        self.scan_name_and_room(0, octets)
    }

    fn scan_octets_into(&mut self, octets: &mut Vec<u8>) -> Result<(), EntryError> {
        let token = self.take_token()?;
        append_text(token, octets)
    }

    fn scan_charstr_into(&mut self, octets: &mut Vec<u8>) -> Result<(), EntryError> {
        let token = self.take_token()?;
        append_string(token, octets)
    }

    fn scan_charstr_entry_into(&mut self, octets: &mut Vec<u8>) -> Result<(), EntryError> {
        let len = octets.len();
        let appended = self.append_strings(octets);
        if appended.is_err() {
            octets.truncate(len);
        }
        appended
    }
}

impl<'t, N: TextName> RowScanner<'t, N> {
    ghost use Rattle.dns_entry_scanner.specs.RowScanner.{names_of, tokens_of};

    /// Takes the next token, and appends the octets of the name that it spells and `room` octets of any value behind them, for the
    /// caller to write over. `room` is at most 255.
    ///
    /// Fails as `scan_name_into` does, and then appends nothing.
    pub fn scan_name_and_room(
        &mut self,
        room: usize,
        octets: &mut Vec<u8>,
    ) -> Result<(), EntryError>
        requires { room ≤ 255 }
        ensures ok { OnOk result ((named : List ℕ) × AppendsName (names_of self.old) (tokens_of self.old) (tokens_of self.new) octets.old.items named
            × HasBehind room named octets.new.items) }
        ensures err { IfErr result (λ error. is_memory error ≡ false → SpellsNoName (names_of self.old) (tokens_of self.old)) }
        ensures names { SameNames (names_of self.old) (names_of self.new) }
        ensures same { OnErr result (octets.new.items ≡ octets.old.items) }
    {
        let token = self.take_token()?;
        if token.quoted {
            return Err(EntryError::Custom("quoted name"));
        }
        append_name(token, self.origin, room, octets)
    }
}

impl<'t, N> RowScanner<'t, N> {
    ghost use Rattle.dns_entry_scanner.specs.RowScanner.{names_of, tokens_of};

    /// Appends the strings of all remaining tokens, each after its length octet. If one is no string, those before it
    /// stay.
    pub(super) fn append_strings(&mut self, octets: &mut Vec<u8>) -> Result<(), EntryError>
        ensures ok { OnOk result ((wire : List ℕ) × IsEntry IsStringOnWire (tokens_of self.old) wire
            × (octets.new.items ≡ octets.old.items ++ wire)) }
        ensures none { OnOk result (tokens_of self.new ≡ []) }
        ensures err { IfErr result (λ error. is_memory error ≡ false
            → (wire : List ℕ) → IsEntry IsStringOnWire (tokens_of self.old) wire → ⊥) }
        ensures end { IfErr result (λ error. is_end error ≡ false) }
        ensures left { OnErr result (IsEnding (tokens_of self.new) (tokens_of self.old)) }
        ensures names { SameNames (names_of self.old) (names_of self.new) }
        ensures front { take (length octets.old.items) octets.new.items ≡ octets.old.items }
    {
        loop {
            let Ok(token) = self.take_token() else {
                return Ok(());
            };
            append_string(token, octets)?;
        }
    }
}
