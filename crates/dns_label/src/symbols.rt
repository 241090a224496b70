//! The symbols that characters spell, one by one.
ghost use Rattle.std.specs.Prelude.{◌≡◌, Ok, Err, IsOk, IfOk, IfErr, MatchResult};
ghost use Rattle.std.specs.Result.{ForOk};

use crate::{Symbol, SymbolCharsError};

/// An iterator of the symbols that characters spell (RFC 1035, section 5.1).
///
/// It ends at the end of the characters, or if they begin with no symbol; `ok` tells which.
#[derive(Drop)]
pub struct Symbols<C> {
    chars: Result<C, SymbolCharsError>,
}

impl<C: Iterator<Item = char> + Drop> Symbols<C> {
    ghost use Rattle.dns_label.specs.Symbols.{chars_of};
    ghost use Rattle.dns_label.specs.UsedSymbols.{MayUse, Uses, StopsUsing};

    /// Returns the symbols of these characters.
    pub fn new(chars: C) -> Self
        ensures { chars_of result ≡ Ok chars }
    {
        Symbols { chars: Ok(chars) }
    }

    /// Returns the error that the symbols ended with, if there is one.
    pub fn ok(self) -> Result<(), SymbolCharsError>
        ensures { MatchResult (chars_of self) (λ chars. result ≡ Ok tt) (λ error. result ≡ Err error) }
    {
        self.chars?;
        Ok(())
    }

    /// Calls a closure with the symbols of these characters, and returns what it returns.
    ///
    /// Fails with the closure's own error, or with the error that the symbols ended with before or while the closure
    /// took them.
    pub fn with<R: Drop, E: From<SymbolCharsError>, F: FnOnce(&mut Self) -> Result<R, E>>(
        chars: C,
        make: F,
    ) -> Result<R, E>
        requires { MayUse F.FnOnce make chars }
        ensures ok { IfOk result (λ value. (end : Symbols C) × Uses F.FnOnce make chars (Ok value) end × IsOk (chars_of end)) }
        ensures err { IfErr result (λ error. (end : Symbols C) × StopsUsing F.FnOnce make chars E.from_gives error end) }
    {
        let mut symbols = Symbols::new(chars);
        let made = make(&mut symbols)?;
        symbols.ok()?;
        Ok(made)
    }
}

impl<C: Iterator<Item = char> + Drop> Iterator for Symbols<C> {
    ghost use Rattle.dns_label.specs.Symbols.{chars_of, GivesSymbol, symbols_left};

    type Item = Symbol;

    ghost can_next = { λ symbols. ForOk (chars_of symbols) C.can_next };

    ghost next_gives = { λ old found new. GivesSymbol C.next_gives (chars_of old) found (chars_of new) };

    ghost remaining = { λ symbols. symbols_left C.remaining (chars_of symbols) };

    fn next(&mut self) -> Option<Symbol> {
        let Ok(chars) = &mut self.chars else {
            return None;
        };
        match Symbol::from_chars(chars) {
            Ok(found) => found,
            Err(error) => {
                self.chars = Err(error);
                None
            }
        }
    }
}
