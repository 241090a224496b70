//! The symbols of a token's text, handed to a closure.
ghost use Rattle.std.specs.Prelude.{◌≡◌, List, ℕ, false, IfOk, IfErr};
ghost use Rattle.dns_label.specs.declared.symbol.Symbol.{Symbol};
ghost use Rattle.dns_scan.specs.Symbols.{AreWritten, TakesAll, RefusesOne, NeverAnswers, marked};

use crate::{EntrySymbol, ScannerError};
use dns_name::Symbol;

/// Passes the symbols of a text to the closure, and returns the closure. Fails with an error of its own if a part of
/// the text is no symbol.
pub(crate) fn hand_over<Error: ScannerError, F: FnMut(Symbol) -> Result<(), Error>>(
    text: &[u8],
    mut op: F,
) -> Result<F, Error>
    requires { F.IsAlwaysCallable op }
    ensures ok { IfOk result (λ last. ((symbols : List Symbol) × AreWritten symbols text.now × TakesAll F.step op symbols last) × F.IsAlwaysCallable last) }
    ensures err { IfErr result (λ error. (symbols : List Symbol) → AreWritten symbols text.now → RefusesOne F.step op symbols error) }
    ensures own { IfErr result (λ error. NeverAnswers F.step error → (Error.is_short error ≡ false) × (Error.is_end error ≡ false)) }
{
    let mut rest = text;
    while !rest.is_empty() {
        let Some((symbol, behind)) = Symbol::split_from(rest) else {
            return Err(Error::custom("bad symbol"));
        };
        op(symbol)?;
        rest = behind;
    }
    Ok(op)
}

/// Passes the symbols of a token's text, and then the mark, to the closure, and returns the closure. Fails as
/// `hand_over` does.
pub(crate) fn hand_over_marked<Error: ScannerError, F: FnMut(EntrySymbol) -> Result<(), Error>>(
    text: &[u8],
    mut op: F,
) -> Result<F, Error>
    requires { F.IsAlwaysCallable op }
    ensures ok { IfOk result (λ last. ((symbols : List Symbol) × AreWritten symbols text.now × TakesAll F.step op (marked symbols) last) × F.IsAlwaysCallable last) }
    ensures err { IfErr result (λ error. (symbols : List Symbol) → AreWritten symbols text.now → RefusesOne F.step op (marked symbols) error) }
    ensures own { IfErr result (λ error. NeverAnswers F.step error → (Error.is_short error ≡ false) × (Error.is_end error ≡ false)) }
{
    let mut rest = text;
    while !rest.is_empty() {
        let Some((symbol, behind)) = Symbol::split_from(rest) else {
            return Err(Error::custom("bad symbol"));
        };
        op(EntrySymbol::Symbol(symbol))?;
        rest = behind;
    }
    op(EntrySymbol::EndOfToken)?;
    Ok(op)
}
