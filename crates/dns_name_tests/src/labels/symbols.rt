//! The symbols of characters, in a closure.
use dns_label::{Symbol, SymbolCharsError, Symbols};

#[test]
fn a_closure_takes_the_symbols(rt: HostRuntime) {
    assert!(rt;
        first("a\u{e9}") == Ok(Some(Symbol::Char('a')))
            && first("\u{e9}") == Err(SymbolCharsError::BadChar)
    );
    let refused: Result<Symbol, SymbolCharsError> = Symbols::with(
        "a".chars(),
        |_| Err(SymbolCharsError::ShortInput),
    );
    assert!(rt; refused == Err(SymbolCharsError::ShortInput));
}

fn first(text: &str) -> Result<Option<Symbol>, SymbolCharsError> {
    Symbols::with(text.chars(), |symbols| Ok(symbols.next()))
}
