//! The symbols of tokens, passed to closures and to converters (RFC 1035 5.1, RFC 4648 8).
use super::scanners::over;
use dns_name::{Octets, Symbol};
use dns_text::{ConvertSymbols, DecodedOctet, EntrySymbol, Scanner, StrError, base16};
use std::test::Fail;

/// Returns the octet of a symbol that was read, or 0 for any other symbol.
fn octet(symbol: Symbol) -> u32 {
    match symbol.into_octet() {
        Ok(octet) => u32::from(octet),
        Err(_) => 0,
    }
}

#[test]
fn a_closure_is_handed_symbols(rt: HostRuntime) -> Result<(), Fail> {
    let mut scanner = over(rt.alloc(), "a\\;\\112 b \\256")?;
    let mut sum = 0u32;
    scanner.scan_symbols(|symbol| {
        sum = sum.wrapping_mul(256).wrapping_add(octet(symbol));
        Ok(())
    })?;
    assert!(rt; sum == 0x61_3b_70);
    let refused = scanner.scan_symbols(|_| Err(StrError::Custom("no")));
    assert!(rt; refused == Err(StrError::Custom("no")));
    assert!(rt; scanner.peek_text()? == b"b".as_slice());
    scanner.scan_symbols(|_| Ok(()))?;
    let refused = scanner.scan_symbols(|_| Ok(()));
    assert!(rt; refused == Err(StrError::Custom("bad symbol")));
    Ok(())
}

#[test]
fn a_closure_is_handed_an_entry(rt: HostRuntime) -> Result<(), Fail> {
    let mut scanner = over(rt.alloc(), "a bc")?;
    let mut sum = 0u64;
    scanner.scan_entry_symbols(|symbol| {
        let next = match symbol {
            EntrySymbol::Symbol(symbol) => octet(symbol),
            EntrySymbol::EndOfToken => 0xff,
        };
        sum = sum.wrapping_mul(256).wrapping_add(u64::from(next));
        Ok(())
    })?;
    assert!(rt; sum == 0x61_ff_62_63_ff && scanner.is_exhausted());
    let mut scanner = over(rt.alloc(), "a bc")?;
    let refused = scanner.scan_entry_symbols(|symbol| match symbol {
        EntrySymbol::Symbol(_) => Ok(()),
        EntrySymbol::EndOfToken => Err(StrError::TrailingTokens),
    });
    assert!(rt; refused == Err(StrError::TrailingTokens));
    Ok(())
}

/// Returns the output of the converter for a symbol that it accepts.
fn given<C: ConvertSymbols<Symbol, StrError, Converted = DecodedOctet>>(
    converter: &mut C,
    character: char,
) -> Result<Option<DecodedOctet>, StrError> {
    converter.process_symbol(Symbol::Char(character))
}

#[test]
fn an_octet_is_given_when_it_is_whole(rt: HostRuntime) -> Result<(), Fail> {
    let mut converter = base16::SymbolConverter::new();
    assert!(rt; given(&mut converter, '6')?.is_none());
    let octet = given(&mut converter, 'f')?;
    assert!(rt; matches!(octet, Some(octet) if octet.octets() == b"o".as_slice()));
    let tail: Result<_, StrError> = ConvertSymbols::<Symbol, StrError>::process_tail(
        &mut converter,
    );
    assert!(rt; tail?.is_none());
    Ok(())
}
