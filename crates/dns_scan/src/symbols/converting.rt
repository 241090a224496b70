//! The symbols of a token's text, handed to a converter.
ghost use Rattle.std.specs.Prelude.{◌≡◌, ◌≢◌, ◌++◌, List, ℕ, [], false, true, None, OnOk, OnErr, IfErr};
ghost use Rattle.dns_label.specs.declared.symbol.Symbol.{Symbol};
ghost use Rattle.dns_scan.specs.declared.symbols.entry_symbol.EntrySymbol.{EntrySymbol};
ghost use Rattle.dns_scan.specs.Converted.{octets_given};
ghost use Rattle.dns_scan.specs.Symbols.{AreWritten, marked};

use crate::{ConvertSymbols, EntrySymbol, ScannerError};
use dns_name::{Octets, OctetsBuilder, Symbol};

/// Appends the octets that a converter returned, if any. Fails only if there are some, and no room or no memory for
/// them.
pub(crate) fn append_given<Error: ScannerError, Octs: Octets + Drop, Builder: OctetsBuilder>(
    builder: &mut Builder,
    given: Option<Octs>,
) -> Result<(), Error>
    ensures ok { OnOk result (Builder.list builder.new ≡ Builder.list builder.old ++ octets_given Octs.list given) }
    ensures err { IfErr result (λ error. Error.is_short error ≡ true) }
    ensures some { OnErr result (given ≢ None) }
{
    let Some(octets) = given else {
        return Ok(());
    };
    match builder.append_slice(octets.octets()) {
        Ok(()) => Ok(()),
        Err(_) => Err(Error::short_buf()),
    }
}

/// Passes the symbols of a text to a converter that took none yet, and appends the octets that it returns.
pub(crate) fn convert_text<
    Error: ScannerError,
    C: ConvertSymbols<Symbol, Error>,
    Builder: OctetsBuilder,
>(text: &[u8], converter: &mut C, builder: &mut Builder) -> Result<(), Error>
    requires { C.has_taken converter.old [] (Builder.list builder.old) }
    ensures ok { OnOk result ((symbols : List Symbol) × AreWritten symbols text.now × C.has_taken converter.new symbols (Builder.list builder.new)) }
    ensures err { IfErr result (λ error. Error.is_short error ≡ false → (symbols : List Symbol) (octets : List ℕ) → AreWritten symbols text.now → C.converts symbols octets → ⊥) }
{
    let mut rest = text;
    while !rest.is_empty() {
        let Some((symbol, behind)) = Symbol::split_from(rest) else {
            return Err(Error::custom("bad symbol"));
        };
        let given = converter.process_symbol(symbol)?;
        append_given(builder, given)?;
        rest = behind;
    }
    Ok(())
}

/// Passes the symbols of a token's text, and then the mark, to a converter, and appends the octets that it returns.
pub(crate) fn convert_marked<
    Error: ScannerError,
    C: ConvertSymbols<EntrySymbol, Error>,
    Builder: OctetsBuilder,
>(text: &[u8], converter: &mut C, builder: &mut Builder) -> Result<(), Error>
    ensures ok { OnOk result ((symbols : List Symbol) × AreWritten symbols text.now × ((front : List EntrySymbol) → C.has_taken converter.old front (Builder.list builder.old)
        → C.has_taken converter.new (front ++ marked symbols) (Builder.list builder.new))) }
    ensures err { IfErr result (λ error. Error.is_short error ≡ false → (front : List EntrySymbol) → C.has_taken converter.old front (Builder.list builder.old)
        → (symbols : List Symbol) (more : List EntrySymbol) (octets : List ℕ) → AreWritten symbols text.now → C.converts (front ++ (marked symbols ++ more)) octets → ⊥) }
{
    let mut rest = text;
    while !rest.is_empty() {
        let Some((symbol, behind)) = Symbol::split_from(rest) else {
            return Err(Error::custom("bad symbol"));
        };
        let given = converter.process_symbol(EntrySymbol::Symbol(symbol))?;
        append_given(builder, given)?;
        rest = behind;
    }
    let given = converter.process_symbol(EntrySymbol::EndOfToken)?;
    append_given(builder, given)
}
