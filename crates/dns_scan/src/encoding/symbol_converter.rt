//! Converters of symbols by an encoding.
ghost use Rattle.std.specs.Prelude.{◌≡◌, ◌++◌, ◌∷◌, List, ℕ, [], false, IfOk, IfErr};
ghost use Rattle.dns_label.specs.declared.symbol.Symbol.{Symbol};
ghost use Rattle.dns_scan.specs.declared.symbols.entry_symbol.EntrySymbol.{EntrySymbol};
ghost use Rattle.dns_scan.specs.Converted.{Deciphers, DeciphersEntry, HasDeciphered, HasDecipheredEntry, octets_given};
ghost use Rattle.dns_scan.specs.Decoding.{Held};

use super::entry::scan_error;
use super::group::Group;
use super::{Base, DecodeError, Encoding};
use crate::{ConvertSymbols, EntrySymbol, ScannerError};
use dns_name::{Octets, Symbol};
use std::marker::{Model, PhantomData};

/// The octet that a symbol made whole.
#[derive(Clone, Copy, Debug, PartialEq, Eq)]
pub struct DecodedOctet([u8; 1]);

impl Octets for DecodedOctet {
    ghost list = { λ octet. octet.0 };

    fn octets(&self) -> &[u8] {
        &self.0
    }
}

/// A converter of symbols, which have to be plain characters of the text. It takes no memory, and never fails for lack
/// of it.
///
/// A contract sees the bits that wait for the rest of their octet, and the pads.
#[derive(Debug, Drop)]
pub struct SymbolConverter<E: Encoding> {
    group: Group,
    encoding: PhantomData<E>,
}

impl<E: Encoding> Model for SymbolConverter<E> {
    ghost Value = { Held };

    ghost view = { λ converter. converter.group };
}

impl<E: Encoding> SymbolConverter<E> {
    /// Returns a converter before its symbols.
    pub fn new() -> Self
        ensures { HasDeciphered E.BASE result [] [] }
    {
        SymbolConverter {
            group: Group::none(),
            encoding: PhantomData,
        }
    }
}

impl<E: Encoding, Error: ScannerError> ConvertSymbols<Symbol, Error> for SymbolConverter<E> {
    type Converted = DecodedOctet;

    ghost has_taken = { HasDeciphered E.BASE };

    ghost converts = { Deciphers E.BASE };

    fn process_symbol(&mut self, symbol: Symbol) -> Result<Option<DecodedOctet>, Error>
        ensures ok { IfOk result (λ given. (symbols : List Symbol) (octets : List ℕ) → HasDeciphered E.BASE self.old symbols octets
            → HasDeciphered E.BASE self.new (symbols ++ symbol ∷ []) (octets ++ octets_given ⟦<DecodedOctet as Octets>⟧.list given)) }
        ensures err { IfErr result (λ error. Error.is_short error ≡ false → (symbols : List Symbol) (octets : List ℕ) → HasDeciphered E.BASE self.old symbols octets
            → (more : List Symbol) (all : List ℕ) → Deciphers E.BASE (symbols ++ symbol ∷ more) all → ⊥) }
        ensures itself { IfErr result (λ error. Error.is_short error ≡ false) }
        ensures end { IfErr result (λ error. Error.is_end error ≡ false) }
    {
        self.group.take_symbol(E::BASE, symbol)
    }

    fn process_tail(&mut self) -> Result<Option<DecodedOctet>, Error>
        ensures ok { IfOk result (λ given. (symbols : List Symbol) (octets : List ℕ) → HasDeciphered E.BASE self.old symbols octets
            → Deciphers E.BASE symbols (octets ++ octets_given ⟦<DecodedOctet as Octets>⟧.list given)) }
        ensures err { IfErr result (λ error. Error.is_short error ≡ false → (symbols : List Symbol) (octets : List ℕ) → HasDeciphered E.BASE self.old symbols octets
            → (all : List ℕ) → Deciphers E.BASE symbols all → ⊥) }
        ensures itself { IfErr result (λ error. Error.is_short error ≡ false) }
        ensures end { IfErr result (λ error. Error.is_end error ≡ false) }
    {
        self.group.end_symbols(E::BASE)
    }
}

/// The symbols of all tokens are those of one text.
impl<E: Encoding, Error: ScannerError> ConvertSymbols<EntrySymbol, Error> for SymbolConverter<E> {
    type Converted = DecodedOctet;

    ghost has_taken = { HasDecipheredEntry E.BASE };

    ghost converts = { DeciphersEntry E.BASE };

    fn process_symbol(&mut self, symbol: EntrySymbol) -> Result<Option<DecodedOctet>, Error>
        ensures ok { IfOk result (λ given. (symbols : List EntrySymbol) (octets : List ℕ) → HasDecipheredEntry E.BASE self.old symbols octets
            → HasDecipheredEntry E.BASE self.new (symbols ++ symbol ∷ []) (octets ++ octets_given ⟦<DecodedOctet as Octets>⟧.list given)) }
        ensures err { IfErr result (λ error. Error.is_short error ≡ false → (symbols : List EntrySymbol) (octets : List ℕ) → HasDecipheredEntry E.BASE self.old symbols octets
            → (more : List EntrySymbol) (all : List ℕ) → DeciphersEntry E.BASE (symbols ++ symbol ∷ more) all → ⊥) }
        ensures itself { IfErr result (λ error. Error.is_short error ≡ false) }
        ensures end { IfErr result (λ error. Error.is_end error ≡ false) }
    {
        match symbol {
            EntrySymbol::Symbol(symbol) => self.group.take_symbol(E::BASE, symbol),
            EntrySymbol::EndOfToken => Ok(None),
        }
    }

    fn process_tail(&mut self) -> Result<Option<DecodedOctet>, Error>
        ensures ok { IfOk result (λ given. (symbols : List EntrySymbol) (octets : List ℕ) → HasDecipheredEntry E.BASE self.old symbols octets
            → DeciphersEntry E.BASE symbols (octets ++ octets_given ⟦<DecodedOctet as Octets>⟧.list given)) }
        ensures err { IfErr result (λ error. Error.is_short error ≡ false → (symbols : List EntrySymbol) (octets : List ℕ) → HasDecipheredEntry E.BASE self.old symbols octets
            → (all : List ℕ) → DeciphersEntry E.BASE symbols all → ⊥) }
        ensures itself { IfErr result (λ error. Error.is_short error ≡ false) }
        ensures end { IfErr result (λ error. Error.is_end error ≡ false) }
    {
        self.group.end_symbols(E::BASE)
    }
}

impl Group {
    /// Takes the next symbol, and returns the octet that is whole with it, if any. Fails if it is no plain character.
    /// It takes no memory.
    fn take_symbol<Error: ScannerError>(
        &mut self,
        base: Base,
        symbol: Symbol,
    ) -> Result<Option<DecodedOctet>, Error>
        ensures ok { IfOk result (λ given. (symbols : List Symbol) (octets : List ℕ) → HasDeciphered base self.old symbols octets
            → HasDeciphered base self.new (symbols ++ symbol ∷ []) (octets ++ octets_given ⟦<DecodedOctet as Octets>⟧.list given)) }
        ensures err { IfErr result (λ error. Error.is_short error ≡ false → (symbols : List Symbol) (octets : List ℕ) → HasDeciphered base self.old symbols octets
            → (more : List Symbol) (all : List ℕ) → Deciphers base (symbols ++ symbol ∷ more) all → ⊥) }
        ensures itself { IfErr result (λ error. Error.is_short error ≡ false) }
        ensures end { IfErr result (λ error. Error.is_end error ≡ false) }
    {
        let Symbol::Char(character) = symbol else {
            return Err(Error::custom("escaped character"));
        };
        match self.take(base, character) {
            Ok(Some(octet)) => Ok(Some(DecodedOctet([octet]))),
            Ok(None) => Ok(None),
            Err(error) => Err(scan_error(error)),
        }
    }

    /// Ends the symbols. No octet is left then. Fails if they may not end here.
    fn end_symbols<Error: ScannerError>(&self, base: Base) -> Result<Option<DecodedOctet>, Error>
        ensures ok { IfOk result (λ given. (symbols : List Symbol) (octets : List ℕ) → HasDeciphered base self.now symbols octets
            → Deciphers base symbols (octets ++ octets_given ⟦<DecodedOctet as Octets>⟧.list given)) }
        ensures err { IfErr result (λ error. (symbols : List Symbol) (octets : List ℕ) → HasDeciphered base self.now symbols octets
            → (all : List ℕ) → Deciphers base symbols all → ⊥) }
        ensures itself { IfErr result (λ error. Error.is_short error ≡ false) }
        ensures end { IfErr result (λ error. Error.is_end error ≡ false) }
    {
        if self.is_whole(base) {
            return Ok(None);
        }
        Err(scan_error(DecodeError::ShortInput))
    }
}
