//! Converters from symbols to octets.
ghost use Rattle.std.specs.Prelude.{◌≡◌, ◌++◌, ◌∷◌, List, ℕ, [], false, IfOk, IfErr};
ghost use Rattle.dns_scan.specs.Converted.{octets_given};

use crate::ScannerError;
use dns_name::Octets;

/// A converter from symbols, which it takes one after another, to octets.
///
/// `has_taken` relates it to the symbols that it took and the octets that it returned for them; `converts` says which
/// octets are those of all symbols. A call fails with an error other than `short_buf` only if no symbols that begin
/// with those taken are converted to any octets. After an error, and after the tail, the converter is of no more use.
pub trait ConvertSymbols<Sym, Error: ScannerError> {
    /// What holds the octets that a call returns.
    type Converted: Octets + Drop;

    ghost has_taken: { Self → List Sym → List ℕ → Type 0 };

    ghost converts: { List Sym → List ℕ → Type 0 };

    /// Takes the next symbol, and returns the octets that it completes, if any.
    fn process_symbol(&mut self, symbol: Sym) -> Result<Option<Self::Converted>, Error>
        ensures ok { IfOk result (λ given. (symbols : List Sym) (octets : List ℕ) → has_taken self.old symbols octets
            → has_taken self.new (symbols ++ symbol ∷ []) (octets ++ octets_given Self.Converted.list given)) }
        ensures err { IfErr result (λ error. Error.is_short error ≡ false → (symbols : List Sym) (octets : List ℕ) → has_taken self.old symbols octets
            → (more : List Sym) (all : List ℕ) → converts (symbols ++ symbol ∷ more) all → ⊥) };

    /// Returns the octets that are left at the end of the symbols, if any.
    fn process_tail(&mut self) -> Result<Option<Self::Converted>, Error>
        ensures ok { IfOk result (λ given. (symbols : List Sym) (octets : List ℕ) → has_taken self.old symbols octets
            → converts symbols (octets ++ octets_given Self.Converted.list given)) }
        ensures err { IfErr result (λ error. Error.is_short error ≡ false → (symbols : List Sym) (octets : List ℕ) → has_taken self.old symbols octets
            → (all : List ℕ) → converts symbols all → ⊥) };
}
