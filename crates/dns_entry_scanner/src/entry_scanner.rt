//! Scanners that say whether a token is quoted.
ghost use Rattle.std.specs.Prelude.{◌≡◌, ◌∷◌, List, true, IsTrue, ◌↔◌};
ghost use Rattle.dns_scan.specs.Token.{Token, Takes};

use crate::WireScanner;

/// A scanner over the tokens of a row that says whether a token is quoted.
pub trait EntryScanner: WireScanner {
    /// Returns whether there is a next token and it is quoted.
    fn next_is_quoted(&self) -> bool
        ensures { IsTrue result ↔ ((left : List Token) × Takes (λ token. token.quoted ≡ true) (Self.tokens self.now) left) };
}
