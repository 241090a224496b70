//! Scanning the tokens of an entry of a zone file (RFC 1035 5.1).
ghost use Rattle.std.specs.Prelude.{◌≡◌, ◌≢◌, ◌↔◌, List, ℕ, [], ◌∷◌, false, true, Some, None, IsUtf8, string_bytes, drop, IsTrue, IfOk, IfErr, OnOk, OnErr};
ghost use Rattle.std.specs.Fn.{FnOnceReturnsAt};
ghost use Rattle.dns_label.specs.declared.symbol.Symbol.{Symbol};
ghost use Rattle.dns_scan.specs.declared.symbols.entry_symbol.EntrySymbol.{EntrySymbol};
ghost use Rattle.dns_scan.specs.Converted.{IsConverted};
ghost use Rattle.dns_scan.specs.Symbols.{HasSymbols, HasMarked, TakesAll, RefusesOne, NeverAnswers};
ghost use Rattle.dns_scan.specs.Token.{Token, IsEnding, Takes, HasText, SpellsOctets, SpellsString, IsEntry, IsStringOnWire, IsWord, SameNames, ends_white, unquoted, marker};

use crate::symbols::converting::{append_given, convert_marked, convert_text};
use crate::symbols::handing_over::{hand_over, hand_over_marked};
use crate::{CharStr, ConvertSymbols, EntrySymbol, ScannerError};
use dns_name::{
    EmptyBuilder, FreezeBuilder, FromBuilder, Octets, OctetsBuilder, Remembers, Symbol, ToName,
};

/// A scanner over the tokens of an entry.
///
/// `tokens` are those that are left, `names` says which name a text spells here, and `gap` are the octets of the text
/// between the next token and the one before it, or the start of the entry. Each call that scans takes the tokens of
/// its value. It fails with an error other than `short_buf` only if the tokens do not begin with such a value; the
/// tokens left are then a suffix of those left before.
///
/// A call that takes one token fails with `end_of_entry` exactly if there is none (`short_buf` aside). One that takes
/// all that are left never does.
pub trait Scanner {
    type Octets: FromBuilder + Drop;

    type OctetsBuilder: EmptyBuilder + FreezeBuilder<Octets = Self::Octets> + Drop;

    type Name: ToName;

    type Error: ScannerError;

    ghost tokens: { Self → List Token };

    ghost names: { Self → List ℕ → List (List ℕ) → Type 0 };

    ghost gap: { Self → List ℕ };

    /// Returns whether there is white space directly before the next token. An entry that begins with white space has
    /// the owner of the entry before it (RFC 1035 5.1).
    fn has_space(&self) -> bool
        ensures { result ≡ ends_white (gap self.now) };

    /// Returns whether there are tokens left.
    fn continues(&mut self) -> bool
        ensures some { IsTrue result ↔ (tokens self.old ≢ []) }
        ensures stays { tokens self.new ≡ tokens self.old }
        ensures gap { gap self.new ≡ gap self.old }
        ensures names { SameNames (names self.old) (names self.new) };

    /// Returns the octets that a token spells.
    fn scan_octets(&mut self) -> Result<Self::Octets, Self::Error>
        ensures ok { IfOk result (λ octets. Takes (SpellsOctets (⟦<Self::Octets as Octets>⟧.list octets)) (tokens self.old) (tokens self.new)) }
        ensures err { IfErr result (λ error. Self.Error.is_short error ≡ false → (octets : List ℕ) (left : List Token) → Takes (SpellsOctets octets) (tokens self.old) left → ⊥) }
        ensures end { IfErr result (λ error. Self.Error.is_short error ≡ false → ((Self.Error.is_end error ≡ true) ↔ (tokens self.old ≡ []))) }
        ensures left { OnErr result (IsEnding (tokens self.new) (tokens self.old)) }
        ensures names { SameNames (names self.old) (names self.new) };

    /// Returns the string that a token spells.
    fn scan_charstr(&mut self) -> Result<CharStr<Self::Octets>, Self::Error>
        ensures ok { IfOk result (λ string. Takes (SpellsString string) (tokens self.old) (tokens self.new)) }
        ensures err { IfErr result (λ error. Self.Error.is_short error ≡ false → (string : List ℕ) (left : List Token) → Takes (SpellsString string) (tokens self.old) left → ⊥) }
        ensures end { IfErr result (λ error. Self.Error.is_short error ≡ false → ((Self.Error.is_end error ≡ true) ↔ (tokens self.old ≡ []))) }
        ensures left { OnErr result (IsEnding (tokens self.new) (tokens self.old)) }
        ensures names { SameNames (names self.old) (names self.new) };

    /// Takes the next token if it is the marker of unknown data, and returns whether it is. Fails only with
    /// `short_buf`.
    fn scan_opt_unknown_marker(&mut self) -> Result<bool, Self::Error>
        ensures marked { IfOk result (λ marked. IsTrue marked → tokens self.old ≡ marker ∷ tokens self.new) }
        ensures other { IfOk result (λ marked. (IsTrue marked → ⊥) → (tokens self.new ≡ tokens self.old) × ((left : List Token) → tokens self.old ≡ marker ∷ left → ⊥)) }
        ensures err { IfErr result (λ error. Self.Error.is_short error ≡ true) }
        ensures left { OnErr result (IsEnding (tokens self.new) (tokens self.old)) }
        ensures names { SameNames (names self.old) (names self.new) };

    /// Passes the text of a word to the closure, and returns what that returns. A word is an unquoted token without a
    /// backslash. Fails if the closure returns `None`.
    fn scan_ascii_str<F, T>(&mut self, op: F) -> Result<T, Self::Error>
    where
        F: FnOnce(&str) -> Option<T>,
        requires { F.IsAlwaysCallable op }
        ensures ok { IfOk result (λ value. (text : List ℕ) × Takes (IsWord text) (tokens self.old) (tokens self.new) × FnOnceReturnsAt F.FnOnce op text (Some value)) }
        ensures err { IfErr result (λ error. Self.Error.is_short error ≡ false → (text : List ℕ) (left : List Token) → Takes (IsWord text) (tokens self.old) left
            → FnOnceReturnsAt F.FnOnce op text None) }
        ensures end { IfErr result (λ error. Self.Error.is_short error ≡ false → ((Self.Error.is_end error ≡ true) ↔ (tokens self.old ≡ []))) }
        ensures left { OnErr result (IsEnding (tokens self.new) (tokens self.old)) }
        ensures names { SameNames (names self.old) (names self.new) };

    /// Returns the name that an unquoted token spells.
    fn scan_name(&mut self) -> Result<Self::Name, Self::Error>
        ensures ok { IfOk result (λ name. (text : List ℕ) × (tokens self.old ≡ unquoted text ∷ tokens self.new) × names self.old text (⟦<Self::Name as ToName>⟧.name name)) }
        ensures err { IfErr result (λ error. Self.Error.is_short error ≡ false → (text : List ℕ) (left : List Token) (name : List (List ℕ)) → tokens self.old ≡ unquoted text ∷ left → names self.old text name → ⊥) }
        ensures end { IfErr result (λ error. Self.Error.is_short error ≡ false → ((Self.Error.is_end error ≡ true) ↔ (tokens self.old ≡ []))) }
        ensures left { OnErr result (IsEnding (tokens self.new) (tokens self.old)) }
        ensures names { SameNames (names self.old) (names self.new) };

    /// Returns the text that a token spells. Fails if its octets are not UTF-8.
    fn scan_string(&mut self) -> Result<String, Self::Error>
        ensures ok { IfOk result (λ text. Takes (SpellsOctets (string_bytes text)) (tokens self.old) (tokens self.new)) }
        ensures err { IfErr result (λ error. Self.Error.is_short error ≡ false → (text : List ℕ) (left : List Token) → IsUtf8 text → Takes (SpellsOctets text) (tokens self.old) left → ⊥) }
        ensures end { IfErr result (λ error. Self.Error.is_short error ≡ false → ((Self.Error.is_end error ≡ true) ↔ (tokens self.old ≡ []))) }
        ensures left { OnErr result (IsEnding (tokens self.new) (tokens self.old)) }
        ensures names { SameNames (names self.old) (names self.new) };

    /// Returns all strings that are left, one after another, each after its length octet (RFC 1035 3.3).
    fn scan_charstr_entry(&mut self) -> Result<Self::Octets, Self::Error>
        ensures ok { IfOk result (λ octets. IsEntry IsStringOnWire (tokens self.old) (⟦<Self::Octets as Octets>⟧.list octets) × (tokens self.new ≡ [])) }
        ensures err { IfErr result (λ error. Self.Error.is_short error ≡ false → (octets : List ℕ) → IsEntry IsStringOnWire (tokens self.old) octets → ⊥) }
        ensures end { IfErr result (λ error. Self.Error.is_short error ≡ false → Self.Error.is_end error ≡ false) }
        ensures left { OnErr result (IsEnding (tokens self.new) (tokens self.old)) }
        ensures names { SameNames (names self.old) (names self.new) };

    /// Returns the texts of all words that are left, joined. There may be none.
    fn scan_ascii_entry(&mut self) -> Result<String, Self::Error>
        ensures ok { IfOk result (λ text. IsEntry IsWord (tokens self.old) (string_bytes text) × (tokens self.new ≡ [])) }
        ensures err { IfErr result (λ error. Self.Error.is_short error ≡ false → (text : List ℕ) → IsEntry IsWord (tokens self.old) text → ⊥) }
        ensures end { IfErr result (λ error. Self.Error.is_short error ≡ false → Self.Error.is_end error ≡ false) }
        ensures left { OnErr result (IsEnding (tokens self.new) (tokens self.old)) }
        ensures names { SameNames (names self.old) (names self.new) };

    /// Returns a builder that holds no octets yet, has all its room and remembers nothing. The tokens stay. Fails only
    /// with `short_buf`.
    fn octets_builder(&mut self) -> Result<Self::OctetsBuilder, Self::Error>
        ensures ok { IfOk result (λ builder. ⟦<Self::OctetsBuilder as Octets>⟧.list builder ≡ []) }
        ensures known { IfOk result (λ builder. ⟦<Self::OctetsBuilder as Remembers>⟧.known builder ≡ []) }
        ensures limit { IfOk result (λ builder. ⟦<Self::OctetsBuilder as OctetsBuilder>⟧.bound builder ≡ ⟦<Self::OctetsBuilder as EmptyBuilder>⟧.limit) }
        ensures err { IfErr result (λ error. Self.Error.is_short error ≡ true) }
        ensures stays { tokens self.new ≡ tokens self.old }
        ensures gap { gap self.new ≡ gap self.old }
        ensures names { SameNames (names self.old) (names self.new) };

    /// Returns the text of the next token, as it is written and without its quotes. The token stays. Fails with
    /// `end_of_entry` if there is none.
    fn peek_text(&self) -> Result<&[u8], Self::Error>
        ensures ok { IfOk result (λ text. (left : List Token) × Takes (HasText text.now) (tokens self.now) left) }
        ensures err { OnErr result (tokens self.now ≡ []) }
        ensures end { IfErr result (λ error. (Self.Error.is_short error ≡ false) × (Self.Error.is_end error ≡ true)) };

    /// Takes the next token, if there is one.
    fn skip_token(&mut self)
        ensures taken { tokens self.new ≡ drop 1 (tokens self.old) }
        ensures names { SameNames (names self.old) (names self.new) };

    /// Passes the symbols of the next token to the closure, one after another, and takes the token.
    ///
    /// Fails if there is none, if a part of its text is no symbol, and if the closure fails; the tokens then stay. Only
    /// the closure's error can be `short_buf`.
    final fn scan_symbols<F>(&mut self, op: F) -> Result<(), Self::Error>
    where
        F: FnMut(Symbol) -> Result<(), Self::Error>,
        requires { F.IsAlwaysCallable op }
        ensures ok { OnOk result ((symbols : List Symbol) × (last : F) × Takes (HasSymbols symbols) (tokens self.old) (tokens self.new) × TakesAll F.step op symbols last) }
        ensures err { IfErr result (λ error. (symbols : List Symbol) (left : List Token) → Takes (HasSymbols symbols) (tokens self.old) left → RefusesOne F.step op symbols error) }
        ensures end { IfErr result (λ error. tokens self.old ≡ [] → Self.Error.is_end error ≡ true) }
        ensures own { IfErr result (λ error. NeverAnswers F.step error → (Self.Error.is_short error ≡ false) × (Self.Error.is_end error ≡ true → tokens self.old ≡ [])) }
        ensures stays { OnErr result (tokens self.new ≡ tokens self.old) }
        ensures names { SameNames (names self.old) (names self.new) }
    {
        hand_over(self.peek_text()?, op)?;
        self.skip_token();
        Ok(())
    }

    /// Passes the symbols of all tokens that are left to the closure, one after another, with a mark after each
    /// token's.
    ///
    /// Fails if a part of a token's text is no symbol, and if the closure fails. Only the closure's error can be
    /// `short_buf` or `end_of_entry`.
    final fn scan_entry_symbols<F>(&mut self, mut op: F) -> Result<(), Self::Error>
    where
        F: FnMut(EntrySymbol) -> Result<(), Self::Error>,
        requires { F.IsAlwaysCallable op }
        ensures ok { OnOk result (((symbols : List EntrySymbol) × (last : F) × IsEntry HasMarked (tokens self.old) symbols × TakesAll F.step op symbols last) × (tokens self.new ≡ [])) }
        ensures err { IfErr result (λ error. (symbols : List EntrySymbol) → IsEntry HasMarked (tokens self.old) symbols → RefusesOne F.step op symbols error) }
        ensures own { IfErr result (λ error. NeverAnswers F.step error → (Self.Error.is_short error ≡ false) × (Self.Error.is_end error ≡ false)) }
        ensures left { OnErr result (IsEnding (tokens self.new) (tokens self.old)) }
        ensures names { SameNames (names self.old) (names self.new) }
    {
        while self.continues() {
            let text = self.peek_text()?;
            op = hand_over_marked(text, op)?;
            self.skip_token();
        }
        Ok(())
    }

    /// Converts the symbols of the next token to octets. The converter must have taken nothing yet.
    ///
    /// Fails if there is no such token, and with `short_buf` if there is no room or no memory; the tokens then stay.
    final fn convert_token<C>(&mut self, mut converter: C) -> Result<Self::Octets, Self::Error>
    where
        C: ConvertSymbols<Symbol, Self::Error> + Drop,
        requires { C.has_taken converter [] [] }
        ensures ok { IfOk result (λ octets. Takes (IsConverted C.converts (⟦<Self::Octets as Octets>⟧.list octets)) (tokens self.old) (tokens self.new)) }
        ensures err { IfErr result (λ error. Self.Error.is_short error ≡ false → (octets : List ℕ) (left : List Token) → Takes (IsConverted C.converts octets) (tokens self.old) left → ⊥) }
        ensures end { IfErr result (λ error. Self.Error.is_short error ≡ false → tokens self.old ≡ [] → Self.Error.is_end error ≡ true) }
        ensures stays { OnErr result (tokens self.new ≡ tokens self.old) }
        ensures names { SameNames (names self.old) (names self.new) }
    {
        let mut builder = self.octets_builder()?;
        convert_text(self.peek_text()?, &mut converter, &mut builder)?;
        let given = converter.process_tail()?;
        append_given(&mut builder, given)?;
        self.skip_token();
        Ok(builder.freeze())
    }

    /// Converts the symbols of all tokens that are left to octets, with a mark after each token's. The converter must
    /// have taken nothing yet.
    ///
    /// Fails if the tokens left are not converted to any, and with `short_buf` if there is no room or no memory.
    final fn convert_entry<C>(&mut self, mut converter: C) -> Result<Self::Octets, Self::Error>
    where
        C: ConvertSymbols<EntrySymbol, Self::Error> + Drop,
        requires { C.has_taken converter [] [] }
        ensures ok { IfOk result (λ octets. ((symbols : List EntrySymbol) × IsEntry HasMarked (tokens self.old) symbols × C.converts symbols (⟦<Self::Octets as Octets>⟧.list octets)) × (tokens self.new ≡ [])) }
        ensures err { IfErr result (λ error. Self.Error.is_short error ≡ false → (symbols : List EntrySymbol) (octets : List ℕ) → IsEntry HasMarked (tokens self.old) symbols → C.converts symbols octets → ⊥) }
        ensures left { OnErr result (IsEnding (tokens self.new) (tokens self.old)) }
        ensures names { SameNames (names self.old) (names self.new) }
    {
        let mut builder = self.octets_builder()?;
        while self.continues() {
            let text = self.peek_text()?;
            convert_marked(text, &mut converter, &mut builder)?;
            self.skip_token();
        }
        let given = converter.process_tail()?;
        append_given(&mut builder, given)?;
        Ok(builder.freeze())
    }
}
