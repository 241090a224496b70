//! Labels from text (RFC 1035 5.1).
ghost use Rattle.std.specs.Prelude.{◌≡◌, ◌∷◌, ◌++◌, [], List, ℕ, None, IfErr, OnOk};
ghost use Rattle.std.specs.Iterator.{IsFinite, Yields, YieldsThen, Drains};
ghost use Rattle.std.specs.List.{flat_map};
ghost use Rattle.dns_label.specs.declared.symbol.Symbol.{Symbol};
ghost use Rattle.dns_label.specs.Symbol.{spelled};
ghost use Rattle.dns_flat.specs.BuiltText.{MayPut, Puts, IsNotPut, StopsPutting, put_symbol};

use super::NameBuilder;
use dns_label::{Symbol, Symbols};
use dns_octets::WriteOctets;
use dns_wire::text::is_dot;
use dns_wire::{FromStrError, PresentationError};

impl<B: WriteOctets> NameBuilder<B> {
    /// Appends symbols one after another: a dot ends the open label, and another symbol adds its octet to it.
    ///
    /// Stops at the first symbol that does not fit. It fails with an error of the text if the symbol is none of a text,
    /// is a dot with no label before it, or makes the label or the name too long; and with `ShortBuf` if there is no
    /// room or no memory. The symbols before it stay.
    pub fn append_symbols<S: Iterator<Item = Symbol> + Drop>(
        &mut self,
        mut symbols: S,
    ) -> Result<(), FromStrError>
        requires can { S.can_next symbols }
        requires ends { IsFinite (S.remaining symbols) }
        ensures ok { OnOk result ((list : List Symbol) × Drains S.next_gives symbols list × Puts self.old list self.new) }
        ensures err { IfErr result (λ error. (list : List Symbol) × (symbol : Symbol) × (end : S) × Yields S.next_gives symbols (list ++ symbol ∷ []) end × Puts self.old list self.new × IsNotPut self.new symbol error) }
    {
        self.append_all(&mut symbols)
    }

    /// Appends the symbols that characters spell one after another, as `append_symbols` does.
    ///
    /// Fails too if no symbol begins at a character. The symbols before it stay.
    pub fn append_chars<C: Iterator<Item = char> + Drop>(
        &mut self,
        chars: C,
    ) -> Result<(), FromStrError>
        requires can { C.can_next chars }
        requires ends { IsFinite (C.remaining chars) }
        ensures ok { OnOk result ((list : List Symbol) × Drains C.next_gives chars (flat_map spelled list) × Puts self.old list self.new) }
        ensures err { IfErr result (StopsPutting C.next_gives chars self.old self.new) }
    {
        let mut symbols = Symbols::new(chars);
        self.append_all(&mut symbols)?;
        match symbols.ok() {
            Ok(()) => Ok(()),
            Err(_) => Err(FromStrError::Presentation(PresentationError::BadSymbol)),
        }
    }

    /// Does the same with symbols that are borrowed.
    fn append_all<S: Iterator<Item = Symbol>>(
        &mut self,
        symbols: &mut S,
    ) -> Result<(), FromStrError>
        requires can { S.can_next symbols.old }
        requires ends { IsFinite (S.remaining symbols.old) }
        ensures ok { OnOk result ((list : List Symbol) × YieldsThen S.next_gives symbols.old list None symbols.new × Puts self.old list self.new) }
        ensures err { IfErr result (λ error. (list : List Symbol) × (symbol : Symbol) × Yields S.next_gives symbols.old (list ++ symbol ∷ []) symbols.new × Puts self.old list self.new × IsNotPut self.new symbol error) }
    {
        'symbols: while let Some(symbol) = symbols.next() {
            self.push_symbol(symbol)?;
        }
        Ok(())
    }

    /// Appends a symbol, or leaves the name as it was.
    fn push_symbol(&mut self, symbol: Symbol) -> Result<(), FromStrError>
        ensures ok { OnOk result (MayPut self.old symbol × (self.new ≡ put_symbol self.old symbol)) }
        ensures err { IfErr result (λ error. (self.new ≡ self.old) × IsNotPut self.old symbol error) }
    {
        let Ok(octet) = symbol.into_octet() else {
            return Err(FromStrError::Presentation(PresentationError::BadSymbol));
        };
        if !is_dot(symbol) {
            self.push(octet)?;
            return Ok(());
        }
        let _len = self.len();
        if !self.in_label() {
            return Err(FromStrError::Presentation(PresentationError::EmptyLabel));
        }
        self.end_label();
        Ok(())
    }
}
