//! A name while its text is read.
ghost use Rattle.std.specs.Prelude.{◌≡◌, ◌≢◌, ◌+◌, ◌≤◌, ◌<◌, ◌⊎◌, ◌↔◌, List, ℕ, [], ◌∷◌, ◌++◌, length, take, true, false, Some, None, Err, IsTrue, IfOk, IfErr, OnOk, OnErr, IfSome, IfNone};
ghost use Rattle.std.specs.Iterator.{IsFinite, YieldsThen, Drains};
ghost use Rattle.std.specs.List.{AllByRecursion, flat_map};
ghost use Rattle.dns_label.specs.declared.symbol.Symbol.{Symbol};
ghost use Rattle.dns_label.specs.declared.symbol.Symbol.TheVariants.{Char};
ghost use Rattle.dns_label.specs.Name.{IsName, wire};
ghost use Rattle.dns_label.specs.Symbol.{IsSymbol, spelled};
ghost use Rattle.dns_label.specs.Taken.{RulesOut};
ghost use Rattle.dns_wire.specs.Text.{IsFault};
ghost use Rattle.dns_wire.specs.declared.text.FromStrError.TheVariants.{Presentation, ShortBuf};
ghost use Rattle.dns_wire.specs.declared.text.PresentationError.TheVariants as presentation;

use super::unescaped::is_unescaped;
use super::{FromStrError, PresentationError, is_dot};
use dns_label::{Symbol, Symbols};

/// A name while its text is read: finished labels, and the open one, whose length is written when it ends.
#[derive(Drop)]
pub struct NameDraft {
    octets: [u8; 255],
    /// The number of octets.
    len: usize,
    /// The place for the length of the open label.
    start: usize,
    ghost whole: { length octets ≡ 255 },
    ghost room: { start < len },
    ghost few: { len ≤ 255 },
    ghost short: { len ≤ start + 64 },
    ghost full: { 254 < len → len ≡ start + 1 },
}

impl NameDraft {
    ghost use Rattle.dns_wire.specs.Draft.{Holds, IsNew, IsReadBy, IsReadable, AreReadable};

    /// Reads octets of text, and leaves the last label open. Returns `None` if they are the root's dot alone.
    ///
    /// Fails if there are octets and they spell no name.
    pub fn read_text(text: &[u8]) -> Result<Option<NameDraft>, PresentationError>
        ensures ok { IfOk result (λ read. IsReadBy text.now read) }
        ensures err { OnErr result (IsReadable text.now → ⊥) }
        ensures other { result ≡ Err presentation.RelativeName → ⊥ }
    {
        let mut draft = NameDraft::new();
        let mut rest = text;
        while let Some((&octet, behind)) = rest.split_first() {
            if is_unescaped(octet) {
                draft.push(octet)?;
                rest = behind;
            } else if octet != b'.' {
                let Some((symbol, next)) = Symbol::split_from(rest) else {
                    return Err(PresentationError::BadSymbol);
                };
                draft.push(symbol.into_octet()?)?;
                rest = next;
            } else if draft.len > 1 {
                draft.end_label()?;
                rest = behind;
            } else if behind.is_empty() {
                return Ok(None);
            } else {
                return Err(PresentationError::EmptyLabel);
            }
        }
        Ok(Some(draft))
    }

    /// Reads characters, and leaves the last label open. Returns `None` if they are the root's dot alone.
    ///
    /// Fails if there are characters and they spell no name, and may then leave some of them untaken.
    pub fn read_chars<C: Iterator<Item = char> + Drop>(
        chars: C,
    ) -> Result<Option<NameDraft>, PresentationError>
        requires can { C.can_next chars }
        requires ends { IsFinite (C.remaining chars) }
        ensures ok { IfOk result (λ read. (text : List ℕ) × Drains C.next_gives chars text × IsReadBy text read) }
        ensures err { OnErr result (RulesOut C.next_gives chars IsReadable) }
        ensures other { result ≡ Err presentation.RelativeName → ⊥ }
    {
        let mut symbols = Symbols::new(chars);
        let read = NameDraft::read(&mut symbols)?;
        symbols.ok()?;
        Ok(read)
    }

    /// Reads symbols, and leaves the last label open. Returns `None` if they are the root's dot alone.
    ///
    /// Fails if there are symbols and they spell no name, and may then leave some of them untaken.
    pub fn read<S: Iterator<Item = Symbol>>(
        symbols: &mut S,
    ) -> Result<Option<NameDraft>, PresentationError>
        requires can { S.can_next symbols.old }
        requires ends { IsFinite (S.remaining symbols.old) }
        ensures ok { IfOk result (λ read. (list : List Symbol) × YieldsThen S.next_gives symbols.old list None symbols.new × AllByRecursion IsSymbol list × IsReadBy (flat_map spelled list) read) }
        ensures err { OnErr result (RulesOut S.next_gives symbols.old AreReadable) }
        ensures other { result ≡ Err presentation.RelativeName → ⊥ }
    {
        let mut draft = NameDraft::new();
        'symbols: while let Some(symbol) = symbols.next() {
            let octet = symbol.into_octet()?;
            if !is_dot(symbol) {
                draft.push(octet)?;
            } else if draft.len == 1 {
                return root_alone(symbols);
            } else {
                draft.end_label()?;
            }
        }
        Ok(Some(draft))
    }

    /// Returns an open label without octets.
    fn new() -> NameDraft
        ensures { Holds result [] [] }
    {
        NameDraft {
            octets: [0; 255],
            len: 1,
            start: 0,
        }
    }

    /// Returns whether the open label has an octet.
    pub fn has_open_label(&self) -> bool
        ensures { IsTrue result ↔ (self.now.start + 1 < self.now.len) }
    {
        self.len - self.start > 1
    }

    /// Returns whether nothing has been read yet.
    pub fn is_new(&self) -> bool
        ensures { IsTrue result ↔ IsNew self.now }
    {
        self.len == 1
    }

    /// Appends an octet to the open label. Fails if the label has 63 octets, or if the root would have no room.
    fn push(&mut self, octet: u8) -> Result<(), PresentationError>
        ensures ok { OnOk result ((done : List (List ℕ)) (begun : List ℕ) → Holds self.old done begun → Holds self.new done (begun ++ octet ∷ [])) }
        ensures err { OnErr result ((self.old.len ≡ self.old.start + 64) ⊎ (253 < self.old.len)) }
        ensures other { result ≡ Err presentation.RelativeName → ⊥ }
    {
        if self.len - self.start > 63 {
            return Err(PresentationError::LongLabel);
        }
        if self.len > 253 {
            return Err(PresentationError::LongName);
        }
        self.octets[self.len] = octet;
        self.len += 1;
        Ok(())
    }

    /// Ends the open label, and begins the next one. Fails if the label is empty.
    pub fn end_label(&mut self) -> Result<(), PresentationError>
        ensures ok { OnOk result ((done : List (List ℕ)) (begun : List ℕ) → Holds self.old done begun → Holds self.new (done ++ begun ∷ []) []) }
        ensures err { OnErr result (self.old.len ≡ self.old.start + 1) }
        ensures other { result ≡ Err presentation.RelativeName → ⊥ }
    {
        let count = self.len - self.start - 1;
        if count == 0 {
            return Err(PresentationError::EmptyLabel);
        }
        self.octets[self.start] = count as u8;
        self.octets[self.len] = 0;
        self.start = self.len;
        self.len += 1;
        Ok(())
    }

    /// Appends the octets of the finished labels and the root's to a vector. Fails with `Presentation` if there is no
    /// label, and with `ShortBuf` if out of memory. If it fails, it appends nothing.
    pub fn append_to(&self, octets: &mut Vec<u8>) -> Result<(), FromStrError>
        requires { (done : List (List ℕ)) × Holds self.now done [] }
        ensures ok { OnOk result ((name : List (List ℕ)) × IsName name × Holds self.now name [] × (0 < length name)
            × (octets.new.items ≡ octets.old.items ++ wire name)) }
        ensures err { IfErr result (λ error. IsFault error ↔ (self.now.len ≡ 1)) }
        ensures other { result ≡ Err (Presentation presentation.RelativeName) → ⊥ }
        ensures kept { OnErr result (octets.new.items ≡ octets.old.items) }
    {
        Ok(octets.extend_from_slice(self.finished()?)?)
    }

    /// Returns the octets of the finished labels and the root's. Fails if there is no label.
    pub fn finished(&self) -> Result<&[u8], PresentationError>
        ensures ok { IfOk result (λ octets. octets.now ≡ take self.now.len self.now.octets) }
        ensures some { OnOk result (self.now.len ≢ 1) }
        ensures err { OnErr result (self.now.len ≡ 1) }
        ensures other { result ≡ Err presentation.RelativeName → ⊥ }
    {
        if self.len == 1 {
            return Err(PresentationError::EmptyLabel);
        }
        Ok(&self.octets[..self.len])
    }

    /// Returns the octets of the finished labels.
    pub fn labels(&self) -> &[u8]
        ensures { result.now ≡ take self.now.start self.now.octets }
    {
        &self.octets[..self.start]
    }
}

/// Reads on after a dot at the start, which spells the root. Fails if a symbol follows.
fn root_alone<S: Iterator<Item = Symbol>>(
    symbols: &mut S,
) -> Result<Option<NameDraft>, PresentationError>
    requires { S.can_next symbols.old }
    ensures root { IfOk result (λ read. (read ≡ None) × S.next_gives symbols.old None symbols.new) }
    ensures err { OnErr result ((symbol : Symbol) × S.next_gives symbols.old (Some symbol) symbols.new) }
    ensures other { result ≡ Err presentation.RelativeName → ⊥ }
{
    match symbols.next() {
        None => Ok(None),
        Some(_) => Err(PresentationError::EmptyLabel),
    }
}
