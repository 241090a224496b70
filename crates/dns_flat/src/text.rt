//! Text to names (RFC 1035 5.1).
ghost use Rattle.std.specs.Prelude.{◌≡◌, ◌↔◌, ◌++◌, List, ℕ, Err, IfOk, IfErr, OnOk, OnErr};
ghost use Rattle.std.specs.Iterator.{IsFinite, Drains};
ghost use Rattle.dns_label.specs.declared.symbol.Symbol.{Symbol};
ghost use Rattle.dns_label.specs.Name.{wire};
ghost use Rattle.dns_label.specs.NameText.{IsNameText, IsAbsoluteText};
ghost use Rattle.dns_wire.specs.declared.text.FromStrError.TheVariants.{Presentation};
ghost use Rattle.dns_wire.specs.declared.text.PresentationError.TheVariants as presentation;

mod finish;
mod relative;
mod spelled;

use crate::Name;
use dns_label::Symbol;
use dns_octets::{EmptyBuilder, FromBuilder};
use dns_wire::FromStrError;
use dns_wire::text::{NameDraft, append_absolute_text};
use finish::finish;
pub use relative::RelativeFromStrError;
pub use spelled::SpelledName;
use std::alloc::Global;

impl<Octs: FromBuilder> Name<Octs>
where
    Octs::Builder: EmptyBuilder + Drop,
{
    ghost use Rattle.dns_wire.specs.Text.{IsRefused, IsRefusedBy, SpellName};
    ghost use Rattle.dns_wire.specs.Draft.{IsReadBy};

    /// Reads the name that characters spell, with or without its last dot (RFC 1035 5.1). There is no origin, so `@` is
    /// a label.
    ///
    /// Fails with `Presentation` if they spell no name, maybe before it has taken all of them; and with `ShortBuf` if
    /// they spell one, and there is no memory or no room for it.
    pub fn from_chars<C: Iterator<Item = char> + Drop>(
        alloc: Global,
        chars: C,
    ) -> Result<Self, FromStrError>
        requires can { C.can_next chars }
        requires ends { IsFinite (C.remaining chars) }
        ensures ok { IfOk result (λ name. (text : List ℕ) × Drains C.next_gives chars text × IsNameText text name) }
        ensures err { IfErr result (IsRefusedBy C.next_gives chars IsNameText) }
        ensures other { result ≡ Err (Presentation presentation.RelativeName) → ⊥ }
    {
        Name::of_read(alloc, NameDraft::read_chars(chars)?)
    }

    /// Reads the name that symbols spell, as their text does, with or without its last dot.
    ///
    /// Fails with `Presentation` if they spell no name or one of them is no symbol of a text, maybe before it has taken
    /// all of them; and with `ShortBuf` if they spell one, and there is no memory or no room for it.
    pub fn from_symbols<S: Iterator<Item = Symbol> + Drop>(
        alloc: Global,
        mut symbols: S,
    ) -> Result<Self, FromStrError>
        requires can { S.can_next symbols }
        requires ends { IsFinite (S.remaining symbols) }
        ensures ok { IfOk result (λ name. (list : List Symbol) × Drains S.next_gives symbols list × SpellName list name) }
        ensures err { IfErr result (IsRefusedBy S.next_gives symbols SpellName) }
        ensures other { result ≡ Err (Presentation presentation.RelativeName) → ⊥ }
    {
        Name::of_read(alloc, NameDraft::read(&mut symbols)?)
    }

    /// Reads the name that a text spells, with or without its last dot.
    ///
    /// Fails with `Presentation` if the text spells no name; and with `ShortBuf` if it spells one, and there is no
    /// memory or no room for it.
    pub fn from_str(alloc: Global, text: &str) -> Result<Self, FromStrError>
        ensures ok { IfOk result (λ name. IsNameText text.now name) }
        ensures err { IfErr result (IsRefused IsNameText text.now) }
        ensures other { result ≡ Err (Presentation presentation.RelativeName) → ⊥ }
    {
        Name::of_read(alloc, NameDraft::read_text(text.as_bytes())?)
    }

    /// Makes the name that was read. Its last label may be open.
    fn of_read(alloc: Global, read: Option<NameDraft>) -> Result<Self, FromStrError>
        requires { (text : List ℕ) × IsReadBy text read }
        ensures ok { IfOk result (λ name. (text : List ℕ) → IsReadBy text read → IsNameText text name) }
        ensures err { IfErr result (λ error. (text : List ℕ) → IsReadBy text read → IsRefused IsNameText text error) }
        ensures other { result ≡ Err (Presentation presentation.RelativeName) → ⊥ }
    {
        let Some(mut draft) = read else {
            return Ok(Name::root(alloc)?);
        };
        if draft.has_open_label() {
            draft.end_label()?;
        }
        finish(alloc, draft)
    }
}

impl Name<Vec<u8>> {
    ghost use Rattle.dns_wire.specs.Text.{IsRefused, LacksLastDot};

    /// Reads the name that a text spells, with or without its last dot, as `from_str` does.
    pub fn vec_from_str(alloc: Global, text: &str) -> Result<Self, FromStrError>
        ensures ok { IfOk result (λ name. IsNameText text.now name) }
        ensures err { IfErr result (IsRefused IsNameText text.now) }
        ensures other { result ≡ Err (Presentation presentation.RelativeName) → ⊥ }
    {
        Name::from_str(alloc, text)
    }

    /// Reads the name that octets of text spell with its last dot.
    ///
    /// Fails with `Presentation` if the text spells no name with its last dot, and with `RelativeName` in it exactly if
    /// the text only leaves that dot out; and with `ShortBuf` if it spells one, and there is no memory for it.
    pub fn absolute_from_text(alloc: Global, text: &[u8]) -> Result<Self, FromStrError>
        ensures ok { IfOk result (λ name. IsAbsoluteText text.now name) }
        ensures err { IfErr result (IsRefused IsAbsoluteText text.now) }
        ensures relative { IfErr result (λ error. (error ≡ Presentation presentation.RelativeName) ↔ LacksLastDot text.now) }
    {
        let mut octets = Vec::new(alloc);
        Name::append_absolute_text(&mut octets, text)?;
        Ok(Name::from_octets_unchecked(octets))
    }

    /// Appends the wire form of the name that `absolute_from_text` reads from these octets of text (RFC 1035 3.1).
    ///
    /// Fails as `absolute_from_text` does, and then appends nothing.
    pub fn append_absolute_text(octets: &mut Vec<u8>, text: &[u8]) -> Result<(), FromStrError>
        ensures ok { OnOk result ((name : List (List ℕ)) × IsAbsoluteText text.now name × (octets.new.items ≡ octets.old.items ++ wire name)) }
        ensures err { IfErr result (IsRefused IsAbsoluteText text.now) }
        ensures relative { IfErr result (λ error. (error ≡ Presentation presentation.RelativeName) ↔ LacksLastDot text.now) }
        ensures kept { OnErr result (octets.new.items ≡ octets.old.items) }
    {
        append_absolute_text(octets, text)
    }
}
