//! Text to the octets of names (RFC 1035, section 5.1).
ghost use Rattle.std.specs.Prelude.{◌≡◌, ◌↔◌, ◌++◌, List, ℕ, IfErr, OnOk, OnErr};
ghost use Rattle.dns_label.specs.Name.{wire};
ghost use Rattle.dns_label.specs.NameText.{IsAbsoluteText, is_dot as separates};
ghost use Rattle.dns_wire.specs.Text.{IsRefused, LacksLastDot};
ghost use Rattle.dns_wire.specs.TextErrors.{text_error};
ghost use Rattle.dns_wire.specs.declared.text.FromStrError.TheVariants.{Presentation, ShortBuf};
ghost use Rattle.dns_wire.specs.declared.text.PresentationError.TheVariants as presentation;

mod draft;
mod unescaped;

use crate::PushError;
use dns_label::{BadSymbol, Symbol, SymbolCharsError};
use dns_octets::AppendError;
pub use draft::NameDraft;
use std::alloc::AllocError;
use thiserror::Error;
use unescaped::append_unescaped;

/// Why a text spells no name.
#[derive(Clone, Copy, Debug, PartialEq, Eq, Error)]
pub enum PresentationError {
    /// Some of the text is no symbol.
    #[error("bad symbol")]
    BadSymbol,
    /// A label has no octets.
    #[error("empty label")]
    EmptyLabel,
    /// A label has more than 63 octets.
    #[error("long label")]
    LongLabel,
    /// The name has more than 255 octets.
    #[error("long domain name")]
    LongName,
    /// The last dot is missing.
    #[error("relative domain name")]
    RelativeName,
}

/// Why no name was made of a text.
#[derive(Clone, Copy, Debug, PartialEq, Eq, Error)]
pub enum FromStrError {
    /// The text spells no name.
    #[error("{0}")]
    Presentation(PresentationError),
    /// Out of memory, or the target is too full for the name.
    #[error("short buffer")]
    ShortBuf,
}

impl From<PresentationError> for FromStrError {
    ghost from_gives = { λ reason error. error ≡ Presentation reason };

    fn from(reason: PresentationError) -> FromStrError {
        FromStrError::Presentation(reason)
    }
}

impl From<AppendError> for FromStrError {
    ghost from_gives = { λ _ error. error ≡ ShortBuf };

    fn from(_: AppendError) -> FromStrError {
        FromStrError::ShortBuf
    }
}

impl From<AllocError> for FromStrError {
    ghost from_gives = { λ _ error. error ≡ ShortBuf };

    fn from(_: AllocError) -> FromStrError {
        FromStrError::ShortBuf
    }
}

impl From<PushError> for FromStrError {
    ghost from_gives = { λ reason error. error ≡ text_error reason };

    fn from(reason: PushError) -> FromStrError {
        match reason {
            PushError::LongLabel => FromStrError::Presentation(PresentationError::LongLabel),
            PushError::LongName => FromStrError::Presentation(PresentationError::LongName),
            PushError::ShortBuf => FromStrError::ShortBuf,
        }
    }
}

impl From<SymbolCharsError> for PresentationError {
    ghost from_gives = { λ _ error. error ≡ presentation.BadSymbol };

    fn from(_: SymbolCharsError) -> PresentationError {
        PresentationError::BadSymbol
    }
}

impl From<BadSymbol> for PresentationError {
    ghost from_gives = { λ _ error. error ≡ presentation.BadSymbol };

    fn from(_: BadSymbol) -> PresentationError {
        PresentationError::BadSymbol
    }
}

/// Appends the wire form of the name that octets of text spell with its last dot (RFC 1035, section 3.1).
///
/// Fails with `Presentation` exactly if the text spells no name with its last dot, and with `RelativeName` in it
/// exactly if the text only leaves that dot out. Fails with `ShortBuf` only if the text spells a name, and out of
/// memory. If it fails, it appends nothing.
pub fn append_absolute_text(octets: &mut Vec<u8>, text: &[u8]) -> Result<(), FromStrError>
    ensures ok { OnOk result ((name : List (List ℕ)) × IsAbsoluteText text.now name × (octets.new.items ≡ octets.old.items ++ wire name)) }
    ensures err { IfErr result (IsRefused IsAbsoluteText text.now) }
    ensures relative { IfErr result (λ error. (error ≡ Presentation presentation.RelativeName) ↔ LacksLastDot text.now) }
    ensures kept { OnErr result (octets.new.items ≡ octets.old.items) }
{
    if append_unescaped(octets, text) {
        return Ok(());
    }
    append_spelled(octets, text)
}

/// The same for any text. The name is spelled into an array first. This is a call of its own, so that the array is
/// cleared only if it is used.
#[inline(never)]
fn append_spelled(octets: &mut Vec<u8>, text: &[u8]) -> Result<(), FromStrError>
    ensures ok { OnOk result ((name : List (List ℕ)) × IsAbsoluteText text.now name × (octets.new.items ≡ octets.old.items ++ wire name)) }
    ensures err { IfErr result (IsRefused IsAbsoluteText text.now) }
    ensures relative { IfErr result (λ error. (error ≡ Presentation presentation.RelativeName) ↔ LacksLastDot text.now) }
    ensures kept { OnErr result (octets.new.items ≡ octets.old.items) }
{
    let Some(draft) = NameDraft::read_text(text)? else {
        octets.extend_from_slice(&[0])?;
        return Ok(());
    };
    if draft.has_open_label() {
        return Err(FromStrError::Presentation(PresentationError::RelativeName));
    }
    draft.append_to(octets)
}

/// Returns whether the symbol separates labels.
pub fn is_dot(symbol: Symbol) -> bool
    ensures { result ≡ separates symbol }
{
    matches!(symbol, Symbol::Char('.'))
}
