//! Text to relative names (RFC 1035 5.1).
ghost use Rattle.std.specs.Prelude.{◌≡◌, List, ℕ, IfOk, IfErr};
ghost use Rattle.std.specs.Iterator.{IsFinite, Drains};
ghost use Rattle.dns_wire.specs.Draft.{IsReadBy};
ghost use Rattle.dns_label.specs.NameText.{IsRelativeNameText};
ghost use Rattle.dns_flat.specs.RelativeText.{IsNoRelative, IsNoRelativeBy};
ghost use Rattle.dns_wire.specs.declared.text.FromStrError.TheVariants.{Presentation, ShortBuf};
ghost use Rattle.dns_flat.specs.declared.text.relative.RelativeFromStrError.TheVariants.{FromStr};

use super::finish::finish_relative;
use crate::RelativeName;
use dns_octets::{AppendError, EmptyBuilder, FromBuilder};
use dns_wire::text::NameDraft;
use dns_wire::{FromStrError, PresentationError};
use std::alloc::Global;
use thiserror::Error;

/// Why no relative name was made of a text.
#[derive(Clone, Copy, Debug, PartialEq, Eq, Error)]
pub enum RelativeFromStrError {
    /// The text spells no name, or there is no memory for the name.
    #[error("{0}")]
    FromStr(FromStrError),
    /// The text spells an absolute name, with its last dot.
    #[error("absolute domain name")]
    AbsoluteName,
}

impl From<FromStrError> for RelativeFromStrError {
    ghost from_gives = { λ reason error. error ≡ FromStr reason };

    fn from(reason: FromStrError) -> RelativeFromStrError {
        RelativeFromStrError::FromStr(reason)
    }
}

impl From<PresentationError> for RelativeFromStrError {
    ghost from_gives = { λ reason error. error ≡ FromStr (Presentation reason) };

    fn from(reason: PresentationError) -> RelativeFromStrError {
        RelativeFromStrError::FromStr(FromStrError::Presentation(reason))
    }
}

impl From<AppendError> for RelativeFromStrError {
    ghost from_gives = { λ _ error. error ≡ FromStr ShortBuf };

    fn from(_: AppendError) -> RelativeFromStrError {
        RelativeFromStrError::FromStr(FromStrError::ShortBuf)
    }
}

impl<Octs: FromBuilder> RelativeName<Octs>
where
    Octs::Builder: EmptyBuilder + Drop,
{
    /// Reads the relative name that characters spell, which has no last dot (RFC 1035 5.1). No characters are the name
    /// without labels.
    ///
    /// Fails with `AbsoluteName` if they spell an absolute name with its last dot; with `Presentation` if they spell no
    /// name, maybe before it has taken all of them; and with `ShortBuf` if they spell a relative name, and there is no
    /// memory or no room for it.
    pub fn from_chars<C: Iterator<Item = char> + Drop>(
        alloc: Global,
        chars: C,
    ) -> Result<Self, RelativeFromStrError>
        requires can { C.can_next chars }
        requires ends { IsFinite (C.remaining chars) }
        ensures ok { IfOk result (λ name. (text : List ℕ) × Drains C.next_gives chars text × IsRelativeNameText text name) }
        ensures err { IfErr result (IsNoRelativeBy C.next_gives chars) }
    {
        RelativeName::of_read(alloc, NameDraft::read_chars(chars)?)
    }

    /// Reads the relative name that a text spells, which has no last dot. The empty text is the name without labels.
    ///
    /// Fails with `AbsoluteName` if the text spells an absolute name with its last dot; with `Presentation` if it
    /// spells no name; and with `ShortBuf` if it spells a relative name, and there is no memory or no room for it.
    pub fn from_str(alloc: Global, text: &str) -> Result<Self, RelativeFromStrError>
        ensures ok { IfOk result (λ name. IsRelativeNameText text.now name) }
        ensures err { IfErr result (IsNoRelative text.now) }
    {
        RelativeName::of_read(alloc, NameDraft::read_text(text.as_bytes())?)
    }

    /// Makes the relative name that was read. Its last label may be open.
    fn of_read(alloc: Global, read: Option<NameDraft>) -> Result<Self, RelativeFromStrError>
        requires { (text : List ℕ) × IsReadBy text read }
        ensures ok { IfOk result (λ name. (text : List ℕ) → IsReadBy text read → IsRelativeNameText text name) }
        ensures err { IfErr result (λ error. (text : List ℕ) → IsReadBy text read → IsNoRelative text error) }
    {
        let Some(mut draft) = read else {
            return Err(RelativeFromStrError::AbsoluteName);
        };
        if draft.has_open_label() {
            draft.end_label()?;
            return Ok(finish_relative(alloc, draft)?);
        }
        if !draft.is_new() {
            return Err(RelativeFromStrError::AbsoluteName);
        }
        Ok(finish_relative(alloc, draft)?)
    }
}

impl RelativeName<Vec<u8>> {
    /// Reads the relative name that a text spells, as `from_str` does.
    pub fn vec_from_str(alloc: Global, text: &str) -> Result<Self, RelativeFromStrError>
        ensures ok { IfOk result (λ name. IsRelativeNameText text.now name) }
        ensures err { IfErr result (IsNoRelative text.now) }
    {
        RelativeName::from_str(alloc, text)
    }
}
