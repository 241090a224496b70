//! Text to names that may be absolute or relative (RFC 1035 5.1).
ghost use Rattle.std.specs.Prelude.{List, ℕ, IfOk, IfErr};
ghost use Rattle.std.specs.Iterator.{IsFinite, Drains};
ghost use Rattle.dns_wire.specs.Draft.{IsReadBy};
ghost use Rattle.dns_flat.specs.SpelledText.{IsSpelledBy, IsNotSpelled, IsNotSpelledBy};

use super::finish::{finish, finish_relative};
use crate::{Name, RelativeName};
use dns_octets::{EmptyBuilder, FromBuilder, Octets};
use dns_wire::FromStrError;
use dns_wire::text::NameDraft;
use std::alloc::Global;

/// A name read from a text when no origin is known: the last dot decides between the two.
#[derive(Debug, Drop)]
pub enum SpelledName<Octs: Octets> {
    /// The last dot is there.
    Absolute(Name<Octs>),
    /// The last dot is left out.
    Relative(RelativeName<Octs>),
}

impl<Octs: FromBuilder> SpelledName<Octs>
where
    Octs::Builder: EmptyBuilder + Drop,
{
    /// Reads the name that characters spell (RFC 1035 5.1): an absolute one exactly if they end with a dot that is not
    /// escaped. No characters are the relative name without labels.
    ///
    /// Fails with `Presentation` if they spell no name, maybe before it has taken all of them; and with `ShortBuf` if
    /// they spell one, and there is no memory or no room for it.
    pub fn from_chars<C: Iterator<Item = char> + Drop>(
        alloc: Global,
        chars: C,
    ) -> Result<Self, FromStrError>
        requires can { C.can_next chars }
        requires ends { IsFinite (C.remaining chars) }
        ensures ok { IfOk result (λ name. (text : List ℕ) × Drains C.next_gives chars text × IsSpelledBy text name) }
        ensures err { IfErr result (IsNotSpelledBy C.next_gives chars) }
    {
        SpelledName::of_read(alloc, NameDraft::read_chars(chars)?)
    }

    /// Makes the name that was read. Its last label may be open.
    fn of_read(alloc: Global, read: Option<NameDraft>) -> Result<Self, FromStrError>
        requires { (text : List ℕ) × IsReadBy text read }
        ensures ok { IfOk result (λ name. (text : List ℕ) → IsReadBy text read → IsSpelledBy text name) }
        ensures err { IfErr result (λ error. (text : List ℕ) → IsReadBy text read → IsNotSpelled text error) }
    {
        let Some(mut draft) = read else {
            return Ok(SpelledName::Absolute(Name::root(alloc)?));
        };
        if draft.has_open_label() {
            draft.end_label()?;
            return Ok(SpelledName::Relative(finish_relative(alloc, draft)?));
        }
        if !draft.is_new() {
            return Ok(SpelledName::Absolute(finish(alloc, draft)?));
        }
        Ok(SpelledName::Relative(finish_relative(alloc, draft)?))
    }
}
