//! Names made of the labels that were read from text.
ghost use Rattle.std.specs.Prelude.{◌≡◌, ◌<◌, ◌↔◌, List, ℕ, [], length, Err, IfOk, IfErr};
ghost use Rattle.dns_label.specs.Name.{IsName};
ghost use Rattle.dns_wire.specs.Draft.{Holds, IsNew};
ghost use Rattle.dns_wire.specs.Text.{IsFault};
ghost use Rattle.dns_wire.specs.declared.text.FromStrError.TheVariants.{Presentation, ShortBuf};
ghost use Rattle.dns_wire.specs.declared.text.PresentationError.TheVariants as presentation;

use crate::relative::copied_relative;
use crate::{Name, RelativeName};
use dns_octets::{EmptyBuilder, FromBuilder};
use dns_wire::FromStrError;
use dns_wire::copies::octets_from;
use dns_wire::text::NameDraft;
use std::alloc::Global;

/// Makes the name of the finished labels. Fails if there is no label, or if there is no memory or room for the name.
pub(super) fn finish<Octs: FromBuilder>(
    alloc: Global,
    draft: NameDraft,
) -> Result<Name<Octs>, FromStrError>
where
    Octs::Builder: EmptyBuilder + Drop,
    requires { (done : List (List ℕ)) × Holds draft done [] }
    ensures ok { IfOk result (λ name. IsName name × Holds draft name [] × (0 < length name)) }
    ensures err { IfErr result (λ error. IsFault error ↔ IsNew draft) }
    ensures other { result ≡ Err (Presentation presentation.RelativeName) → ⊥ }
{
    let octets = octets_from(alloc, draft.finished()?)?;
    Ok(Name::from_octets_unchecked(octets))
}

/// Makes the relative name of the finished labels. Fails if there is no memory or room for it.
pub(super) fn finish_relative<Octs: FromBuilder>(
    alloc: Global,
    draft: NameDraft,
) -> Result<RelativeName<Octs>, FromStrError>
where
    Octs::Builder: EmptyBuilder + Drop,
    requires { (done : List (List ℕ)) × Holds draft done [] }
    ensures ok { IfOk result (λ name. IsName name × Holds draft name []) }
    ensures err { IfErr result (λ error. error ≡ ShortBuf) }
{
    Ok(copied_relative(alloc, draft.labels())?)
}
