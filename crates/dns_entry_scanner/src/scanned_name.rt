//! Names that tokens spell, stored in vectors.
ghost use Rattle.std.specs.Prelude.{◌≡◌, List, ℕ, [], true, false, option_copied, IfOk, IfErr};
ghost use Rattle.dns_wire.specs.Draft.{Holds};
ghost use Rattle.dns_entry_scanner.specs.EntryError.{is_memory, is_end};
ghost use Rattle.dns_entry_scanner.specs.NameInText.{SpellsUnder};

use crate::text_name::finished_octets;
use crate::{EntryError, ScannedName, TextName};
use dns_name::{Chain, Name, Octets, RelativeName, ToName};
use dns_wire::text::NameDraft;
use std::alloc::{AllocError, Global};

impl TextName for ScannedName {
    fn of_name<Octs: Octets>(alloc: Global, name: &Name<Octs>) -> Result<Self, AllocError> {
        absolute(alloc, name.to_vec(alloc)?)
    }

    fn of_labels(alloc: Global, draft: &NameDraft) -> Result<Self, AllocError> {
        let octets = Vec::from_slice(alloc, finished_octets(draft))?;
        absolute(alloc, Name::from_octets_unchecked(octets))
    }

    fn of_labels_under(
        alloc: Global,
        draft: &NameDraft,
        origin: &Name<Vec<u8>>,
    ) -> Result<Self, AllocError> {
        let _octets = origin.as_slice();
        match Chain::new(finished_labels(alloc, draft)?, origin.to_vec(alloc)?) {
            Ok(scanned) => Ok(scanned),
            Err(_) => unreachable!(),
        }
    }
}

/// Returns the name that a token's text spells under the origin, if one is known. `TextName::scan_name` says which name
/// this is, and when the call fails.
pub fn scan_name(
    alloc: Global,
    text: &[u8],
    origin: Option<&Name<Vec<u8>>>,
) -> Result<ScannedName, EntryError>
    ensures ok { IfOk result (λ name. SpellsUnder (option_copied origin.entry) text.now (⟦<ScannedName as ToName>⟧.name name)) }
    ensures err { IfErr result (λ error. is_memory error ≡ false → (name : List (List ℕ)) → SpellsUnder (option_copied origin.entry) text.now name → ⊥) }
    ensures memory { IfErr result (λ error. is_memory error ≡ true → (name : List (List ℕ)) × SpellsUnder (option_copied origin.entry) text.now name) }
    ensures end { IfErr result (λ error. is_end error ≡ false) }
{
    TextName::scan_name(alloc, text, origin)
}

/// Returns the name as a scanned one, without labels before it. Fails if out of memory.
pub fn absolute(alloc: Global, name: Name<Vec<u8>>) -> Result<ScannedName, AllocError>
    ensures { IfOk result (λ scanned. ⟦<ScannedName as ToName>⟧.name scanned ≡ name) }
{
    let _octets = name.as_slice();
    match Chain::new(RelativeName::empty_vec(alloc)?, name) {
        Ok(scanned) => Ok(scanned),
        Err(_) => unreachable!(),
    }
}

/// Returns the finished labels as a relative name. Fails if out of memory.
fn finished_labels(alloc: Global, draft: &NameDraft) -> Result<RelativeName<Vec<u8>>, AllocError>
    requires { (labels : List (List ℕ)) × Holds draft.now labels [] }
    ensures { IfOk result (λ labels. Holds draft.now labels []) }
{
    match RelativeName::from_octets(Vec::from_slice(alloc, draft.labels())?) {
        Ok(labels) => Ok(labels),
        Err(_) => unreachable!(),
    }
}
