//! Names that the texts of tokens spell (RFC 1035 5.1), in any storage.
ghost use Rattle.std.specs.Prelude.{◌≡◌, ◌≢◌, ◌<◌, ◌↔◌, ◌∷◌, ◌++◌, List, ℕ, [], Some, None, true, false, length, option_copied, IfOk, IfErr, IsTrue, OnErr};
ghost use Rattle.dns_label.specs.Name.{IsName, wire};
ghost use Rattle.dns_wire.specs.Draft.{Holds, IsNew, IsReadBy};
ghost use Rattle.dns_entry_scanner.specs.EndedName.{IsEndedBy};
ghost use Rattle.dns_entry_scanner.specs.EntryError.{is_memory, is_end};
ghost use Rattle.dns_entry_scanner.specs.NameInText.{SpellsUnder};

use crate::EntryError;
use dns_name::{Name, Octets, ToName};
use dns_wire::text::NameDraft;
use std::alloc::{AllocError, Global};

/// A name that the text of a token spells. Its storage is allocated with the given allocator, if it allocates at all.
pub trait TextName: ToName + Drop + Sized {
    /// Returns a copy of the name. Fails if out of memory.
    fn of_name<Octs: Octets>(alloc: Global, name: &Name<Octs>) -> Result<Self, AllocError>
        ensures { IfOk result (λ made. Self.name made ≡ name.now) };

    /// Returns the name of the finished labels and the root. The caller guarantees that there is a label. Fails if out
    /// of memory.
    fn of_labels(alloc: Global, draft: &NameDraft) -> Result<Self, AllocError>
        requires labels { (labels : List (List ℕ)) × Holds draft.now labels [] }
        requires some { IsNew draft.now → ⊥ }
        ensures { IfOk result (λ made. Holds draft.now (Self.name made) [] × IsName (Self.name made) × (0 < length (Self.name made))) };

    /// Returns the name of the finished labels followed by the origin. The caller guarantees that they are a name.
    /// Fails if out of memory.
    fn of_labels_under(
        alloc: Global,
        draft: &NameDraft,
        origin: &Name<Vec<u8>>,
    ) -> Result<Self, AllocError>
        requires { (labels : List (List ℕ)) × Holds draft.now labels [] × IsName (labels ++ origin.now) }
        ensures { IfOk result (λ made. (labels : List (List ℕ)) × Holds draft.now labels []
            × IsName (labels ++ origin.now) × (Self.name made ≡ labels ++ origin.now)) };

    /// Returns the name that a token's text spells under the origin, if one is known (RFC 1035 5.1).
    ///
    /// `@` alone is the origin. A name with a dot at its end is absolute. A name without one is relative: the origin
    /// follows its labels.
    ///
    /// Fails with `Custom` if the text spells no name: if a part of it is no symbol, a label is empty or has more than
    /// 63 octets, the name has more than 255 octets, or it needs an origin and there is none. Fails with `OutOfMemory`
    /// if it spells a name and there is no memory for it.
    final fn scan_name(
        alloc: Global,
        text: &[u8],
        origin: Option<&Name<Vec<u8>>>,
    ) -> Result<Self, EntryError>
        ensures ok { IfOk result (λ name. SpellsUnder (option_copied origin.entry) text.now (Self.name name)) }
        ensures err { IfErr result (λ error. is_memory error ≡ false → (name : List (List ℕ)) → SpellsUnder (option_copied origin.entry) text.now name → ⊥) }
        ensures memory { IfErr result (λ error. is_memory error ≡ true → (name : List (List ℕ)) × SpellsUnder (option_copied origin.entry) text.now name) }
        ensures end { IfErr result (λ error. is_end error ≡ false) }
    {
        if is_at_sign(text) {
            return Ok(Self::of_name(alloc, known_origin(origin)?)?);
        }
        let Ok(read) = NameDraft::read_text(text) else {
            return Err(EntryError::Custom("invalid name"));
        };
        let Some(mut draft) = read else {
            return Ok(Self::of_name(alloc, &Name::root_ref())?);
        };
        match end_labels(&mut draft, origin)? {
            None => Ok(Self::of_labels(alloc, &draft)?),
            Some(origin) => Ok(Self::of_labels_under(alloc, &draft, origin)?),
        }
    }
}

/// Returns whether the text is `@` alone.
pub(crate) fn is_at_sign(text: &[u8]) -> bool
    ensures { IsTrue result ↔ (text.now ≡ 64 ∷ []) }
{
    matches!(text, [b'@'])
}

/// Returns the origin. Fails with `Custom` exactly if none is known.
pub(crate) fn known_origin(origin: Option<&Name<Vec<u8>>>) -> Result<&Name<Vec<u8>>, EntryError>
    ensures ok { IfOk result (λ known. option_copied origin.entry ≡ Some known.now) }
    ensures err { OnErr result (option_copied origin.entry ≡ None) }
    ensures other { IfErr result (λ error. (is_memory error ≡ false) × (is_end error ≡ false)) }
{
    match origin {
        Some(origin) => Ok(origin),
        None => Err(EntryError::Custom("no origin")),
    }
}

/// Ends the last of the labels that were read from a text other than `@`. Returns the origin if it follows them, and `None` if
/// the root does.
///
/// Fails with `Custom` exactly if the text spells no name under the origin.
pub(crate) fn end_labels<'o>(
    draft: &mut NameDraft,
    origin: Option<&'o Name<Vec<u8>>>,
) -> Result<Option<&'o Name<Vec<u8>>>, EntryError>
    ensures ok { IfOk result (λ behind. (text : List ℕ) → text ≢ 64 ∷ [] → IsReadBy text (Some draft.old)
        → IsEndedBy (option_copied origin.entry) text draft.new (option_copied behind)) }
    ensures err { OnErr result ((text : List ℕ) (name : List (List ℕ)) → text ≢ 64 ∷ [] → IsReadBy text (Some draft.old)
        → SpellsUnder (option_copied origin.entry) text name → ⊥) }
    ensures other { IfErr result (λ error. (is_memory error ≡ false) × (is_end error ≡ false)) }
{
    if !draft.has_open_label() {
        if draft.is_new() {
            return Err(EntryError::Custom("empty name"));
        }
        return Ok(None);
    }
    let Some(origin) = origin else {
        return Err(EntryError::Custom("relative name without an origin"));
    };
    let Ok(()) = draft.end_label() else {
        return Err(EntryError::Custom("empty label"));
    };
    if draft.labels().len() + origin.len() > 255 {
        return Err(EntryError::Custom("long domain name"));
    }
    Ok(Some(origin))
}

/// Returns the octets of the finished labels and the root. The caller guarantees that there is a label.
pub(crate) fn finished_octets(draft: &NameDraft) -> &[u8]
    requires labels { (labels : List (List ℕ)) × Holds draft.now labels [] }
    requires some { IsNew draft.now → ⊥ }
    ensures { (name : List (List ℕ)) × Holds draft.now name [] × IsName name × (0 < length name) × (result.now ≡ wire name) }
{
    match draft.finished() {
        Ok(octets) => octets,
        Err(_) => unreachable!(),
    }
}
