//! Names of tokens, appended as octets without a value for them.
ghost use Rattle.std.specs.List.{list_all};
ghost use Rattle.std.specs.Prelude.{◌≡◌, ◌≢◌, ◌↔◌, ◌+◌, ◌<◌, ◌≤◌, ◌++◌, ◌∷◌, [], List, ℕ, Some, true, false, length, take, option_copied, IsTrue, IfErr, OnOk, OnErr};
ghost use Rattle.dns_label.specs.Name.{IsName, wire};
ghost use Rattle.dns_label.specs.NameText.{IsAbsoluteText};
ghost use Rattle.dns_wire.specs.Draft.{IsReadBy};
ghost use Rattle.dns_wire.specs.Unescaped.{is_unescaped};
ghost use Rattle.dns_entry_scanner.specs.AppendedName.{HasBehind, OneLabelUnder, is_no_dot};
ghost use Rattle.dns_entry_scanner.specs.EntryError.{is_memory};
ghost use Rattle.dns_entry_scanner.specs.NameInText.{SpellsUnder};

use crate::EntryError;
use crate::dotted_name::{LANES, OtherThanDot, append_dotted_name};
use crate::relative_name::append_relative;
use crate::row_token::RowToken;
use crate::short_copy::{append_longer, write_over};
use crate::text_name::{end_labels, finished_octets, is_at_sign, known_origin};
use dns_name::{Name, run_end};
use dns_wire::text::NameDraft;
use std::alloc::AllocError;

/// Appends the octets of the name that a token's text spells under the origin, if one is known, and `room` octets of any value
/// behind them. `TextName::scan_name` says which name this is.
///
/// Fails as that call does, and then appends nothing.
pub(crate) fn append_name(
    token: RowToken<'_>,
    origin: Option<&Name<Vec<u8>>>,
    room: usize,
    octets: &mut Vec<u8>,
) -> Result<(), EntryError>
    requires { room ≤ 255 }
    ensures ok { OnOk result ((name : List (List ℕ)) × SpellsUnder (option_copied origin.entry) token.entry.text.now name × IsName name
        × HasBehind room (octets.old.items ++ wire name) octets.new.items) }
    ensures err { IfErr result (λ error. is_memory error ≡ false → (name : List (List ℕ)) → SpellsUnder (option_copied origin.entry) token.entry.text.now name → ⊥) }
    ensures same { OnErr result (octets.new.items ≡ octets.old.items) }
{
    if append_dotted(token, room, octets) {
        return Ok(());
    }
    if append_label(token, origin, room, octets) {
        return Ok(());
    }
    if append_relative(token.text, token.from, origin, room, octets) {
        return Ok(());
    }
    append_spelled(token.text, origin, room, octets)
}

/// The same for any text. The name is read octet by octet into a draft first. Clearing the draft takes time, so the fast
/// cases avoid this call.
#[inline(never)]
fn append_spelled(
    text: &[u8],
    origin: Option<&Name<Vec<u8>>>,
    room: usize,
    octets: &mut Vec<u8>,
) -> Result<(), EntryError>
    requires { room ≤ 255 }
    ensures ok { OnOk result ((name : List (List ℕ)) × SpellsUnder (option_copied origin.entry) text.now name × IsName name
        × HasBehind room (octets.old.items ++ wire name) octets.new.items) }
    ensures err { IfErr result (λ error. is_memory error ≡ false → (name : List (List ℕ)) → SpellsUnder (option_copied origin.entry) text.now name → ⊥) }
    ensures same { OnErr result (octets.new.items ≡ octets.old.items) }
{
    if is_at_sign(text) {
        let origin = known_origin(origin)?;
        return Ok(append_both(origin.as_slice(), &[], room, octets)?);
    }
    match &mut NameDraft::read_text(text) {
        Ok(Some(draft)) => append_read(draft, origin, room, octets),
        Ok(None) => Ok(append_both(&[0], &[], room, octets)?),
        Err(_) => Err(EntryError::Custom("invalid name")),
    }
}

/// Appends the octets of the name whose labels were read from a text other than `@`, completed with the origin if it is
/// relative, and `room` octets of any value behind them. Ends the last label.
///
/// Fails with `Custom` if the text spells no name under the origin, and with `OutOfMemory` if out of memory. It then
/// appends nothing.
fn append_read(
    draft: &mut NameDraft,
    origin: Option<&Name<Vec<u8>>>,
    room: usize,
    octets: &mut Vec<u8>,
) -> Result<(), EntryError>
    requires read { (text : List ℕ) × (text ≢ 64 ∷ []) × IsReadBy text (Some draft.old) }
    requires room { room ≤ 255 }
    ensures ok { OnOk result ((text : List ℕ) → text ≢ 64 ∷ [] → IsReadBy text (Some draft.old) → (name : List (List ℕ))
        × SpellsUnder (option_copied origin.entry) text name × IsName name × HasBehind room (octets.old.items ++ wire name) octets.new.items) }
    ensures err { IfErr result (λ error. is_memory error ≡ false → (text : List ℕ) (name : List (List ℕ)) → text ≢ 64 ∷ [] → IsReadBy text (Some draft.old)
        → SpellsUnder (option_copied origin.entry) text name → ⊥) }
    ensures same { OnErr result (octets.new.items ≡ octets.old.items) }
{
    match end_labels(draft, origin)? {
        None => Ok(append_both(finished_octets(draft), &[], room, octets)?),
        Some(origin) => Ok(append_both(draft.labels(), origin.as_slice(), room, octets)?),
    }
}

/// Appends the octets of both and `room` octets of any value. If out of memory, fails and then appends nothing.
fn append_both(
    front: &[u8],
    behind: &[u8],
    room: usize,
    octets: &mut Vec<u8>,
) -> Result<(), AllocError>
    requires short { length behind.now ≤ 255 }
    requires room { room ≤ 255 }
    ensures ok { OnOk result (HasBehind room (octets.old.items ++ (front.now ++ behind.now)) octets.new.items) }
    ensures same { OnErr result (octets.new.items ≡ octets.old.items) }
{
    let len = octets.len();
    let appended = append_parts(front, behind, room, octets);
    if appended.is_err() {
        octets.truncate(len);
    }
    appended
}

/// The same, but if out of memory, it may have appended a part of them.
fn append_parts(
    front: &[u8],
    behind: &[u8],
    room: usize,
    octets: &mut Vec<u8>,
) -> Result<(), AllocError>
    requires short { length behind.now ≤ 255 }
    requires room { room ≤ 255 }
    ensures ok { OnOk result (HasBehind room (octets.old.items ++ (front.now ++ behind.now)) octets.new.items) }
    ensures more { take (length octets.old.items) octets.new.items ≡ octets.old.items }
{
    append_longer(front, front, behind.len() + room, octets)?;
    let place = octets.len() - room - behind.len();
    write_over(octets, place, behind);
    Ok(())
}

/// Appends the octets of the name if the text spells an absolute name without an escape, and `room` octets of any value behind them.
/// Returns whether it did. Appends nothing if the text spells no such name, or if out of memory.
fn append_dotted(token: RowToken<'_>, room: usize, octets: &mut Vec<u8>) -> bool
    requires { room ≤ 255 }
    ensures yes { IsTrue result → (name : List (List ℕ)) × IsAbsoluteText token.entry.text.now name
        × HasBehind room (octets.old.items ++ wire name) octets.new.items }
    ensures no { result ≡ false → octets.new.items ≡ octets.old.items }
{
    if is_root(token.text) {
        return match append_root(room, octets) {
            Ok(()) => true,
            Err(_) => false,
        };
    }
    match token.text.split_last() {
        Some((b'.', _)) => append_dotted_name(token, room, octets),
        _ => false,
    }
}

/// Appends the root's octet and `room` octets of any value. If out of memory, fails and then appends nothing.
fn append_root(room: usize, octets: &mut Vec<u8>) -> Result<(), AllocError>
    requires { room ≤ 255 }
    ensures ok { OnOk result (HasBehind room (octets.old.items ++ 0 ∷ []) octets.new.items) }
    ensures same { OnErr result (octets.new.items ≡ octets.old.items) }
{
    octets.resize(octets.len() + 1 + room, 0)?;
    Ok(())
}

/// Returns whether the text spells the root, as a dot alone.
fn is_root(text: &[u8]) -> bool
    ensures { IsTrue result ↔ (text.now ≡ 46 ∷ []) }
{
    matches!(text, [b'.'])
}

/// Appends the octets of the name if the text is one label without an escape, completed with the origin, and `room` octets behind
/// them. Returns whether it did. Appends nothing if there is no origin, if the text is another or the name too long, or if out of
/// memory.
fn append_label(
    token: RowToken<'_>,
    origin: Option<&Name<Vec<u8>>>,
    room: usize,
    octets: &mut Vec<u8>,
) -> bool
    requires { room ≤ 255 }
    ensures yes { IsTrue result → (name : List (List ℕ)) × SpellsUnder (option_copied origin.entry) token.entry.text.now name × IsName name
        × HasBehind room (octets.old.items ++ wire name) octets.new.items }
    ensures no { result ≡ false → octets.new.items ≡ octets.old.items }
{
    let Some(origin) = origin else {
        return false;
    };
    if !is_one_label(token) || token.text.len() + origin.len() > 254 {
        return false;
    }
    let len = octets.len();
    let is_whole = append_before(token, origin, room, octets).is_ok();
    if !is_whole {
        octets.truncate(len);
    }
    is_whole
}

/// Returns whether the token's text is one label of octets that stand for themselves, and not the `@` of the origin.
#[tactic(auto, using(crate::proofs::OneLabel::unescaped_all))]
fn is_one_label(token: RowToken<'_>) -> bool
    ensures { IsTrue result → (list_all is_unescaped token.entry.text.now ≡ true) × (0 < length token.entry.text.now) × (length token.entry.text.now ≤ 63)
        × (token.entry.text.now ≢ 64 ∷ []) }
{
    let is_short = !token.text.is_empty() && token.text.len() <= 63;
    is_short && !matches!(token.text, [b'@']) && token.is_plain() && has_no_dot(token)
}

/// Returns whether the token's text has no dot. Sixteen octets are tested at once, so also those after a shorter token,
/// but no more: the next dot may be far.
fn has_no_dot(token: RowToken<'_>) -> bool
    ensures { IsTrue result → list_all is_no_dot token.entry.text.now ≡ true }
{
    let len = token.text.len();
    let near = &token.from[..len.max(LANES).min(token.from.len())];
    len <= run_end::<OtherThanDot>(near, 0)
}

/// Appends the length of the token's label, the label, the octets of the origin, and `room` octets behind them. If out of memory,
/// fails and may have appended a part of them.
fn append_before(
    token: RowToken<'_>,
    origin: &Name<Vec<u8>>,
    room: usize,
    octets: &mut Vec<u8>,
) -> Result<(), AllocError>
    requires all { list_all is_unescaped token.text.now ≡ true }
    requires some { 0 < length token.text.now }
    requires short { length token.text.now ≤ 63 }
    requires other { token.text.now ≢ 64 ∷ [] }
    requires fits { length token.text.now + length (wire origin.now) ≤ 254 }
    requires room { room ≤ 255 }
    ensures ok { OnOk result ((whole : List ℕ) × OneLabelUnder token.entry.text.now origin.now octets.old.items whole × HasBehind room whole octets.new.items) }
    ensures more { take (length octets.old.items) octets.new.items ≡ octets.old.items }
{
    let origin = origin.as_slice();
    octets.push(token.text.len() as u8)?;
    append_longer(token.text, token.from, origin.len() + room, octets)?;
    let place = octets.len() - room - origin.len();
    write_over(octets, place, origin);
    Ok(())
}
