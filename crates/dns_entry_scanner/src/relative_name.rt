//! Relative names with an escape or with several labels, appended as octets without a value for them (RFC 1035 5.1).
ghost use Rattle.std.specs.List.{list_all};
ghost use Rattle.std.specs.Prelude.{◌≡◌, ◌≢◌, ◌+◌, ◌-◌, ◌<◌, ◌≤◌, ◌++◌, ◌∷◌, [], List, ℕ, Some, true, false, length, take, drop, set, option_copied, IsTrue, IfSome, IfNone, OnOk, OnErr};
ghost use Rattle.dns_label.specs.Name.{IsName, wire, labels_wire};
ghost use Rattle.dns_label.specs.NameText.{IsRelativeText};
ghost use Rattle.dns_wire.specs.Unescaped.{is_unescaped};
ghost use Rattle.dns_name.specs.Remembered.{patched};
ghost use Rattle.dns_entry_scanner.specs.AppendedName.{HasBehind, EscapeAt};
ghost use Rattle.dns_entry_scanner.specs.NameInText.{SpellsUnder};

use crate::dotted_name::LANES;
use crate::short_copy::write_over;
use crate::spelled_octets::octet_of;
use crate::text_name::is_at_sign;
use dns_name::{Composer, Name, OctetKind, Symbol, run_end};
use std::alloc::AllocError;
use std::simd::prelude::*;

/// The greatest number of octets of a label (RFC 1035 2.3.4).
const LABEL_MOST: usize = 63;

/// Appends the octets of the relative name that a text spells, completed with the origin, and `room` octets of any value behind them.
/// Returns whether it did. The longer text is that from the text's start on.
///
/// Appends nothing if there is no origin, if the text ends in a dot or spells no such name, if the text with the origin is longer than a
/// name may be, or if out of memory.
#[inline(never)]
pub(crate) fn append_relative(
    text: &[u8],
    from: &[u8],
    origin: Option<&Name<Vec<u8>>>,
    room: usize,
    octets: &mut Vec<u8>,
) -> bool
    requires begins { text.now ≡ take (length text.now) from.now }
    requires room { room ≤ 255 }
    ensures yes { IsTrue result → (name : List (List ℕ)) × SpellsUnder (option_copied origin.entry) text.now name × IsName name
        × HasBehind room (octets.old.items ++ wire name) octets.new.items }
    ensures no { result ≡ false → octets.new.items ≡ octets.old.items }
{
    let Some(origin) = origin else {
        return false;
    };
    if is_at_sign(text) || !ends_open(text) || text.len() + origin.len() > 254 {
        return false;
    }
    append_under(text, from, origin, room, octets)
}

/// Returns whether the text has octets and the last is no dot.
fn ends_open(text: &[u8]) -> bool {
    !matches!(text.split_last(), None | Some((b'.', _)))
}

/// The same for a short text other than `@`.
///
/// The name has at most one octet more than the text, before the origin's. So this appends as many octets as may be needed, of any value,
/// and writes the labels and the origin over them.
fn append_under(
    text: &[u8],
    from: &[u8],
    origin: &Name<Vec<u8>>,
    room: usize,
    octets: &mut Vec<u8>,
) -> bool
    requires begins { text.now ≡ take (length text.now) from.now }
    requires other { text.now ≢ 64 ∷ [] }
    requires fits { length text.now + length (wire origin.now) ≤ 254 }
    requires room { room ≤ 255 }
    ensures yes { IsTrue result → (name : List (List ℕ)) × SpellsUnder (Some origin.now) text.now name × IsName name
        × HasBehind room (octets.old.items ++ wire name) octets.new.items }
    ensures no { result ≡ false → octets.new.items ≡ octets.old.items }
{
    let origin = origin.as_slice();
    let front = octets.len();
    let Ok(()) = append_any(from, text.len() + 1 + LANES + origin.len() + room, octets) else {
        return false;
    };
    let Some(end) = write_labels(text, from, front, octets) else {
        octets.truncate(front);
        return false;
    };
    write_over(octets, end, origin);
    octets.truncate(end + origin.len() + room);
    true
}

/// Appends so many octets of any value: those of a text if it has as many. If out of memory, fails and then appends nothing.
fn append_any(from: &[u8], count: usize, octets: &mut Vec<u8>) -> Result<(), AllocError>
    requires { count ≤ 1000 }
    ensures ok { OnOk result (HasBehind count octets.old.items octets.new.items) }
    ensures same { OnErr result (octets.new.items ≡ octets.old.items) }
{
    if count <= from.len() {
        octets.extend_from_slice(&from[..count])?;
    } else {
        octets.resize(octets.len() + count, 0)?;
    }
    Ok(())
}

/// Writes the labels of a relative name over the octets from `front` on, each after its length. Returns the end of them, or `None` if the
/// text spells no such name. It may also write over the octets behind.
fn write_labels(text: &[u8], from: &[u8], front: usize, octets: &mut Vec<u8>) -> Option<usize>
    requires begins { text.now ≡ take (length text.now) from.now }
    requires short { length text.now ≤ 254 }
    requires space { front + length text.now + 17 ≤ length octets.old.items }
    ensures some { IfSome result (λ end. (labels : List (List ℕ)) × (more : ℕ) × IsRelativeText text.now labels
        × HasBehind more (take front octets.old.items ++ labels_wire labels) octets.new.items
        × (end ≡ front + length (labels_wire labels)) × (length (labels_wire labels) ≤ 1 + length text.now)) }
    ensures front { take front octets.new.items ≡ take front octets.old.items }
    ensures counted { length octets.new.items ≡ length octets.old.items }
{
    let mut head = front;
    let mut place = front + 1;
    let mut start = 0;
    while start < text.len() {
        match text[start] {
            b'.' => {
                if !end_label(head, place, octets) {
                    return None;
                }
                head = place;
                place += 1;
                start += 1;
            }
            b'\\' => {
                let Some((octet, end)) = escape_at(text, start) else {
                    return None;
                };
                octets.patch(place, &[octet]);
                place += 1;
                start = end;
            }
            _ => {
                let Some(end) = run_at(text, from, start) else {
                    return None;
                };
                write_run(&text[start..end], &from[start..], place, octets);
                place += end - start;
                start = end;
            }
        }
    }
    if end_label(head, place, octets) {
        Some(place)
    } else {
        None
    }
}

/// Writes the length of a label before it. Returns false and writes nothing if the label has no octets or too many.
fn end_label(head: usize, place: usize, octets: &mut Vec<u8>) -> bool
    requires open { head < place }
    requires within { head < length octets.old.items }
    ensures yes { IsTrue result → (0 < place - head - 1) × (place - head - 1 ≤ 63) × (octets.new.items ≡ set octets.old.items head (place - head - 1)) }
    ensures no { result ≡ false → octets.new.items ≡ octets.old.items }
{
    let len = place - head - 1;
    if len == 0 || len > LABEL_MOST {
        return false;
    }
    octets[head] = len as u8;
    true
}

/// Returns the octet of the escape at a backslash in a text, and the escape's end. Returns `None` if no escape is there.
fn escape_at(text: &[u8], start: usize) -> Option<(u8, usize)>
    requires within { start < length text.now }
    requires is { (rest : List ℕ) × (drop start text.now ≡ 92 ∷ rest) }
    ensures { IfSome result (λ found. EscapeAt text.now start found.0 found.1) }
{
    let (symbol, behind) = Symbol::split_from(&text[start..])?;
    Some((octet_of(symbol), text.len() - behind.len()))
}

/// Returns the end of the run of octets that stand for themselves at a place of a text, or `None` if there is none. Sixteen octets are
/// looked at together also near the text's end.
fn run_at(text: &[u8], from: &[u8], start: usize) -> Option<usize>
    requires begins { text.now ≡ take (length text.now) from.now }
    requires within { start < length text.now }
    ensures run { IfSome result (λ end. list_all is_unescaped (take (end - start) (drop start text.now)) ≡ true) }
    ensures some { IfSome result (λ end. start < end) }
    ensures whole { IfSome result (λ end. end ≤ length text.now) }
{
    let near = &from[..(text.len() + LANES).min(from.len())];
    let end = run_end::<UnescapedOctets>(near, start).min(text.len());
    if start < end { Some(end) } else { None }
}

/// Writes octets that a longer text begins with over those from a place on. Sixteen octets are copied at once where the run is no longer,
/// and then others may be behind it.
fn write_run(run: &[u8], from: &[u8], place: usize, octets: &mut Vec<u8>)
    requires begins { run.now ≡ take (length run.now) from.now }
    requires lanes { place + 16 ≤ length octets.old.items }
    requires within { place + length run.now ≤ length octets.old.items }
    ensures { (more : List ℕ) × (place + length run.now + length more ≤ length octets.old.items)
        × (octets.new.items ≡ patched octets.old.items place (run.now ++ more)) }
{
    if run.len() <= LANES && LANES <= from.len() {
        octets.patch(place, &from[..LANES]);
    } else {
        octets.patch(place, run);
    }
}

/// The octets that as characters are symbols other than a dot.
struct UnescapedOctets;

impl OctetKind for UnescapedOctets {
    ghost has = { is_unescaped };

    fn has(octet: u8) -> bool {
        matches!(octet, b' '..=b'~') && octet != b'.' && octet != b'\\'
    }

    fn others(octets: u8x16) -> u64 {
        let unprintable = octets.simd_lt(u8x16::splat(b' ')) | octets.simd_gt(u8x16::splat(b'~'));
        let marked = octets.simd_eq(u8x16::splat(b'.')) | octets.simd_eq(u8x16::splat(b'\\'));
        (unprintable | marked).to_bitmask()
    }
}
