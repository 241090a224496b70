//! Names in text without escapes, as most names are (RFC 1035, section 5.1).
ghost use Rattle.std.specs.Prelude.{◌≡◌, ◌≤◌, ◌+◌, ◌↔◌, ◌++◌, List, ℕ, length, drop, take, IsTrue, IsFalse, IfOk, IfSome};
ghost use Rattle.dns_label.specs.Name.{wire};
ghost use Rattle.dns_label.specs.NameText.{IsAbsoluteText};
ghost use Rattle.dns_wire.specs.Unescaped.{IsUnescaped, StartsWithUnescapedLabel, is_unescaped};

use dns_label::{OctetKind, run_end};
use std::alloc::AllocError;
use std::simd::prelude::*;

/// The greatest number of octets of a label (RFC 1035, section 2.3.4).
const LABEL_MOST: usize = 63;

/// The greatest number of octets of such a name's text. The name has one octet more, the root's.
const TEXT_MOST: usize = 254;

/// Appends the octets of the name that a text without escapes spells with its last dot, and returns whether it did.
///
/// It appends nothing if the text has an escape, spells no name or spells the root, or if out of memory. A reader of
/// symbols tells which of these it is.
pub(super) fn append_unescaped(octets: &mut Vec<u8>, text: &[u8]) -> bool
    ensures name { IsTrue result → (name : List (List ℕ)) × IsAbsoluteText text.now name × (octets.new.items ≡ octets.old.items ++ wire name) }
    ensures none { IsFalse result → octets.new.items ≡ octets.old.items }
{
    let len = octets.len();
    let is_whole = matches!(append_labels(octets, text), Ok(true));
    if !is_whole {
        octets.truncate(len);
    }
    is_whole
}

/// The same, but leaves octets in the vector if they are not the whole name.
///
/// It appends the text as it is, after one more octet. So each label follows a dot or that octet, and the label's
/// length is written there. The root's length is written over the last dot.
fn append_labels(octets: &mut Vec<u8>, text: &[u8]) -> Result<bool, AllocError>
    ensures name { IfOk result (λ is_whole. IsTrue is_whole → (name : List (List ℕ)) × IsAbsoluteText text.now name
        × (octets.new.items ≡ octets.old.items ++ wire name)) }
    ensures front { take (length octets.old.items) octets.new.items ≡ octets.old.items }
{
    if text.is_empty() || text.len() > TEXT_MOST {
        return Ok(false);
    }
    let front = octets.len();
    octets.reserve(text.len() + 1)?;
    octets.push(0)?;
    octets.extend_from_slice(text)?;
    let mut start = 0;
    while start < text.len() {
        let Some(label) = label_at(text, start) else {
            return Ok(false);
        };
        octets[front + start] = label.len() as u8;
        start += label.len() + 1;
    }
    octets[front + start] = 0;
    Ok(true)
}

/// Returns the label at a place, if its octets all stand for themselves and a dot follows it.
fn label_at(text: &[u8], start: usize) -> Option<&[u8]>
    requires { start ≤ length text.now }
    ensures { IfSome result (λ label. StartsWithUnescapedLabel (drop start text.now) label.now (drop (start + length label.now + 1) text.now)) }
{
    let end = run_end::<UnescapedOctets>(text, start);
    let label = &text[start..end];
    match text[end..].split_first() {
        Some((b'.', _)) if !label.is_empty() && label.len() <= LABEL_MOST => Some(label),
        _ => None,
    }
}

/// The octets that as characters are symbols other than a dot.
struct UnescapedOctets;

impl OctetKind for UnescapedOctets {
    ghost has = { is_unescaped };

    fn has(octet: u8) -> bool {
        is_unescaped(octet)
    }

    fn others(octets: u8x16) -> u64 {
        let unprintable = octets.simd_lt(u8x16::splat(b' ')) | octets.simd_gt(u8x16::splat(b'~'));
        let marked = octets.simd_eq(u8x16::splat(b'.')) | octets.simd_eq(u8x16::splat(b'\\'));
        (unprintable | marked).to_bitmask()
    }
}

/// Returns whether the octet as a character is a symbol other than a dot.
pub(super) fn is_unescaped(octet: u8) -> bool
    ensures { IsTrue result ↔ IsUnescaped octet }
{
    matches!(octet, b' '..=b'~') && octet != b'.' && octet != b'\\'
}
