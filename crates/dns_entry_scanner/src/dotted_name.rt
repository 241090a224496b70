//! Names in text with their last dot and without escapes, appended as octets (RFC 1035 5.1).
ghost use Rattle.std.specs.Prelude.{◌≡◌, ◌≤◌, ◌+◌, ◌++◌, List, ℕ, true, false, length, drop, take, IsTrue, IfOk, IfSome};
ghost use Rattle.std.specs.List.{list_all};
ghost use Rattle.dns_label.specs.Name.{wire};
ghost use Rattle.dns_label.specs.NameText.{IsAbsoluteText};
ghost use Rattle.dns_label.specs.Symbol.{is_plain};
ghost use Rattle.dns_wire.specs.Unescaped.{StartsWithUnescapedLabel};
ghost use Rattle.dns_entry_scanner.specs.AppendedName.{HasBehind, is_no_dot};

use crate::row_token::RowToken;
use crate::short_copy::append_longer;
use dns_name::{OctetKind, run_end};
use std::alloc::AllocError;
use std::simd::prelude::*;

/// The greatest number of octets of a label (RFC 1035 2.3.4).
const LABEL_MOST: usize = 63;

/// The greatest number of octets of such a name's text. The name has one octet more, the root's.
const TEXT_MOST: usize = 254;

/// Appends the octets of the name that a token without an escape spells with its last dot, and `room` octets of any value
/// behind them. Returns whether it did.
///
/// Appends nothing if the token has an escape, spells no such name or spells the root, or if out of memory.
pub(crate) fn append_dotted_name(token: RowToken<'_>, room: usize, octets: &mut Vec<u8>) -> bool
    requires { room ≤ 255 }
    ensures yes { IsTrue result → (name : List (List ℕ)) × IsAbsoluteText token.entry.text.now name
        × HasBehind room (octets.old.items ++ wire name) octets.new.items }
    ensures no { result ≡ false → octets.new.items ≡ octets.old.items }
{
    let len = octets.len();
    let is_whole = matches!(append_labels(token, room, octets), Ok(true));
    if !is_whole {
        octets.truncate(len);
    }
    is_whole
}

/// The same, but leaves octets in the vector if they are not the whole name.
///
/// It appends the text as it is, after one more octet. So each label follows a dot or that octet, and the label's
/// length is written there. The root's length is written over the last dot.
fn append_labels(token: RowToken<'_>, room: usize, octets: &mut Vec<u8>) -> Result<bool, AllocError>
    requires { room ≤ 255 }
    ensures name { IfOk result (λ is_whole. IsTrue is_whole → (name : List (List ℕ)) × IsAbsoluteText token.entry.text.now name
        × HasBehind room (octets.old.items ++ wire name) octets.new.items) }
    ensures front { take (length octets.old.items) octets.new.items ≡ octets.old.items }
{
    let text = token.text;
    if text.is_empty() || text.len() > TEXT_MOST || !token.is_plain() {
        return Ok(false);
    }
    let front = octets.len();
    octets.push(0)?;
    append_longer(text, token.from, room, octets)?;
    let mut start = 0;
    while start < text.len() {
        let Some(label) = label_at(text, token.from, start) else {
            return Ok(false);
        };
        octets[front + start] = label.len() as u8;
        start += label.len() + 1;
    }
    octets[front + start] = 0;
    Ok(true)
}

/// Returns the label at a place of a text of octets that stand for themselves, if a dot follows it. The longer text is that from the
/// text's start on, so that sixteen octets are looked at together also near the text's end.
fn label_at<'t>(text: &'t [u8], from: &[u8], start: usize) -> Option<&'t [u8]>
    requires begins { text.now ≡ take (length text.now) from.now }
    requires plain { list_all is_plain text.now ≡ true }
    requires within { start ≤ length text.now }
    ensures { IfSome result (λ label. StartsWithUnescapedLabel (drop start text.now) label.now (drop (start + length label.now + 1) text.now)) }
{
    let near = &from[..(text.len() + LANES).min(from.len())];
    let end = run_end::<OtherThanDot>(near, start);
    let len = end - start;
    if end < text.len() && 0 < len && len <= LABEL_MOST {
        Some(&text[start..end])
    } else {
        None
    }
}

/// The number of octets that are tested at once.
pub(crate) const LANES: usize = 16;

/// Octets other than the dot.
pub(crate) struct OtherThanDot;

impl OctetKind for OtherThanDot {
    ghost has = { is_no_dot };

    fn has(octet: u8) -> bool {
        octet != b'.'
    }

    fn others(octets: u8x16) -> u64 {
        octets.simd_eq(u8x16::splat(b'.')).to_bitmask()
    }
}
