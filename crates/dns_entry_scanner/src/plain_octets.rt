//! Plain octets: those that stand for themselves, in tokens and comments.
ghost use Rattle.std.specs.Prelude.{◌≡◌, ◌≤◌, ◌+◌, drop, length};
ghost use Rattle.std.specs.List.{prefix_len};
ghost use Rattle.dns_text.specs.Tokens.{from_feed};
ghost use Rattle.dns_entry_scanner.specs.Octets.{is_in_comment, is_in_quotes, is_in_word, is_plain_in};

use dns_name::{OctetKind, run_end};
use std::simd::prelude::*;

/// Returns the end of the run of plain octets of a token that starts at `place`.
#[inline(always)]
pub(crate) fn plain_end(text: &[u8], place: usize, quoted: bool) -> usize
    requires { place ≤ length text.now }
    ensures end { result ≡ place + prefix_len (is_plain_in quoted) (drop place text.now) }
    ensures within { result ≤ length text.now }
{
    if quoted {
        run_end::<QuotedOctets>(text, place)
    } else {
        run_end::<WordOctets>(text, place)
    }
}

/// Returns the place of the first line feed at or after `place`, or the end of the text if there is none. It is where a comment
/// or a line ends (RFC 1035 5.1).
pub fn line_end(text: &[u8], place: usize) -> usize
    requires { place ≤ length text.now }
    ensures feed { drop result text.now ≡ from_feed (drop place text.now) }
    ensures behind { place ≤ result }
    ensures within { result ≤ length text.now }
{
    run_end::<CommentOctets>(text, place)
}

/// Octets that stand for themselves in an unquoted token.
struct WordOctets;

impl OctetKind for WordOctets {
    ghost has = { is_in_word };

    fn has(octet: u8) -> bool {
        matches!(octet, b'!'..=b'~') && !matches!(octet, b'"' | b'(' | b')' | b';' | b'\\')
    }

    fn others(octets: u8x16) -> u64 {
        let outside = octets.simd_lt(u8x16::splat(b'!')) | octets.simd_gt(u8x16::splat(b'~'));
        let parentheses = octets.simd_eq(u8x16::splat(b'(')) | octets.simd_eq(u8x16::splat(b')'));
        let marks = octets.simd_eq(u8x16::splat(b'"')) | octets.simd_eq(u8x16::splat(b';'));
        let escapes = octets.simd_eq(u8x16::splat(b'\\'));
        (outside | parentheses | marks | escapes).to_bitmask()
    }
}

/// Octets that stand for themselves in a quoted token.
struct QuotedOctets;

impl OctetKind for QuotedOctets {
    ghost has = { is_in_quotes };

    fn has(octet: u8) -> bool {
        matches!(octet, b' '..=b'~') && octet != b'"' && octet != b'\\'
    }

    fn others(octets: u8x16) -> u64 {
        let outside = octets.simd_lt(u8x16::splat(b' ')) | octets.simd_gt(u8x16::splat(b'~'));
        let marks = octets.simd_eq(u8x16::splat(b'"')) | octets.simd_eq(u8x16::splat(b'\\'));
        (outside | marks).to_bitmask()
    }
}

/// Octets other than the line feed, which ends a comment.
struct CommentOctets;

impl OctetKind for CommentOctets {
    ghost has = { is_in_comment };

    fn has(octet: u8) -> bool {
        octet != b'\n'
    }

    fn others(octets: u8x16) -> u64 {
        octets.simd_eq(u8x16::splat(b'\n')).to_bitmask()
    }
}
