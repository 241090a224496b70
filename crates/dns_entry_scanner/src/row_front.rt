//! The fronts of rows: words, white space, parentheses and comments alone, found by one mask of 64 octets.
ghost use Rattle.std.specs.Prelude.{◌≡◌, ◌≤◌, ◌<◌, ◌+◌, [], false, true, List, ℕ, length, map, not, drop, IfOk, IsTrue};
ghost use Rattle.std.specs.List.{prefix_len};
ghost use Rattle.std.specs.Simd.Lanes.{chunk, mask_l};
ghost use Rattle.dns_text.specs.Rows.{is_led};
ghost use Rattle.dns_entry_scanner.specs.BegunRow.{BegunRow};
ghost use Rattle.dns_entry_scanner.specs.Octets.{ends_word, may_end_word};
ghost use Rattle.dns_entry_scanner.specs.RowFound.{IsRowAt};

use crate::TokenSpan;
use crate::head::{Head, head_of, is_space};
use crate::plain_octets::line_end;
use std::alloc::AllocError;
use std::simd::prelude::*;

/// How many octets are looked at together.
const WINDOW_LEN: usize = 64;

/// How far a row was read.
#[derive(Clone, Copy)]
pub(crate) struct RowFront {
    /// The place after all that was read.
    pub(crate) place: usize,
    /// Whether that place is inside parentheses.
    pub(crate) inside: bool,
    /// Whether it is after the whole row, with its line feed.
    pub(crate) is_whole: bool,
}

impl RowFront {
    /// Returns that a row was read up to a place, inside parentheses or outside.
    fn part(place: usize, inside: bool) -> Self
        ensures { result ≡ record { place = place; inside = inside; is_whole = false } }
    {
        RowFront {
            place,
            inside,
            is_whole: false,
        }
    }

    /// Returns that the whole row was read. The next one begins at the place.
    fn whole(place: usize) -> Self
        ensures { result ≡ record { place = place; inside = false; is_whole = true } }
    {
        RowFront {
            place,
            inside: false,
            is_whole: true,
        }
    }
}

/// Reads a row from the place on, as far as it is words, white space, parentheses and comments, within 64 octets; a comment may end
/// behind them. Pushes its tokens. Most rows are whole then. It ends before a word with a backslash or one of `!` to `'`.
///
/// Fails if out of memory.
pub(crate) fn read_front(
    text: &[u8],
    place: usize,
    tokens: &mut Vec<TokenSpan>,
) -> Result<RowFront, AllocError>
    requires { place ≤ length text.now }
    ensures begun { IfOk result (λ front. front.is_whole ≡ false → (start : ℕ) → BegunRow text.now start tokens.old.items false place
        → BegunRow text.now start tokens.new.items front.inside front.place) }
    ensures whole { IfOk result (λ front. front.is_whole ≡ true → (start : ℕ) → BegunRow text.now start tokens.old.items false place
        → IsRowAt text.now start tokens.new.items front.place (is_led (drop start text.now))) }
    ensures within { IfOk result (λ front. front.place ≤ length text.now) }
{
    if text.len() < WINDOW_LEN || text.len() - WINDOW_LEN < place {
        return Ok(RowFront::part(place, false));
    }
    let ends = word_ends(text, place);
    let mut at = 0;
    let mut inside = false;
    while at < WINDOW_LEN {
        let len = word_len(ends, at);
        if len > 0 {
            let behind = text[place + at + len];
            // Most words have one space after them.
            if is_space(behind) {
                tokens.push(TokenSpan::word(place + at, len))?;
                at += len + 1;
            } else if ends_word(behind) {
                tokens.push(TokenSpan::word(place + at, len))?;
                at += len;
            } else {
                break;
            }
        } else {
            let octet = text[place + at];
            // Most rows end so.
            if octet == b'\n' && !inside {
                return Ok(RowFront::whole(place + at + 1));
            }
            match head_of(inside, octet) {
                Head::Go(behind) => {
                    inside = behind;
                    at += 1;
                }
                Head::Comment => at = line_end(text, place + at + 1) - place,
                Head::Feed | Head::Quote | Head::Word | Head::Refused => break,
            }
        }
    }
    Ok(RowFront::part(place + at, inside))
}

/// Returns the number of octets from the index on before one that may end a word, by the mask of these among 64 octets. Returns 0
/// if there is none, or if no such octet follows.
#[inline(always)]
fn word_len(ends: u64, at: usize) -> usize
    requires { at < 64 }
    ensures len { (octets : List ℕ) → length octets ≡ 64 → ends ≡ mask_l (map may_end_word octets)
        → 0 < result → result ≡ prefix_len (λ octet. not (may_end_word octet)) (drop at octets) }
    ensures within { (octets : List ℕ) → length octets ≡ 64 → ends ≡ mask_l (map may_end_word octets) → at + result < 64 }
{
    let behind = ends >> at as u32;
    if behind == 0 {
        0
    } else {
        behind.trailing_zeros() as usize
    }
}

/// Returns whether a word ends before the octet. Spaces and tabs are left out, and octets that no row has after a word.
#[inline(always)]
fn ends_word(octet: u8) -> bool
    ensures { IsTrue result → ends_word octet ≡ true }
{
    matches!(octet, b'\n' | b'\r' | b'(' | b')' | b'"' | b';')
}

/// Returns a mask of the octets that may end a word: a bit for each of 64 octets from the place on, the lowest for the first.
#[inline(always)]
fn word_ends(text: &[u8], place: usize) -> u64
    requires { place + 64 ≤ length text.now }
    ensures { result ≡ mask_l (map may_end_word (chunk place 64 text.now)) }
{
    let first = may_end_word(u8x16::from_slice(&text[place..]));
    let second = may_end_word(u8x16::from_slice(&text[place + 16..]));
    let third = may_end_word(u8x16::from_slice(&text[place + 32..]));
    let fourth = may_end_word(u8x16::from_slice(&text[place + 48..]));
    first + second * 0x1_0000 + third * 0x1_0000_0000 + fourth * 0x1_0000_0000_0000
}

/// Returns a mask of the octets that may end a word: those that are in no word, and those from `!` to `'`, which takes four
/// comparisons in place of seven.
#[inline(always)]
fn may_end_word(octets: u8x16) -> u64
    ensures { result ≡ mask_l (map may_end_word octets) }
{
    let outside = octets.simd_lt(u8x16::splat(b'*')) | octets.simd_gt(u8x16::splat(b'~'));
    let marks = octets.simd_eq(u8x16::splat(b';')) | octets.simd_eq(u8x16::splat(b'\\'));
    (outside | marks).to_bitmask()
}
