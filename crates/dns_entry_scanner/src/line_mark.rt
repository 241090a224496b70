//! Lines of a text.
ghost use Rattle.std.specs.Prelude.{◌≡◌, ◌<◌, ◌≤◌, ◌+◌, ◌++◌, ℕ, List, drop, length};
ghost use Rattle.dns_entry_scanner.specs.LineMark.{MarksLine};
ghost use Rattle.dns_entry_scanner.specs.Lines.{behind_line, line_at, line_behind as spec_line_behind};

use crate::line_end;
use std::simd::prelude::*;

/// How many octets are searched for line feeds together.
const BLOCK_LEN: usize = 64;

/// An offset in a text and the number of its line, from which lines are counted on.
#[derive(Clone, Copy, Debug)]
pub struct LineMark {
    place: usize,
    line: usize,
}

impl LineMark {
    /// Returns the mark of the start of a text.
    pub fn start() -> Self
        ensures { (text : List ℕ) → MarksLine text result }
    {
        LineMark { place: 0, line: 1 }
    }

    /// Returns the number of its line, counted from 1.
    pub fn line(&self) -> usize
        ensures { result ≡ self.now.line }
    {
        self.line
    }

    /// Returns the number of the line of an offset in the text of the mark, counted from 1.
    pub fn line_of(&self, text: &[u8], offset: usize) -> usize
        ensures { MarksLine text.now self.now → result ≡ line_at text.now offset }
    {
        let end = offset.min(text.len());
        if end < self.place {
            return line_behind(&text[..end]);
        }
        let feeds = line_behind(&text[self.place..end]).saturating_sub(1);
        self.line.saturating_add(feeds)
    }

    /// Returns the mark of an offset in the text of the mark, or of the text's end if that is before it.
    pub fn at(&self, text: &[u8], offset: usize) -> Self
        ensures marks { MarksLine text.now self.now → MarksLine text.now result }
        ensures line { MarksLine text.now self.now → offset ≤ length text.now → result.line ≡ line_at text.now offset }
    {
        let place = offset.min(text.len());
        LineMark {
            place,
            line: self.line_of(text, place),
        }
    }
}

/// Returns the place behind the line feed that ends the line at `place`, or the end of the text if there is none.
pub fn next_line(text: &[u8], place: usize) -> usize
    requires { place ≤ length text.now }
    ensures left { drop result text.now ≡ behind_line (drop place text.now) }
    ensures behind { place < length text.now → place < result }
    ensures within { result ≤ length text.now }
{
    let end = line_end(text, place);
    if end == text.len() { end } else { end + 1 }
}

/// Returns the number of the line after these octets, counted from 1.
fn line_behind(before: &[u8]) -> usize
    ensures { result ≡ spec_line_behind before.now }
{
    let mut line = 1;
    let mut left = before;
    while let Some((block, behind)) = left.split_first_chunk::<BLOCK_LEN>() {
        line += feeds_in(block);
        left = behind;
    }
    while let Some((&octet, behind)) = left.split_first() {
        if octet == b'\n' {
            line += 1;
        }
        left = behind;
    }
    line
}

/// Returns how many line feeds are in a block.
#[inline(always)]
fn feeds_in(block: &[u8; BLOCK_LEN]) -> usize
    ensures feeds { (behind : List ℕ) → spec_line_behind (block.now ++ behind) ≡ result + spec_line_behind behind }
    ensures few { result ≤ length block.now }
{
    let feeds = u8x64::from_slice(block).simd_eq(u8x64::splat(b'\n'));
    let ones = feeds.select(u8x64::splat(1), u8x64::splat(0));
    usize::from(ones.reduce_sum())
}
