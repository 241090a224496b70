//! Rows with other data.
ghost use Rattle.std.specs.Prelude.{◌≡◌, ◌⊎◌, ◌+◌, ◌<◌, ◌≤◌, ◌++◌, ℕ, List, Some, length, slice_get, IsTrue, OnOk};
ghost use Rattle.dns_scan.specs.Token.{unquoted};
ghost use Rattle.std.specs.List.{list_all};
ghost use Rattle.dns_entry_scanner.specs.Gap.{end_in, first_of};
ghost use Rattle.dns_text.specs.Tokens.{is_gap};
ghost use Rattle.dns_label.specs.Octets.{AreOctets};
ghost use Rattle.dns_name.specs.UnknownText.{unknown_text};
ghost use Rattle.zone_general.specs.DataText.{text_of};
ghost use Rattle.zone_general.specs.Rewritten.{kept};
ghost use Rattle.zone_general.specs.Seen.{IsFound, RewritesAt, tokens_in};
ghost use Rattle.zone_general.specs.WrittenPart.{place_at, written_none, written_part};

use crate::data_text::DataText;
use crate::found_row::FoundRow;
use dns_zonefile::TokenSpan;
use std::alloc::AllocError;

/// Appends the row with another word for its type and other data. The data's text takes the place of the first token of data,
/// and nothing that of the others. What is between the tokens stays, but white space alone before those others goes.
///
/// Fails if out of memory. It may then have appended a part of the row.
pub fn append_rewritten(
    row: FoundRow<'_>,
    type_index: usize,
    word: &[u8],
    data: &[u8],
    out: &mut Vec<u8>,
) -> Result<(), AllocError>
    requires found { IsFound row }
    requires within { type_index < length row.spans.now }
    ensures { OnOk result ((new : List ℕ) × RewritesAt row.entry type_index word.now data.now new × (out.new.items ≡ out.old.items ++ new)) }
{
    rewrite(row, type_index, word, DataText::Written(data), out)
}

/// The same, with the general form of these octets for the data.
pub(crate) fn append_in_general_form(
    row: FoundRow<'_>,
    type_index: usize,
    word: &[u8],
    octets: &[u8],
    out: &mut Vec<u8>,
) -> Result<(), AllocError>
    requires found { IsFound row }
    requires within { type_index < length row.spans.now }
    ensures rewrites { OnOk result ((new : List ℕ) × RewritesAt row.entry type_index word.now (unknown_text octets.now) new
        × (out.new.items ≡ out.old.items ++ new)) }
    ensures octets { AreOctets octets.now }
{
    rewrite(row, type_index, word, DataText::General(octets), out)
}

/// The same, with this text for the data.
fn rewrite(
    row: FoundRow<'_>,
    type_index: usize,
    word: &[u8],
    text: DataText<'_>,
    out: &mut Vec<u8>,
) -> Result<(), AllocError>
    requires found { IsFound row }
    requires within { type_index < length row.spans.now }
    ensures { OnOk result ((new : List ℕ) × RewritesAt row.entry type_index word.now (text_of text.entry) new × (out.new.items ≡ out.old.items ++ new)) }
{
    let first = if has_word(row, type_index, word) {
        type_index + 1
    } else {
        type_index
    };
    append_from(row, first, type_index, word, text, out)
}

/// Returns whether the token at the index is this word, not in quotes.
fn has_word(row: FoundRow<'_>, index: usize, word: &[u8]) -> bool
    requires { index < length row.spans.now }
    ensures { IsTrue result → slice_get (tokens_in row.entry) index ≡ Some (unquoted word.now) }
{
    !row.spans[index].is_quoted() && row.token(index) == word
}

/// The same as `rewrite`. The row stays up to the token at `first`, which is that of the type, or if that is the word, the
/// one behind it.
#[inline(always)]
fn append_from(
    row: FoundRow<'_>,
    first: usize,
    type_index: usize,
    word: &[u8],
    text: DataText<'_>,
    out: &mut Vec<u8>,
) -> Result<(), AllocError>
    requires found { IsFound row }
    requires within { type_index < length row.spans.now }
    requires first { (first ≡ type_index) ⊎ ((first ≡ type_index + 1) × (slice_get (tokens_in row) type_index ≡ Some (unquoted word.now))) }
    ensures { OnOk result ((new : List ℕ) × RewritesAt row.entry type_index word.now (text_of text.entry) new × (out.new.items ≡ out.old.items ++ new)) }
{
    let mut behind = place_before(row, first);
    out.extend_from_slice(&row.text[row.place..behind])?;
    for index in first..row.spans.len() {
        let span = &row.spans[index];
        let gap = &row.text[behind..first_place(span)];
        append_part(index, type_index, word, text, gap, out)?;
        behind = end_place(row.text, span);
    }
    append_missing(row.spans.len(), type_index, text, out)?;
    out.extend_from_slice(&row.text[behind..row.next])
}

/// Returns the place at which the gap before the token at the index begins: behind the token before it, or where the row begins.
fn place_before(row: FoundRow<'_>, index: usize) -> usize
    requires { index ≤ length row.spans.now }
    ensures { result ≡ place_at row.entry.text.now row.entry.place row.entry.spans.now index }
{
    if index == 0 {
        return row.place;
    }
    end_place(row.text, &row.spans[index - 1])
}

/// Returns the place of the token's first octet, its opening quote if it is quoted.
fn first_place(span: &TokenSpan) -> usize
    ensures { result ≡ first_of span.now }
{
    span.start().saturating_sub(usize::from(span.is_quoted()))
}

/// Returns the place behind the token, with its closing quote if it is quoted.
fn end_place(text: &[u8], span: &TokenSpan) -> usize
    ensures { result ≡ end_in text.now span.now }
{
    span.start().min(text.len()) + span.text(text).len() + usize::from(span.is_quoted())
}

/// Appends what is written for the token at the index, and for the gap before it, where that is the type or behind it: the word,
/// and then the data once. Behind the data's text, a gap of white space alone is left out.
#[inline(always)]
fn append_part(
    index: usize,
    type_index: usize,
    word: &[u8],
    text: DataText<'_>,
    gap: &[u8],
    out: &mut Vec<u8>,
) -> Result<(), AllocError>
    requires { type_index ≤ index }
    ensures { OnOk result ((token : List ℕ) → out.new.items ≡ out.old.items ++ written_part index type_index word.now (text_of text.entry) gap.now token) }
{
    if index - type_index > 1 {
        return append_kept(gap, out);
    }
    out.extend_from_slice(gap)?;
    if index == type_index {
        return out.extend_from_slice(word);
    }
    if gap.is_empty() {
        out.push(b' ')?;
    }
    text.append_to(out)
}

/// Appends the gap unless it is white space alone: spaces, tabs and carriage returns.
fn append_kept(gap: &[u8], out: &mut Vec<u8>) -> Result<(), AllocError>
    ensures { OnOk result (out.new.items ≡ out.old.items ++ kept gap.now) }
{
    if are_blanks(gap) {
        return Ok(());
    }
    out.extend_from_slice(gap)
}

/// Returns whether each octet is white space other than a line feed.
fn are_blanks(octets: &[u8]) -> bool
    ensures { result ≡ list_all is_gap octets.now }
{
    octets.iter().all(|&octet| is_blank(octet))
}

/// Returns whether the octet is white space other than a line feed.
fn is_blank(octet: u8) -> bool
    ensures { result ≡ is_gap octet }
{
    matches!(octet, b' ' | b'\t' | b'\r')
}

/// Appends the data after a space, if the row has no data: the token of its type is the last one of the count.
fn append_missing(
    count: usize,
    type_index: usize,
    text: DataText<'_>,
    out: &mut Vec<u8>,
) -> Result<(), AllocError>
    requires { type_index < count }
    ensures { OnOk result (out.new.items ≡ out.old.items ++ written_none count type_index (text_of text.entry)) }
{
    if count - type_index == 1 {
        out.push(b' ')?;
        text.append_to(out)?;
    }
    Ok(())
}
