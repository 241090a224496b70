//! The data of the record that a row states.
ghost use Rattle.std.specs.Prelude.{◌≡◌, ◌↔◌, ◌++◌, ◌+◌, ◌<◌, ◌≤◌, ℕ, List, [], length, drop, false, option_copied, IsTrue, IfErr, OnOk};
ghost use Rattle.dns_entry_scanner.specs.EntryError.{is_memory};
ghost use Rattle.dns_entry_scanner.specs.NameInText.{SpellsUnder};
ghost use Rattle.dns_entry_scanner.specs.TokenSpan.{token_in};
ghost use Rattle.dns_entry_scanner.specs.RowScanner.{names_of, tokens_of};
ghost use Rattle.dns_scan.specs.Token.{SameNames, marker};
ghost use Rattle.dns_scan.specs.UnknownData.{IsUnknownData};
ghost use Rattle.zone_general.specs.LongerRow.{IsMarked, ScansLonger};
ghost use Rattle.zone_general.specs.RowFields.{HasFields, HasNoFields};
ghost use Rattle.zone_general.specs.Seen.{IsFound, tokens_in};

use crate::found_row::FoundRow;
use crate::stated_type::RowType;
use dns_fields_more::scan_further_into;
use dns_name::{Name, Rtype};
use dns_text::Scanner;
use dns_zonefile::{EntryError, InlineName, RowScanner, TokenSpan, scan_unknown_octets_into};
use std::alloc::Global;

/// Returns whether the data of the row is in general form. The word for its type is at the index.
pub fn is_marked(row: FoundRow<'_>, type_index: usize) -> bool
    requires { type_index < length row.spans.now }
    ensures { IsTrue result ↔ IsMarked (drop (type_index + 1) (tokens_in row.entry)) }
{
    match row.spans[type_index + 1..].split_first() {
        Some((first, _)) => is_marker(row.text, first),
        None => false,
    }
}

/// Returns whether the token is the marker of the general form.
fn is_marker(text: &[u8], span: &TokenSpan) -> bool
    ensures { IsTrue result ↔ (token_in text.now span.now ≡ marker) }
{
    !span.is_quoted() && matches!(span.text(text), [b'\\', b'#'])
}

/// Appends the octets of the data of the row, which is in general form or that of a further type.
///
/// Fails with an error other than `OutOfMemory` only if it is neither. It may then have appended some octets.
pub fn scan_data<'a>(
    alloc: Global,
    row: FoundRow<'a>,
    kind: RowType,
    origin: Option<&'a Name<Vec<u8>>>,
    octets: &mut Vec<u8>,
) -> Result<(), EntryError>
    requires { kind.index < length row.spans.now }
    ensures ok { OnOk result ((content : List ℕ)
        × ScansLonger (SpellsUnder (option_copied origin.entry)) kind.rtype (drop (kind.index + 1) (tokens_in row.entry)) content
        × (length content ≤ 65535) × (octets.new.items ≡ octets.old.items ++ content)) }
    ensures err { IfErr result (λ error. is_memory error ≡ false → (content : List ℕ)
        → ScansLonger (SpellsUnder (option_copied origin.entry)) kind.rtype (drop (kind.index + 1) (tokens_in row.entry)) content → ⊥) }
{
    if is_marked(row, kind.index) {
        return scan_general(alloc, row, kind.index, octets);
    }
    let spans = &row.spans[kind.index + 1..];
    let scanner = RowScanner::new(alloc, row.text, row.place, spans, origin);
    scan_fields(scanner, kind.rtype, octets)
}

/// The same for a row that was found in its text: its tokens are not searched for backslashes again.
pub(crate) fn scan_found_data<'a>(
    alloc: Global,
    row: FoundRow<'a>,
    kind: RowType,
    origin: Option<&'a Name<Vec<u8>>>,
    octets: &mut Vec<u8>,
) -> Result<(), EntryError>
    requires found { IsFound row }
    requires within { kind.index < length row.spans.now }
    ensures ok { OnOk result ((content : List ℕ)
        × ScansLonger (SpellsUnder (option_copied origin.entry)) kind.rtype (drop (kind.index + 1) (tokens_in row.entry)) content
        × (length content ≤ 65535) × (octets.new.items ≡ octets.old.items ++ content)) }
    ensures err { IfErr result (λ error. is_memory error ≡ false → (content : List ℕ)
        → ScansLonger (SpellsUnder (option_copied origin.entry)) kind.rtype (drop (kind.index + 1) (tokens_in row.entry)) content → ⊥) }
{
    if is_marked(row, kind.index) {
        return scan_general(alloc, row, kind.index, octets);
    }
    let mut scanner = RowScanner::of_row(alloc, row.text, row.place, row.spans, origin);
    skip_tokens(&mut scanner, kind.index + 1);
    scan_fields(scanner, kind.rtype, octets)
}

/// Takes so many tokens, as far as there are some.
fn skip_tokens(scanner: &mut RowScanner<'_, InlineName>, count: usize)
    ensures tokens { tokens_of scanner.new ≡ drop count (tokens_of scanner.old) }
    ensures names { SameNames (names_of scanner.old) (names_of scanner.new) }
{
    for _ in 0..count {
        scanner.skip_token();
    }
}

/// Appends the octets of data in general form.
///
/// Fails with an error other than `OutOfMemory` only if the tokens after its marker are no such data.
fn scan_general(
    alloc: Global,
    row: FoundRow<'_>,
    type_index: usize,
    octets: &mut Vec<u8>,
) -> Result<(), EntryError>
    requires { IsMarked (drop (type_index + 1) (tokens_in row)) }
    ensures ok { OnOk result ((content : List ℕ) × IsUnknownData (drop (type_index + 2) (tokens_in row.entry)) content
        × (length content ≤ 65535) × (octets.new.items ≡ octets.old.items ++ content)) }
    ensures err { IfErr result (λ error. is_memory error ≡ false → (content : List ℕ)
        → IsUnknownData (drop (type_index + 2) (tokens_in row.entry)) content → ⊥) }
{
    let words = &row.spans[type_index + 2..];
    let mut scanner: RowScanner<'_, InlineName> = RowScanner::new(
        alloc, row.text, row.place, words, None,
    );
    scan_unknown_octets_into(&mut scanner, octets)
}

/// Appends the octets of the fields of a further type, which are the tokens of the scanner.
///
/// Fails with an error other than `OutOfMemory` only if they are no such data of at most 65,535 octets. It may then have
/// appended some octets.
fn scan_fields(
    mut scanner: RowScanner<'_, InlineName>,
    rtype: u16,
    octets: &mut Vec<u8>,
) -> Result<(), EntryError>
    ensures ok { OnOk result (HasFields (names_of scanner.entry) rtype (tokens_of scanner.entry) octets.old.items octets.new.items) }
    ensures err { IfErr result (λ error. is_memory error ≡ false → HasNoFields (names_of scanner.entry) rtype (tokens_of scanner.entry)) }
{
    scan_further_into(Rtype::from_int(rtype), &mut scanner, octets)?;
    if scanner.continues() {
        return Err(EntryError::TrailingTokens);
    }
    Ok(())
}
