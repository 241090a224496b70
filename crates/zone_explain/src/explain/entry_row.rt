//! The row of an entry of a zone's text.
ghost use Rattle.std.specs.Prelude.{◌≡◌, drop, IfOk};
ghost use Rattle.zone_explain.specs.Explained.{behind_blanks as spec_behind_blanks};
ghost use Rattle.dns_entry_scanner.specs.LineMark.{MarksLine};
ghost use Rattle.zone_explain.specs.EntryRow.{IsEntryRow};

use super::{Located, Reason};
use dns_entry_scanner::{EntryError, RowFound, RowScanner, TokenSpan, read_row};
use dns_name::{Name, ToName};
use dns_text::Scanner;
use dns_zonefile::LineMark;
use std::alloc::{AllocError, Global};

/// The row of an entry, and what the rows before it have set.
#[derive(Drop)]
pub(crate) struct EntryRow {
    /// The offset of the row in the text.
    pub(crate) place: usize,
    /// Whether it begins with white space. None if the text is cut into no row there.
    pub(crate) blank_led: Option<bool>,
    pub(crate) spans: Vec<TokenSpan>,
    /// The line of the row, or of one before it.
    pub(crate) mark: LineMark,
    pub(crate) origin: Option<Name<Vec<u8>>>,
    /// Whether a record is before it.
    pub(crate) has_owner: bool,
    /// The number of the line of the zone's SOA, if that is before it.
    pub(crate) soa_line: Option<usize>,
    /// The zone's apex, if its SOA is before it.
    pub(crate) apex: Option<Name<Vec<u8>>>,
}

/// Returns the row of the entry with the number, or where the text is cut into no row before it. Fails if out of memory.
pub(crate) fn entry_row(
    alloc: Global,
    text: &[u8],
    origin: Option<&Name<&[u8]>>,
    number: usize,
) -> Result<EntryRow, AllocError>
    ensures row { IfOk result (λ row. IsEntryRow text.now 0 number row.place row.spans.items row.blank_led) }
    ensures line { IfOk result (λ row. MarksLine text.now row.mark) }
{
    let origin = match origin {
        Some(origin) => Some(origin.to_vec(alloc)?),
        None => None,
    };
    let start = EntryRow {
        place: 0,
        blank_led: None,
        spans: Vec::new(alloc),
        mark: LineMark::start(),
        origin,
        has_owner: false,
        soa_line: None,
        apex: None,
    };
    row_behind(alloc, text, start, number)
}

/// Returns the row of the entry with the number, which counts from the place of `start` on, or where the text is cut into
/// no row before it. Fails if out of memory.
pub(crate) fn row_behind(
    alloc: Global,
    text: &[u8],
    start: EntryRow,
    number: usize,
) -> Result<EntryRow, AllocError>
    ensures row { IfOk result (λ row. IsEntryRow text.now start.place number row.place row.spans.items row.blank_led) }
    ensures line { IfOk result (λ row. row.mark ≡ start.mark) }
{
    let mut row = start;
    // The number of entries from the place up to that one.
    let mut left = number;
    loop {
        let RowFound::Row { next, blank_led } = read_row(text, row.place, &mut row.spans)? else {
            row.blank_led = None;
            return Ok(row);
        };
        row.blank_led = Some(blank_led);
        if !row.spans.is_empty() {
            if left <= 1 {
                return Ok(row);
            }
            left -= 1;
            row.pass(alloc, text)?;
        }
        row.place = next;
    }
}

impl EntryRow {
    /// Returns the reason with the place of the first octet of the row that is no white space. It goes up to the end of
    /// the token that begins there, if one does.
    pub(crate) fn at_start(&self, text: &[u8], reason: Reason) -> Located
        ensures { drop result.start text.now ≡ spec_behind_blanks (drop self.now.place text.now) }
    {
        let start = behind_blanks(text, self.place);
        let mut end = start.saturating_add(1);
        if let Some(first) = self.spans.first() {
            let quotes = usize::from(first.is_quoted());
            if first.start() == start.saturating_add(quotes) {
                end = first.start().saturating_add(first.len());
            }
        }
        Located { reason, start, end }
    }

    /// Returns the number of the line of its first token.
    pub(crate) fn first_line(&self, text: &[u8]) -> usize {
        let start = self.spans.first().map_or(self.place, TokenSpan::start);
        self.mark.line_of(text, start)
    }

    /// Applies what the row sets for those after it. Fails if out of memory.
    fn pass(&mut self, alloc: Global, text: &[u8]) -> Result<(), AllocError>
        ensures place { self.new.place ≡ self.old.place }
        ensures line { self.new.mark ≡ self.old.mark }
    {
        let spans = self.spans.as_slice();
        let Some((first, behind)) = spans.split_first() else {
            return Ok(());
        };
        let word = first.text(text);
        if self.blank_led == Some(true) || first.is_quoted() || !word.starts_with(b"$") {
            if !self.has_owner {
                let line = self.mark.line_of(text, first.start());
                let apex = name_in(alloc, text, self.place, spans, self.origin.as_ref())?;
                self.has_owner = true;
                self.soa_line = Some(line);
                self.apex = apex;
            }
            return Ok(());
        }
        if !word.eq_ignore_ascii_case(b"$origin") {
            return Ok(());
        }
        if let Some(name) = name_in(alloc, text, self.place, behind, self.origin.as_ref())? {
            self.origin = Some(name);
        }
        Ok(())
    }
}

/// Returns the name that the first of the tokens spells, if it spells one. Fails if out of memory.
fn name_in(
    alloc: Global,
    text: &[u8],
    place: usize,
    tokens: &[TokenSpan],
    origin: Option<&Name<Vec<u8>>>,
) -> Result<Option<Name<Vec<u8>>>, AllocError> {
    let mut scanner: RowScanner<'_> = RowScanner::new(alloc, text, place, tokens, origin);
    match scanner.scan_name() {
        Ok(name) => Ok(Some(name.to_vec(alloc)?)),
        Err(EntryError::OutOfMemory) => Err(AllocError),
        Err(_) => Ok(None),
    }
}

/// Returns the offset of the first octet from this offset on that is no white space.
fn behind_blanks(text: &[u8], offset: usize) -> usize
    ensures { drop result text.now ≡ spec_behind_blanks (drop offset text.now) }
{
    let mut at = offset;
    while at < text.len() {
        match text[at] {
            b' ' | b'\t' | b'\r' => at += 1,
            _ => break,
        }
    }
    at
}
