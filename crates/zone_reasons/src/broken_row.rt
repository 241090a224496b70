//! Where a text fails that is cut into no row.
ghost use Rattle.zone_reasons.specs.Located.{IsPlaceIn};

use crate::located::Located;
use crate::reason::Reason;
use dns_entry_scanner::RowReader;
use dns_name::Symbol;
use dns_zonefile::LineMark;

/// Returns why there is no row at the place in the text, although the text goes on there. The mark is of a line of the text,
/// up to that of the place.
pub fn broken_row_fault(text: &[u8], place: usize, mark: LineMark) -> Located
    ensures { IsPlaceIn text.now result }
{
    let mut reader = RowReader::new(text, place);
    let mut inside = false;
    let mut open = place;
    for _ in 0..=text.len() {
        let gap = gap_at(text, reader.place(), inside);
        inside = gap.inside;
        open = gap.opened.unwrap_or(open);
        match reader.next_token() {
            Ok(Some(_)) => {}
            _ => return gap_fault(text, gap, open, mark),
        }
    }
    Located::within(text, Reason::NoLineFeed, text.len(), 0)
}

/// The octets between two tokens of a row.
#[derive(Clone, Copy)]
struct Gap {
    /// The offset of the first octet after them.
    end: usize,
    /// Whether that octet is inside parentheses.
    inside: bool,
    /// The offset of the last parenthesis that opens among them.
    opened: Option<usize>,
}

/// Returns the octets from the offset to the next token, or to an octet that may not be there.
fn gap_at(text: &[u8], start: usize, was_inside: bool) -> Gap {
    let mut inside = was_inside;
    let mut opened = None;
    let mut in_comment = false;
    let mut end = start;
    while end < text.len() {
        match text[end] {
            b'\n' if inside => in_comment = false,
            b'\n' => break,
            _ if in_comment => {}
            b' ' | b'\t' | b'\r' => {}
            b';' => in_comment = true,
            b'(' if !inside => {
                inside = true;
                opened = Some(end);
            }
            b')' if inside => inside = false,
            _ => break,
        }
        end += 1;
    }
    Gap {
        end,
        inside,
        opened,
    }
}

/// Returns why no token and no line feed follows the octets. `open` is the offset of the parenthesis that is open, if one
/// is.
fn gap_fault(text: &[u8], gap: Gap, open: usize, mark: LineMark) -> Located
    ensures { IsPlaceIn text.now result }
{
    match text.get(gap.end) {
        None if gap.inside => Located::within(text, Reason::OpenParenthesis, open, 1),
        None => Located::within(text, Reason::NoLineFeed, gap.end, 0),
        Some(b'"') => quote_fault(text, gap.end),
        Some(b'(') => {
            let line = mark.line_of(text, open);
            Located::within(text, Reason::NestedParenthesis(line), gap.end, 1)
        }
        Some(b')') => Located::within(text, Reason::MisplacedParenthesis, gap.end, 1),
        Some(_) => Located::within(text, Reason::BadOctet, gap.end, 1),
    }
}

/// Returns why the quote at the offset begins no token: an octet before its end is no symbol, or it has no end.
fn quote_fault(text: &[u8], quote: usize) -> Located
    ensures { IsPlaceIn text.now result }
{
    let mut at = quote.saturating_add(1);
    for _ in quote..text.len() {
        match Symbol::split_from(&text[at.min(text.len())..]) {
            Some((_, behind)) => at = text.len() - behind.len(),
            None => break,
        }
    }
    match text.get(at) {
        None | Some(b'\n') => Located::within(text, Reason::OpenQuote, quote, 1),
        Some(_) => Located::within(text, Reason::BadOctet, at, 1),
    }
}
