//! Why a text is no zone's, with data of further types.

use crate::finding_text::line_start;
use dns_entry_scanner::{line_end, next_line};
use std::alloc::{AllocError, Global};
use tool_words::Reading;
use zone_explain::explain::{Finding, Located, Reason, explain, explain_all};
use zone_forms::general_rows;

/// Returns the first fault of the text, or all of them, in order. Data of further types is read in general form and in
/// presentation form.
///
/// Fails if out of memory.
pub(crate) fn findings_of(
    alloc: Global,
    text: &[u8],
    reading: &Reading,
    all: bool,
) -> Result<Vec<Finding>, AllocError> {
    let findings = plain_findings(alloc, text, reading, all)?;
    if findings.is_empty() {
        return Ok(findings);
    }
    let origin = reading.origin_ref();
    let general = general_rows(alloc, text, origin.as_ref(), reading.class)?;
    if general.as_slice() == text {
        return Ok(findings);
    }
    drop(findings);
    let mut findings = plain_findings(alloc, &general, reading, all)?;
    let mut line = LinePlace {
        number: 1,
        start: 0,
    };
    for finding in findings.iter_mut() {
        line = line.go_to(text, finding.line);
        finding.located = moved(
            finding.located,
            &general,
            &text[line.start.min(text.len())..],
            line.start,
        );
    }
    Ok(findings)
}

/// Returns the first fault of a text without data of further types in presentation form, or all of them. Fails if out of
/// memory.
fn plain_findings(
    alloc: Global,
    text: &[u8],
    reading: &Reading,
    all: bool,
) -> Result<Vec<Finding>, AllocError> {
    let origin = reading.origin_ref();
    if all {
        return explain_all(alloc, text, origin.as_ref(), reading.class);
    }
    let mut findings = Vec::new(alloc);
    if let Some(finding) = explain(alloc, text, origin.as_ref(), reading.class)? {
        findings.push(finding)?;
    }
    Ok(findings)
}

/// The number of a line of a text, counted from 1, and the offset of its first octet.
#[derive(Clone, Copy)]
struct LinePlace {
    number: usize,
    start: usize,
}

impl LinePlace {
    /// Returns the line of the text with the number. It looks from this line on, or back.
    fn go_to(self, text: &[u8], number: usize) -> LinePlace {
        let mut start = self.start;
        for _ in self.number..number {
            start = next_line(text, start.min(text.len()));
        }
        for _ in number..self.number {
            start = line_start(text, start.saturating_sub(1));
        }
        LinePlace { number, start }
    }
}

/// Returns the place in the text of a place in its general form. The line of the text begins at the offset, and `behind` is
/// the text from there on.
///
/// A line of the general form is the same up to the first token of data that is written otherwise, and behind that no token
/// is at fault but a parenthesis inside others.
fn moved(located: Located, general: &[u8], behind: &[u8], offset: usize) -> Located {
    let at = located.start.min(general.len());
    let begin = line_start(general, at);
    let line = &behind[..line_end(behind, 0)];
    let column = match located.reason {
        Reason::NestedParenthesis(_) if &general[begin..line_end(general, at)] != line => {
            first_parenthesis(line)
        }
        _ => at - begin,
    };
    let start = offset.saturating_add(column);
    let len = located.end.saturating_sub(located.start);
    Located {
        reason: located.reason,
        start,
        end: start.saturating_add(len),
    }
}

/// Returns the offset of the first parenthesis of the line that opens, outside of quotes.
fn first_parenthesis(line: &[u8]) -> usize {
    let mut is_quoted = false;
    let mut is_escaped = false;
    for (at, &octet) in line.iter().enumerate() {
        match octet {
            _ if is_escaped => is_escaped = false,
            b'\\' => is_escaped = true,
            b'"' => is_quoted = !is_quoted,
            b'(' if !is_quoted => return at,
            _ => {}
        }
    }
    0
}
