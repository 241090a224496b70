//! A finding as text.

ghost use Rattle.std.specs.Prelude.{◌≤◌};

use crate::color::{BOLD, PLAIN, RED};
use dns_entry_scanner::line_end;
use dns_field_texts::{DisplayType, read_type};
use dns_name::Rtype;
use std::alloc::{AllocError, Global};
use std::fmt::Write;
use zone_explain::explain::{Finding, Reason, Wanted};

/// Returns the finding as text: a line `FILE:LINE:COLUMN: reason`, the line of the text, and a line with a mark below the
/// token. Lines and columns are counted from 1, columns in octets. An octet that is not printable ASCII is shown as `?`. With
/// colours the place is bold, and the mark is red.
///
/// Fails if out of memory.
pub(crate) fn finding_text(
    alloc: Global,
    file: &str,
    text: &[u8],
    finding: &Finding,
    colored: bool,
) -> Result<String, AllocError> {
    let located = finding.located;
    let start = located.start.min(text.len());
    let line_start = line_start(text, start);
    let mut out = String::new(alloc);
    let (line, column) = (finding.line, start - line_start + 1);
    let (bold, red, plain) = if colored {
        (BOLD, RED, PLAIN)
    } else {
        ("", "", "")
    };
    write!(out, "{bold}{file}:{line}:{column}:{plain} ")?;
    let token = &text[start..located.end.min(text.len()).max(start)];
    push_reason(&mut out, finding, token)?;
    out.push('\n')?;
    if matches!(located.reason, Reason::ClassAny | Reason::NoSoa) {
        return Ok(out);
    }
    let shown = &text[line_start..line_end(text, start)];
    for &octet in shown {
        out.push(shown_octet(octet))?;
    }
    out.push('\n')?;
    for &octet in &shown[..(start - line_start).min(shown.len())] {
        out.push(if octet == b'\t' { '\t' } else { ' ' })?;
    }
    out.push_str(red)?;
    let left = shown.len().saturating_sub(start - line_start);
    for _ in 0..token.len().min(left).max(1) {
        out.push('^')?;
    }
    out.push_str(plain)?;
    out.push('\n')?;
    Ok(out)
}

/// Returns the offset of the first octet of the line of an offset.
pub(crate) fn line_start(text: &[u8], offset: usize) -> usize
    ensures { result ≤ offset }
{
    match text[..offset.min(text.len())]
        .iter()
        .rposition(|&octet| octet == b'\n')
    {
        Some(feed) => feed + 1,
        None => 0,
    }
}

fn shown_octet(octet: u8) -> char {
    match octet {
        b'\t' | b' '..=b'~' => char::from(octet),
        _ => '?',
    }
}

/// Appends the finding's reason. Fails if out of memory.
fn push_reason(out: &mut String, finding: &Finding, token: &[u8]) -> Result<(), AllocError> {
    match &finding.located.reason {
        Reason::NoLineFeed => out.push_str("the last line has no line feed"),
        Reason::OpenQuote => out.push_str("quote is not closed"),
        Reason::OpenParenthesis => out.push_str("parenthesis is not closed"),
        Reason::MisplacedParenthesis => out.push_str("parenthesis is misplaced"),
        Reason::NestedParenthesis(line) => {
            write!(
                out,
                "parenthesis is misplaced; one is open since line {line}"
            )
        }
        Reason::BadOctet => push_octet(out, token),
        Reason::NoOrigin => {
            out.push_str("relative name without an origin: give --origin or $ORIGIN")
        }
        Reason::NoOwner => out.push_str("no owner: the first record states its owner"),
        Reason::Missing(wanted) => write!(out, "the entry ends where {wanted} is wanted"),
        Reason::LongData => out.push_str("data has more than 65535 octets"),
        Reason::OtherKeys => {
            out.push_str("a key of the service parameters is there twice, or lacks another")
        }
        Reason::GeneralFormOnly(rtype) => push_general_form(out, *rtype),
        Reason::OutOfZone => match &finding.apex {
            Some(apex) => write!(out, "record outside the zone {apex}"),
            None => out.push_str("record outside the zone"),
        },
        reason => push_other_reason(out, reason, token),
    }
}

/// Appends a reason that names the token or that breaks a rule of zones. Fails if out of memory.
fn push_other_reason(out: &mut String, reason: &Reason, token: &[u8]) -> Result<(), AllocError> {
    match reason {
        Reason::Include => out.push_str("$INCLUDE is not read: give the zone as one text"),
        Reason::Untyped => out.push_str("octets are no data of the record's type"),
        Reason::FirstNotSoa => out.push_str("the first record is not an SOA"),
        Reason::SecondSoa(line) => write!(out, "second SOA; the first is in line {line}"),
        Reason::Unspellable => out.push_str("the tag of a CAA record is empty"),
        Reason::NoSoa => out.push_str("the text has no record"),
        Reason::ClassAny => out.push_str("no zone has the class ANY"),
        Reason::UnknownDirective => push_about(out, "unknown directive ", token, ""),
        Reason::TtlUnits(seconds) => {
            push_about(out, "TTL units (", token, ") are not read: ")?;
            write!(out, "write {seconds}")
        }
        Reason::NearType(mnemonic) => {
            push_about(out, "unknown type ", token, "; did you mean ")?;
            write!(out, "{}?", DisplayType(*mnemonic))
        }
        Reason::Not(Wanted::Type) => match read_type(token) {
            Some(rtype) => push_general_form(out, rtype),
            None => push_about(out, "unknown type ", token, ""),
        },
        Reason::StatedTwice => push_about(out, "", token, " states a TTL or a class again"),
        Reason::OtherClass => push_about(out, "", token, " is not the zone's class"),
        Reason::Quoted => push_about(out, "", token, " is quoted: only strings are"),
        Reason::OtherCount => {
            push_about(out, "", token, " is not the number of octets that follow")
        }
        Reason::Not(wanted) => {
            push_about(out, "", token, " is not ")?;
            write!(out, "{wanted}")
        }
        _ => push_about(out, "", token, " is one token too many"),
    }
}

/// Appends that the type has no presentation form. Fails if out of memory.
fn push_general_form(out: &mut String, rtype: Rtype) -> Result<(), AllocError> {
    write!(
        out,
        "data of {} is read only as \\# LENGTH OCTETS in base 16",
        DisplayType(rtype)
    )
}

/// Appends the token in single quotes between two texts. Fails if out of memory.
fn push_about(
    out: &mut String,
    before: &str,
    token: &[u8],
    behind: &str,
) -> Result<(), AllocError> {
    out.push_str(before)?;
    out.push('\'')?;
    for &octet in token {
        out.push(shown_octet(octet))?;
    }
    out.push('\'')?;
    out.push_str(behind)
}

/// Appends what is wrong with an octet that begins no token. Fails if out of memory.
fn push_octet(out: &mut String, token: &[u8]) -> Result<(), AllocError> {
    match token.first() {
        Some(b'\\') => out.push_str("escape is not whole: write three digits from 000 to 255"),
        Some(&octet) => write!(out, "octet {octet} is not printable: write \\{octet:03}"),
        None => out.push_str("no token"),
    }
}
