//! Steps from token to token of a row.
ghost use Rattle.std.specs.Prelude.{◌≡◌, ◌<◌, ◌≤◌, drop, length, slice_index, IfSome, IfNone};
ghost use Rattle.dns_text.specs.Tokens.Head.{Quote, Word};
ghost use Rattle.dns_text.specs.Tokens.{head_of as spec_head_of};
ghost use Rattle.dns_entry_scanner.specs.Step.{StepsTo};
ghost use Rattle.dns_entry_scanner.specs.TokenSpan.{NoNext};

use crate::TokenSpan;
use crate::head::{Head, head_of};
use crate::plain_octets::line_end;
use crate::token_end::token_end;

/// What comes next in a row, and where the text goes on.
#[derive(Clone, Copy)]
pub(crate) struct Step {
    /// The token. None if the row ends.
    pub(crate) found: Option<TokenSpan>,
    /// The place after it, or after the line feed.
    pub(crate) place: usize,
    /// Whether that place is inside parentheses.
    pub(crate) inside: bool,
}

/// Returns the next step of a row from a place inside or outside parentheses. Returns None if neither a token nor the
/// end of the row follows. It is called once per token, so it is inlined.
#[inline(always)]
pub(crate) fn next_step(text: &[u8], place: usize, inside: bool) -> Option<Step>
    requires { place ≤ length text.now }
    ensures found { IfSome result (λ step. StepsTo inside text.now place step) }
    ensures none { IfNone result (NoNext inside (drop place text.now)) }
{
    let mut at = place;
    let mut now_inside = inside;
    while at < text.len() {
        match head_of(now_inside, text[at]) {
            Head::Go(behind) => {
                now_inside = behind;
                at += 1;
            }
            Head::Comment => at = line_end(text, at + 1),
            Head::Feed => {
                return Some(Step {
                    found: None,
                    place: at + 1,
                    inside: false,
                });
            }
            Head::Quote => return step_over_quoted(text, at, now_inside),
            Head::Word => return step_over_word(text, at, now_inside),
            Head::Refused => return None,
        }
    }
    None
}

/// Returns the step over the quoted token at the place, or None if no quote closes it.
fn step_over_quoted(text: &[u8], place: usize, inside: bool) -> Option<Step>
    requires within { place < length text.now }
    requires quote { spec_head_of inside (slice_index text.now place) ≡ Quote }
    ensures found { IfSome result (λ step. StepsTo inside text.now place step) }
    ensures none { IfNone result (NoNext inside (drop place text.now)) }
{
    let start = place + 1;
    let end = token_end(text, start, true);
    let (&mark, _) = text[end.place..].split_first()?;
    if mark != b'"' {
        return None;
    }
    Some(Step {
        found: Some(TokenSpan {
            start,
            len: end.place - start,
            quoted: true,
            has_escape: end.has_escape,
        }),
        place: end.place + 1,
        inside,
    })
}

/// Returns the step over the unquoted token at the place, or None if there is no symbol.
#[inline(always)]
fn step_over_word(text: &[u8], place: usize, inside: bool) -> Option<Step>
    requires within { place < length text.now }
    requires word { spec_head_of inside (slice_index text.now place) ≡ Word }
    ensures found { IfSome result (λ step. StepsTo inside text.now place step) }
    ensures none { IfNone result (NoNext inside (drop place text.now)) }
{
    let end = token_end(text, place, false);
    if end.place == place {
        return None;
    }
    Some(Step {
        found: Some(TokenSpan {
            start: place,
            len: end.place - place,
            quoted: false,
            has_escape: end.has_escape,
        }),
        place: end.place,
        inside,
    })
}
