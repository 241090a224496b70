//! Rows of tokens.
ghost use Rattle.std.specs.Prelude.{◌≡◌, List, drop, IfOk};
ghost use Rattle.dns_text.specs.Rows.{is_led};
ghost use Rattle.dns_text.specs.Tokens.{is_end};
ghost use Rattle.dns_entry_scanner.specs.RowFound.{IsFoundAt, IsRowAt, NoRow};
ghost use Rattle.dns_entry_scanner.specs.declared.token_span.TokenSpan.{TokenSpan};

use crate::TokenSpan;
use crate::plain_octets::line_end;
use crate::row_front::read_front;
use crate::step::next_step;
use std::alloc::AllocError;

/// What is at a place of a text.
#[derive(Clone, Copy, Debug)]
pub enum RowFound {
    /// A row.
    Row {
        /// The place after its line feed.
        next: usize,
        /// Whether it begins with white space. Such a row has the owner of the record before it.
        blank_led: bool,
    },
    /// The end of the text, perhaps after white space and a comment.
    End,
    /// Neither. Nothing after the place is read.
    Broken,
}

/// Reads the row at the place (RFC 1035 5.1). Its tokens, perhaps none, replace those in `tokens`.
///
/// If there is no row at the place, the contents of `tokens` are unspecified. Fails if out of memory.
pub fn read_row(
    text: &[u8],
    place: usize,
    tokens: &mut Vec<TokenSpan>,
) -> Result<RowFound, AllocError>
    ensures { IfOk result (λ found. IsFoundAt text.now place tokens.new.items found) }
{
    tokens.clear();
    let front = read_front(text, place.min(text.len()), tokens)?;
    if front.is_whole {
        return Ok(row_before(text, place, front.place));
    }
    let mut at = front.place;
    let mut inside = front.inside;
    loop {
        let Some(step) = next_step(text, at, inside) else {
            return Ok(end_or_broken(text, place));
        };
        let Some(token) = step.found else {
            return Ok(row_before(text, place, step.place));
        };
        tokens.push(token.by_fields())?;
        at = step.place;
        inside = step.inside;
    }
}

/// Returns the row at a place. The next one begins at the other place.
fn row_before(text: &[u8], place: usize, next: usize) -> RowFound
    ensures { (spans : List TokenSpan) → IsRowAt text.now place spans next (is_led (drop place text.now)) → IsFoundAt text.now place spans result }
{
    RowFound::Row {
        next,
        blank_led: is_led_at(text, place),
    }
}

/// Returns what is at a place without a row.
fn end_or_broken(text: &[u8], place: usize) -> RowFound
    requires { NoRow (drop place text.now) }
    ensures { (spans : List TokenSpan) → IsFoundAt text.now place spans result }
{
    if is_end_at(text, place) {
        RowFound::End
    } else {
        RowFound::Broken
    }
}

/// Returns whether there is white space at the place.
fn is_led_at(text: &[u8], place: usize) -> bool
    ensures { result ≡ is_led (drop place text.now) }
{
    place < text.len() && matches!(text[place], b' ' | b'\t' | b'\r')
}

/// Returns whether the text ends at the place, perhaps after white space and a comment.
fn is_end_at(text: &[u8], place: usize) -> bool
    ensures { result ≡ is_end (drop place text.now) }
{
    let mut at = place;
    while at < text.len() {
        match text[at] {
            b' ' | b'\t' | b'\r' => at += 1,
            b';' => at = line_end(text, at + 1),
            _ => return false,
        }
    }
    true
}
