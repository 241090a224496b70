//! A reader of the tokens of rows.
ghost use Rattle.std.specs.Prelude.{◌≤◌, ◌≡◌, false, length, drop, IfSome, IfOk, OnErr, option_map};

use crate::TokenSpan;
use crate::step::next_step;
use thiserror::Error;

/// Neither a token nor the end of the row follows.
#[derive(Clone, Copy, Debug, PartialEq, Eq, Error)]
#[error("broken row")]
pub struct BrokenRow;

/// A reader of the tokens of rows, at a place in a text, inside or outside parentheses.
#[derive(Clone, Copy, Debug)]
pub struct RowReader<'t> {
    text: &'t [u8],
    place: usize,
    inside: bool,
    ghost within: { place ≤ length text.now },
}

impl<'t> RowReader<'t> {
    ghost use Rattle.dns_text.specs.Tokens.{Next};
    ghost use Rattle.dns_entry_scanner.specs.RowReader.{is_inside, left_of, text_of};
    ghost use Rattle.dns_entry_scanner.specs.TokenSpan.{IsMarked, NoNext, token_in};

    /// Returns a reader at the place, outside parentheses. A place after the end of the text counts as the end.
    pub fn new(text: &'t [u8], place: usize) -> Self
        ensures text { text_of result ≡ text.now }
        ensures left { left_of result ≡ drop place text.now }
        ensures outside { is_inside result ≡ false }
    {
        RowReader {
            text,
            place: place.min(text.len()),
            inside: false,
        }
    }

    /// Returns the place after all that was read.
    pub fn place(&self) -> usize
        ensures left { drop result (text_of self.now) ≡ left_of self.now }
        ensures within { result ≤ length (text_of self.now) }
    {
        self.place
    }

    /// Reads the next token of the row (RFC 1035 5.1). Returns None after the line feed that ends the row.
    ///
    /// Fails if neither follows: at the end of the text, at a misplaced parenthesis, at an octet that begins no symbol,
    /// and at a quote that is never closed. The reader then stays where it is.
    pub fn next_token(&mut self) -> Result<Option<TokenSpan>, BrokenRow>
        ensures found { IfOk result (λ found. Next (is_inside self.old) (left_of self.old) (option_map (λ span. token_in (text_of self.old) span) found) (is_inside self.new) (left_of self.new)) }
        ensures escapes { IfOk result (λ found. IfSome found (λ span. IsMarked (text_of self.old) span)) }
        ensures text { text_of self.new ≡ text_of self.old }
        ensures broken { OnErr result (NoNext (is_inside self.old) (left_of self.old)) }
        ensures stays { OnErr result (self.new ≡ self.old) }
    {
        let step = next_step(self.text, self.place, self.inside).ok_or(BrokenRow)?;
        self.place = step.place;
        self.inside = step.inside;
        Ok(step.found)
    }
}
