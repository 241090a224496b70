//! A scanner over the tokens of a row.
ghost use Rattle.std.specs.Prelude.{◌≡◌, ◌≤◌, ◌∷◌, ℕ, Bool, true, List, [], All, drop, length, map, option_copied, IfOk, IfErr, IfSome, IfNone, OnErr};
ghost use Rattle.dns_entry_scanner.specs.Gap.{end_in, gap_before};
ghost use Rattle.dns_entry_scanner.specs.RowToken.{token_of};
ghost use Rattle.dns_entry_scanner.specs.declared.entry_error.EntryError.TheVariants.{EndOfEntry};
ghost use Rattle.dns_scan.specs.Token.{SameNames};
ghost use Rattle.dns_entry_scanner.specs.RowFound.{IsRowAt};
ghost use Rattle.dns_entry_scanner.specs.TokenSpan.{IsPlainUnmarked, token_in};
ghost use Rattle.dns_entry_scanner.specs.declared.token_span.TokenSpan.{TokenSpan};

mod appended;
mod scans;

use crate::row_token::RowToken;
use crate::{EntryError, EntryScanner, ScannedName, TextName, TokenSpan};
use dns_name::Name;
use std::alloc::Global;
use std::marker::PhantomData;

/// A scanner over the tokens of a zone file's row (RFC 1035 5.1). It returns names of the type `N`. Relative names are
/// completed with an origin, if one is known.
#[derive(Debug, Drop)]
pub struct RowScanner<'t, N = ScannedName> {
    alloc: Global,
    text: &'t [u8],
    /// The place at which the row begins.
    place: usize,
    /// The places of the row's tokens.
    spans: &'t [TokenSpan],
    /// The number of tokens that were taken.
    taken: usize,
    origin: Option<&'t Name<Vec<u8>>>,
    /// Whether the spans are of a row that was found in the text, so that they say which tokens have a backslash.
    is_row: bool,
    names: PhantomData<N>,
    ghost marked: { is_row ≡ true → All (IsPlainUnmarked text.now) spans.now },
    ghost within: { taken ≤ length spans.now },
}

impl<'t, N> RowScanner<'t, N> {
    ghost use Rattle.dns_entry_scanner.specs.RowScanner.{gap_of, names_of, origin_of, place_of, tokens_of};

    /// Returns a scanner over the tokens of the spans in the text. The row begins at the place. Scanned values are
    /// allocated with `alloc`.
    ///
    /// `read_row` finds the spans of a row. If a span goes beyond the end of the text, its token ends there.
    pub fn new(
        alloc: Global,
        text: &'t [u8],
        place: usize,
        spans: &'t [TokenSpan],
        origin: Option<&'t Name<Vec<u8>>>,
    ) -> Self
        ensures tokens { tokens_of result ≡ map (λ span. token_in text.now span) spans.now }
        ensures origin { origin_of result ≡ option_copied origin.entry }
        ensures gap { gap_of result ≡ gap_before text.now place spans.now }
    {
        RowScanner::over(alloc, text, place, spans, origin, false)
    }

    /// Returns a scanner over the tokens of the row that `read_row` found in the text at the place. It does not search
    /// the tokens for backslashes again.
    pub fn of_row(
        alloc: Global,
        text: &'t [u8],
        place: usize,
        spans: &'t [TokenSpan],
        origin: Option<&'t Name<Vec<u8>>>,
    ) -> Self
        requires { (next : ℕ) × (blank_led : Bool) × IsRowAt text.now place spans.now next blank_led }
        ensures tokens { tokens_of result ≡ map (λ span. token_in text.now span) spans.now }
        ensures origin { origin_of result ≡ option_copied origin.entry }
        ensures gap { gap_of result ≡ gap_before text.now place spans.now }
    {
        RowScanner::over(alloc, text, place, spans, origin, true)
    }

    /// Returns a scanner over the tokens of the spans. They are those of a row in the text, or any.
    fn over(
        alloc: Global,
        text: &'t [u8],
        place: usize,
        spans: &'t [TokenSpan],
        origin: Option<&'t Name<Vec<u8>>>,
        is_row: bool,
    ) -> Self
        requires { is_row ≡ true → All (IsPlainUnmarked text.now) spans.now }
        ensures tokens { tokens_of result ≡ map (λ span. token_in text.now span) spans.now }
        ensures origin { origin_of result ≡ option_copied origin.entry }
        ensures gap { gap_of result ≡ gap_before text.now place spans.now }
    {
        RowScanner {
            alloc,
            text,
            place,
            spans,
            taken: 0,
            origin,
            is_row,
            names: PhantomData,
        }
    }

    /// Returns the next token without taking it.
    #[inline(always)]
    fn peek(&self) -> Option<RowToken<'t>>
        ensures some { IfSome result (λ token. tokens_of self.now ≡ token_of token ∷ drop 1 (tokens_of self.now)) }
        ensures none { IfNone result (tokens_of self.now ≡ []) }
    {
        let span = self.spans.get(self.taken)?;
        Some(RowToken {
            text: span.text(self.text),
            from: &self.text[span.start().min(self.text.len())..],
            quoted: span.is_quoted(),
            bare: self.is_row && !span.has_escape(),
        })
    }

    /// Takes the next token. Fails with `EndOfEntry` if there is none.
    fn take_token(&mut self) -> Result<RowToken<'t>, EntryError>
        ensures ok { IfOk result (λ token. tokens_of self.old ≡ token_of token ∷ tokens_of self.new) }
        ensures err { OnErr result ((tokens_of self.old ≡ []) × (tokens_of self.new ≡ [])) }
        ensures end { IfErr result (λ error. error ≡ EndOfEntry) }
        ensures names { SameNames (names_of self.old) (names_of self.new) }
        ensures gap { (span : TokenSpan) (spans : List TokenSpan) → drop self.old.taken self.old.spans.now ≡ span ∷ spans
            → gap_of self.new ≡ gap_before self.old.text.now (end_in self.old.text.now span) spans }
    {
        let Some(token) = self.peek() else {
            return Err(EntryError::EndOfEntry);
        };
        self.taken += 1;
        Ok(token)
    }

    /// Returns the octets between what was taken so far and the next token.
    fn gap(&self) -> &'t [u8]
        ensures { result.now ≡ gap_of self.now }
    {
        let Some(next) = self.spans.get(self.taken) else {
            return &[];
        };
        let end = next.start().saturating_sub(usize::from(next.is_quoted()));
        let before = &self.text[..end.min(self.text.len())];
        &before[self.taken_end().min(before.len())..]
    }

    /// Returns the place after the last token that was taken and its closing quote, or the start of the row.
    fn taken_end(&self) -> usize
        ensures { result ≡ place_of self.now }
    {
        let Some((last, _)) = self.spans[..self.taken].split_last() else {
            return self.place;
        };
        last.start().min(self.text.len())
            + last.text(self.text).len()
            + usize::from(last.is_quoted())
    }
}

impl<'t, N: TextName> EntryScanner for RowScanner<'t, N> {
    fn next_is_quoted(&self) -> bool {
        match self.peek() {
            Some(token) => token.quoted,
            None => false,
        }
    }
}
