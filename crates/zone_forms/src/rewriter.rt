//! Texts of zones that come in pieces, in another form.
ghost use Rattle.std.specs.Prelude.{◌≡◌, ◌^◌, ◌<◌, ◌≤◌, ◌++◌, [], List, ℕ, Some, Err, drop, length, option_copied, vec_len, IfErr, IfOk, IfSome, OnOk};
ghost use Rattle.dns_zonefile.specs.Entry.{Context, at_start};
ghost use Rattle.zone_forms.specs.Pieces.{GoesOn, HasRewritten, HasTaken, IsInForm, Refuses, failed_in, waiting_in};
ghost use Rattle.zone_forms.specs.Refused.{FailsInLine};
ghost use Rattle.zone_forms.specs.declared.error.FormError.TheVariants.{Line};

use crate::FormError;
use crate::presenting::Presenter;
use crate::rows::{append_rows, feeds_at};
use crate::text_form::{GeneralForm, TextForm};
use dns_name::{Class, Name};
use dns_text::DisplayKind;
use dns_zonefile::{RowFound, TokenSpan, read_row};
use std::alloc::{AllocError, Global};
use zone_general::LongerReader;

/// A form of the data of further types in a text.
#[derive(Clone, Copy, Debug)]
pub enum Form {
    /// The general form of RFC 3597 5, as `general` writes it.
    General,
    /// The presentation form, laid out as the kind says, as `present` writes it.
    Presentation(DisplayKind),
}

/// Puts a text that comes in pieces of any size in a form, row by row, as `general` and `present` put a whole one.
///
/// It holds the octets after the last row that is whole, and nothing else of the text.
///
/// ```
/// let mut rewriter = Rewriter::new(alloc, Form::General, origin, Class::IN)?;
/// while let Some(piece) = next_piece()? {
///     rewriter.feed(piece, &mut out)?;
/// }
/// rewriter.finish(&mut out)?;
/// ```
#[derive(Drop)]
pub struct Rewriter {
    alloc: Global,
    form: Form,
    reader: LongerReader,
    /// What has come after the last row that is whole.
    pending: Vec<u8>,
    /// The number of line feeds before that.
    feeds: usize,
    /// The tokens of a row. Kept from row to row only to reuse the memory.
    spans: Vec<TokenSpan>,
    /// The error after which no more is taken.
    failed: Option<FormError>,
}

impl Rewriter {
    ghost use Rattle.zone_forms.specs.declared.rewriter.Form.{Form};

    /// Returns a rewriter at the start of a text. The entries are those of a file of the class; names are relative to the
    /// origin, if there is one. Fails if out of memory.
    pub fn new(
        alloc: Global,
        form: Form,
        origin: Option<&Name<&[u8]>>,
        class: Class,
    ) -> Result<Rewriter, AllocError>
        ensures { IfOk result (λ rewriter. HasRewritten form (at_start (option_copied origin.entry) (Some class)) [] [] rewriter) }
    {
        Ok(Rewriter {
            alloc,
            form,
            reader: LongerReader::new(alloc, origin, class)?,
            pending: Vec::new(alloc),
            feeds: 0,
            spans: Vec::new(alloc),
            failed: None,
        })
    }

    /// Returns the number of octets that wait for the rest of their row.
    ///
    /// Each call of `feed` reads them again. A row of any length takes linear time if a piece is no shorter than what waits.
    pub fn pending(&self) -> usize
        ensures { result ≡ length (waiting_in self.now) }
    {
        self.pending.len()
    }

    /// Takes the next piece of the text, and appends the rows that are whole with it, in the form.
    ///
    /// Fails with `Line` exactly if one of these rows is no entry, whatever comes after the piece, and with `OutOfMemory` if
    /// out of memory. Every later call then fails with the same error. What a call that fails has appended is unspecified.
    pub fn feed(&mut self, piece: &[u8], out: &mut Vec<u8>) -> Result<(), FormError>
        ensures ok { OnOk result ((form : Form) → GoesOn (HasRewritten form) self.old piece.now self.new out.old.items out.new.items) }
        ensures err { IfErr result (λ error. (line : ℕ) → error ≡ Line line → (form : Form) → Refuses (HasRewritten form) self.old piece.now line) }

        // An error is kept.
        ensures fails { IfErr result (λ error. failed_in self.new ≡ Some error) }
        ensures failed { IfSome (failed_in self.old) (λ error. result ≡ Err error) }
    {
        if let Some(error) = self.failed {
            return Err(error);
        }
        match self.take(piece, out) {
            Ok(()) => Ok(()),
            Err(error) => {
                self.failed = Some(error);
                Err(error)
            }
        }
    }

    /// Takes the end of the text, and appends what is after the last row.
    ///
    /// Fails with `Line` exactly if that is not white space and perhaps a comment, with `OutOfMemory` if out of memory, and
    /// with the error of a call of `feed` that failed.
    pub fn finish(self, out: &mut Vec<u8>) -> Result<(), FormError>
        ensures ok { OnOk result ((others : List ℕ) × (out.new.items ≡ out.old.items ++ others) × ((form : Form) (start : Context) (text gone : List ℕ)
            → HasRewritten form start text gone self → IsInForm form start text (gone ++ others))) }
        ensures err { IfErr result (λ error. (line : ℕ) → error ≡ Line line → (form : Form) (start : Context) (text gone : List ℕ)
            → HasRewritten form start text gone self → length text < 2 ^ 64 → FailsInLine start text line) }
        ensures failed { IfSome (failed_in self) (λ error. result ≡ Err error) }
    {
        if let Some(error) = self.failed {
            return Err(error);
        }
        let mut spans = Vec::new(self.alloc);
        match read_row(&self.pending, 0, &mut spans)? {
            RowFound::End => Ok(out.extend_from_slice(&self.pending)?),
            _ => Err(FormError::Line(self.feeds.saturating_add(1))),
        }
    }

    /// Takes the piece, and appends the rows that are whole with it, in the form. The rewriter has not failed.
    fn take(&mut self, piece: &[u8], out: &mut Vec<u8>) -> Result<(), FormError>
        ensures ok { OnOk result ((form : Form) → GoesOn (HasRewritten form) self.old piece.now self.new out.old.items out.new.items) }
        ensures err { IfErr result (λ error. (line : ℕ) → error ≡ Line line → (form : Form) → Refuses (HasRewritten form) self.old piece.now line) }
        ensures failed { failed_in self.new ≡ failed_in self.old }
    {
        match self.form {
            Form::General => self.take_in(&mut GeneralForm, piece, out),
            Form::Presentation(kind) => {
                self.take_in(&mut Presenter::new(self.alloc, kind), piece, out)
            }
        }
    }

    /// Takes the piece, and appends the rows that are whole with it, in this form.
    fn take_in<F: TextForm>(
        &mut self,
        form: &mut F,
        piece: &[u8],
        out: &mut Vec<u8>,
    ) -> Result<(), FormError>
        ensures ok { OnOk result (GoesOn (HasTaken (F.goes (F.layout form.old))) self.old piece.now self.new out.old.items out.new.items) }
        ensures err { IfErr result (λ error. (line : ℕ) → error ≡ Line line
            → Refuses (HasTaken (F.goes (F.layout form.old))) self.old piece.now line) }
        ensures form { self.new.form ≡ self.old.form }
        ensures failed { failed_in self.new ≡ failed_in self.old }
    {
        self.pending.extend_from_slice(piece)?;
        let text = self.pending.as_slice();
        let end = append_rows(
            form,
            &mut self.reader,
            text,
            self.feeds,
            &mut self.spans,
            out,
        )?;
        self.feeds = feeds_at(self.feeds, text, end.place);
        remove_front(&mut self.pending, end.place);
        Ok(())
    }
}

/// Removes the first octets, of this count.
fn remove_front(octets: &mut Vec<u8>, count: usize)
    requires { count ≤ vec_len octets.old }
    ensures { octets.new.items ≡ drop count octets.old.items }
{
    let len = octets.len();
    octets.as_mut_slice().copy_within(count..len, 0);
    octets.truncate(len - count);
}
