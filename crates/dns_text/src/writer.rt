//! Writes documents as text under a layout.
ghost use Rattle.std.specs.Prelude.{◌≡◌, ◌++◌, ◌∷◌, [], List, IfSome, OnOk};
ghost use Rattle.dns_text.specs.Document.{Piece, gap};
ghost use Rattle.dns_text.specs.Document.Piece.{Comment};
ghost use Rattle.dns_text.specs.Writing.{Adds};
ghost use Rattle.dns_text.specs.Layout.{layout_of};
ghost use Rattle.dns_text.specs.Written.{IsAt, IsWritten, ShowsMark};

use crate::formatter::Formatter;
use crate::layout::DisplayKind;
use std::fmt::{self, Write};

/// The start of a new line in a block.
const OWN_LINE: &str = "\n        ";

/// Writes a document as text under a layout.
#[derive(Drop)]
pub(crate) struct Writer<W> {
    target: W,
    kind: DisplayKind,
    /// The number of open blocks.
    depth: usize,
    /// Whether nothing is shown on the line yet.
    is_first: bool,
    /// Whether the open block has a token already.
    has_data: bool,
}

impl<W: fmt::Write> Writer<W> {
    /// Writes to the target, which is at the start of a line.
    pub(crate) fn new(target: W, kind: DisplayKind) -> Writer<W>
        ensures kind { result.kind ≡ kind }
        ensures target { result.target ≡ target }
        ensures at { IsAt result [] }
    {
        Writer {
            target,
            kind,
            depth: 0,
            is_first: true,
            has_data: false,
        }
    }

    /// Returns the target, once all is written.
    pub(crate) fn into_target(self) -> W
        ensures { result ≡ self.target }
    {
        self.target
    }

    /// Returns what separates a token from what is before it.
    fn gap(&self) -> &'static str
        ensures { (line : List Piece) → IsAt self.now line → result.now ≡ gap (layout_of self.now.kind) line }
    {
        if self.is_first {
            return "";
        }
        match self.kind {
            DisplayKind::Multiline if self.depth > 0 => OWN_LINE,
            DisplayKind::Tabbed if self.depth == 0 || !self.has_data => "\t",
            _ => " ",
        }
    }

    /// Shows a comment, under `Multiline` only.
    fn show_comment<T: fmt::Display>(&mut self, comment: &T) -> fmt::Result
        ensures { OnOk result (IfSome (T.output comment.now) (λ text.
            Adds (IsWritten W.write_str_gives) self.old (Comment text ∷ []) self.new)) }
    {
        if self.kind != DisplayKind::Multiline {
            return Ok(());
        }
        self.target.write_str("\t; ")?;
        self.target.write(comment)?;
        self.is_first = false;
        Ok(())
    }

    /// Shows a mark of a block after what separates it, under `Multiline` only.
    fn show_mark(&mut self, gap: &str, mark: &str) -> fmt::Result
        ensures { OnOk result (ShowsMark W.write_str_gives (gap.now ++ mark.now) self.old self.new) }
    {
        if self.kind != DisplayKind::Multiline {
            return Ok(());
        }
        self.target.write_str(gap)?;
        self.target.write_str(mark)?;
        self.is_first = false;
        Ok(())
    }
}

impl<W: fmt::Write> Formatter for Writer<W> {
    ghost writes = { IsWritten W.write_str_gives };

    fn write_token<T: fmt::Display + Drop>(&mut self, token: T) -> fmt::Result {
        let gap = self.gap();
        self.target.write_str(gap)?;
        self.target.write(token)?;
        self.is_first = false;
        self.has_data = true;
        Ok(())
    }

    fn write_comment<T: fmt::Display + Drop>(&mut self, comment: T) -> fmt::Result {
        self.show_comment(&comment)
    }

    fn newline(&mut self) -> fmt::Result {
        if self.depth > 0 {
            return Ok(());
        }
        self.target.write_str("\n")?;
        self.is_first = true;
        self.has_data = false;
        Ok(())
    }

    fn open_block(&mut self) -> fmt::Result {
        if self.depth > 0 {
            let Some(depth) = self.depth.checked_add(1) else {
                return Err(fmt::Error);
            };
            self.depth = depth;
            return Ok(());
        }
        let gap = self.gap();
        self.show_mark(gap, "(")?;
        self.depth = 1;
        self.has_data = false;
        Ok(())
    }

    fn close_block(&mut self) -> fmt::Result {
        if self.depth != 1 {
            self.depth = self.depth.saturating_sub(1);
            return Ok(());
        }
        self.show_mark(OWN_LINE, ")")?;
        self.depth = 0;
        Ok(())
    }
}
