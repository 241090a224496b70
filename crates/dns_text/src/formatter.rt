//! Targets of documents, which are written piece by piece.
ghost use Rattle.std.specs.Prelude.{[], ◌∷◌, ◌++◌, List, IfSome, OnOk};
ghost use Rattle.dns_text.specs.Document.{Piece};
ghost use Rattle.dns_text.specs.Document.Piece.{Token, Comment, Open, Close, Newline};
ghost use Rattle.dns_text.specs.Writing.{Adds, Fills};

use std::fmt;

/// Takes the pieces of a document, one after another.
///
/// `writes` says which pieces took a formatter from one state to another, the last piece first.
pub trait Formatter {
    ghost writes: { Self → List Piece → Self → Type 0 };

    /// Writes a token: the text that the value displays.
    fn write_token<T: fmt::Display + Drop>(&mut self, token: T) -> fmt::Result
        ensures { OnOk result (IfSome (T.output token) (λ text. Adds writes self.old (Token text ∷ []) self.new)) };

    /// Writes a comment, which is shown under `Multiline` only.
    fn write_comment<T: fmt::Display + Drop>(&mut self, comment: T) -> fmt::Result
        ensures { OnOk result (IfSome (T.output comment) (λ text. Adds writes self.old (Comment text ∷ []) self.new)) };

    /// Ends the line outside of blocks, and does nothing inside.
    fn newline(&mut self) -> fmt::Result
        ensures { OnOk result (Adds writes self.old (Newline ∷ []) self.new) };

    /// Writes the opening mark of a block. Call `block`, which writes both marks.
    fn open_block(&mut self) -> fmt::Result
        ensures { OnOk result (Adds writes self.old (Open ∷ []) self.new) };

    /// Writes the closing mark of a block. Call `block`, which writes both marks.
    fn close_block(&mut self) -> fmt::Result
        ensures { OnOk result (Adds writes self.old (Close ∷ []) self.new) };

    /// Writes what the closure writes as a block: its tokens are data. A block inside a block adds nothing.
    final fn block<F: FnOnce(&mut Self) -> fmt::Result>(&mut self, fill: F) -> fmt::Result
    where
        Self: Sized,
        requires { F.IsAlwaysCallable fill }
        ensures { (pieces : List Piece) → Fills writes F.FnOnce fill pieces →
            OnOk result (Adds writes self.old (Open ∷ pieces ++ Close ∷ []) self.new) }
    {
        self.open_block()?;
        fill(self)?;
        self.close_block()
    }
}
