//! Layouts of documents.

/// How a document is laid out.
#[derive(Clone, Copy, Debug, PartialEq, Eq)]
pub enum DisplayKind {
    /// One space between any two tokens.
    Simple,
    /// A tab between any two tokens, but one space between those of a block.
    Tabbed,
    /// Each token of a block on a line of its own, and the block in parentheses. Comments are shown.
    Multiline,
}
