//! The spellings of names.

/// How the names in messages are written (RFC 1035 4.1.4).
#[derive(Clone, Copy, Debug, PartialEq, Eq)]
pub enum Spelling {
    /// Every name is written out.
    Plain,
    /// A suffix that occurred before is a pointer to it, up to ASCII case. At most 24 suffixes of a message are
    /// remembered.
    Static,
    /// A suffix that occurred before is a pointer to it, octet for octet.
    Tree,
    /// A suffix that occurred before is a pointer to it, up to ASCII case.
    Hash,
}
