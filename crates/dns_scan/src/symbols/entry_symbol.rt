//! The symbols of an entry of several tokens.
use dns_name::Symbol;

/// A symbol of an entry, or the end of one of its tokens.
#[derive(Clone, Copy, Debug, PartialEq, Eq)]
pub enum EntrySymbol {
    /// A symbol of a token.
    Symbol(Symbol),
    /// The end of a token, which comes after its symbols.
    EndOfToken,
}
