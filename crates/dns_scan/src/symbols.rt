//! The symbols of tokens, one after another (RFC 1035 5.1).

mod convert_symbols;
pub(crate) mod converting;
mod entry_symbol;
pub(crate) mod handing_over;

pub use convert_symbols::ConvertSymbols;
pub use entry_symbol::EntrySymbol;
