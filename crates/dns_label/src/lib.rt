//! Labels of domain names, and the symbols that text writes their octets in.
//!
//! A part of `dns_name`, which re-exports all of it. Its `specs/` say what a name is, which name a message spells at a
//! place, and which name a text spells.
#![tactic(auto)]

mod label;
mod octet_run;
mod symbol;
mod symbols;

pub use label::{
    Label, LabelFromStrError, LabelMut, LabelTypeError, LongLabelError, OwnedLabel, OwnedLabelMut,
    PlainLabelOctets, SliceLabelsIter, SplitLabelError,
};
pub use octet_run::{OctetKind, run_end};
pub use symbol::{BadSymbol, Symbol, SymbolCharsError};
pub use symbols::Symbols;
