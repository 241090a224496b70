//! Octets: the types that hold them, the parser that reads them, and the targets that they are
//! appended to.
//!
//! A part of `dns_name`, which re-exports all of it.
#![tactic(auto)]

mod builder;
mod compose;
mod error;
pub mod laws;
mod numbers;
mod octets;
mod parse;
mod parser;

pub use builder::{
    EmptyBuilder, FreezeBuilder, FromBuilder, OctetsBuilder, OctetsFrom, Remembers, Truncate,
    WriteOctets,
};
pub use compose::Compose;
pub use error::{AppendError, FormError, ParseError, ShortInput};
pub use numbers::{number_at, put_number};
pub use octets::Octets;
pub use parse::Parse;
pub use parser::Parser;
