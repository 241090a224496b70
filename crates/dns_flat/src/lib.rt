//! Flat names: absolute, relative, chains of them, and names while they are built (RFC 1035 3.1, 5.1).
//!
//! `dns_name` re-exports the types of this crate.
#![tactic(auto)]

mod builder;
mod chain;
mod name;
mod name_iter;
mod print;
mod relative;
mod reverse;
mod root;
mod text;
mod to_name;
mod to_relative_name;
pub mod wire_form;

pub use builder::{NameBuilder, PushNameError};
pub use chain::{Chain, LongChainError};
pub use name::{Name, NameError, SuffixIter, first_name};
pub use name_iter::NameIter;
pub use print::DisplayWithDot;
pub use relative::{RelativeName, RelativeNameError, StripSuffixError};
pub use text::{RelativeFromStrError, SpelledName};
pub use to_name::ToName;
pub use to_relative_name::ToRelativeName;
