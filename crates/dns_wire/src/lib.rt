//! Names as octets and as text (RFC 1035, sections 3.1, 4.1.4 and 5.1): walking over them, skipping them, comparing
//! them label by label, and reading them from text.
//!
//! A part of `dns_name`, which re-exports its types. Its functions are for the crates of names, and it has no type of
//! name itself.
#![tactic(auto)]

pub mod compare;
pub mod copies;
mod label_iter;
mod push_error;
pub mod skip;
pub mod text;
pub mod walk;

pub use label_iter::{LabelIter, ToLabelIter};
pub use push_error::PushError;
pub use text::{FromStrError, PresentationError};
