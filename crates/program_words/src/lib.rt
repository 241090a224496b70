//! The words of a program's command line, as text.
#![tactic(auto)]

mod usage_error;
mod words;

pub use usage_error::UsageError;
pub use words::words_after_path;
