//! Why a row of a zone's text is no entry (RFC 1035 5.1): which token is wrong, and the reason.
//!
//! `TokenRow::fault` reads a row from the left, token by token, up to the first that it cannot read; `broken_row_fault` says at
//! which octet a text is cut into no row. Neither decides whether a text is refused.
#![tactic(auto)]

mod broken_row;
mod fields;
mod further_row;
mod located;
mod outcome;
mod reason;
mod token_row;
mod words;

pub use broken_row::broken_row_fault;
pub use located::Located;
pub use reason::{Reason, Wanted};
pub use token_row::TokenRow;
