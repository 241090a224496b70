//! Queries for the transfer of a zone, the spellings of names in messages, and laws of transfers (RFC 5936).
//!
//! Part of `zonewire`, which re-exports `check_query`, `axfr_query` and their types, and `Spelling`. `zone_send` and
//! `zone_receive` build on it: `specs/` defines what a query asks, which stream is a zone's transfer, and how records
//! are cut into messages. The functions of the other modules are for these two crates.
#![tactic(auto)]

pub mod frames;
pub mod laws;
mod query;
mod query_error;
pub mod question;
mod spelling;

pub use query::{Query, axfr_query, check_query};
pub use query_error::QueryError;
pub use spelling::Spelling;
