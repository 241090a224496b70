//! The stream of a zone's transfer (RFC 5936 2.2).
//!
//! Part of `zonewire`, which re-exports `send` and its types. Builds on `zone_core`, which defines which stream is a
//! transfer. `specs/` defines which messages are sent under each `Spelling`.
#![tactic(auto)]

pub mod laws;
mod sending;

pub use sending::{SendError, send};
pub use zone_core::Spelling;
