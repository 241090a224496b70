//! A zone from the stream of its transfer (RFC 5936 2.2).
//!
//! Part of `zonewire`, which re-exports `Receiver` and its error. Builds on `zone_core`, which defines which stream is
//! a transfer. `specs/` defines which rule another stream breaks first, and how far a receiver has come in a stream.
#![tactic(auto)]

mod error;
mod frame_buffer;
pub mod laws;
mod message;
mod open_frame;
mod owned_query;
mod question;
mod receiver;
mod record;
mod rules;

pub use error::ReceiveError;
pub use receiver::Receiver;
