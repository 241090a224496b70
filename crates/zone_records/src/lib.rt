//! The records of a zone in wire format, every name in full, one after another (RFC 1035 3.2.1).
//!
//! A part of `zonewire`. Its `specs/` say which records are a zone. Its functions are for the crates of `zonewire` that
//! read, print, compare, send and receive records.
#![tactic(auto)]

pub mod checks;
pub mod octets;
pub mod record;
pub mod record_data;
pub mod record_list;
pub mod typed;
