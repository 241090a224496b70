//! Calls of `dns_rdata_more`, data of the further types.
//!
//! Data is given by its type and its octets, or by a row of a zone file, which the octets of an origin may follow.
mod data;
mod text;
mod types;

pub use types::answer;
