//! Laws of what targets write: reading returns the names and data as they were written, in each spelling; how many octets
//! names take with pointers; and that no spelling takes less (RFC 1035 4.1.4).
//!
//! A part of `dns_message`.
#![tactic(auto)]

pub mod laws;
