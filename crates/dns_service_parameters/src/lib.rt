//! Service parameters, the last field of SVCB and HTTPS records: whether octets are some, how tokens are read as some, and how
//! they are printed (RFC 9460 2.1, 2.2).
//!
//! A part of `dns_rdata_more`.
#![tactic(auto)]

mod check;
mod form;
mod items;
mod keys;
pub mod laws;
mod scan;
mod show;
mod values;

pub use check::are_parameters;
pub use scan::scan_parameters_into;
pub use show::show_parameters;
