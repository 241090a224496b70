//! Data of a record, scanned from the tokens of an entry directly into octets (RFC 1035 5.1 and 3.2.1).
//!
//! A part of `dns_zonefile`. Each field is scanned and its octets are appended at once, so the data is never built as a
//! value.
#![tactic(auto)]

mod colon_hex;
mod field;
mod hex;
mod hex_piece;
mod row;
mod typed;
mod unknown;

pub use field::ScanFieldInto;
pub use row::ScanRowInto;
pub use typed::scan_row_into;
pub use unknown::scan_unknown_octets_into;
