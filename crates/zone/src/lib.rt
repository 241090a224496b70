//! Zones: records read from the text of a zone file and printed as text (RFC 1035 5), and compared by canonical octets
//! (RFC 4034 6). In definitions, which text is a zone's, and the first rule that another text breaks; laws of both.
//!
//! A part of `zonewire`, which re-exports its types. The functions of `zone` are for `zone_send`, which sends the
//! records of a zone, for `zone_receive`, which makes a zone of those that it received, and for a program that prints
//! or checks records one by one.
#![tactic(auto)]

mod keep;
pub mod laws;
mod line;
mod print;
mod read;
mod records;
pub mod zone;
mod zone_error;

pub use print::print_record;
pub use read::{check_record, zonefile_of};
pub use records::{ZoneRecord, ZoneRecords};
pub use zone::Zone;
pub use zone_error::ZoneError;
