//! Headers, questions and records of messages: parsing and writing them (RFC 1035 4.1).
//!
//! A part of `dns_message`, which re-exports all of it.
#![tactic(auto)]

mod compose;
mod counts;
mod header;
pub mod laws;
mod opt;
mod parsed_record;
mod question;
mod record;
mod record_header;
mod section;

pub use compose::{ComposeRecord, compose_head};
pub use counts::{CountOverflow, HeaderCounts};
pub use header::{Flags, FlagsFromStrError, Header};
pub use opt::{Opt, OptHeader, OptIter, OptRecord};
pub use parsed_record::ParsedRecord;
pub use question::{ComposeQuestion, FromStrError, PresentationError, Question};
pub use record::{Record, RecordParseError};
pub use record_header::RecordHeader;
pub use section::HeaderSection;
