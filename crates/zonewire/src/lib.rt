//! Zones, read from text, sent, received, printed and compared; and what the program `zonewire` does: its command line,
//! its input and its output.
//!
//! This crate re-exports what the crates below it are for: `zone` (zones and their text), `zone_core` (queries),
//! `zone_send` and `zone_receive` (the stream of a transfer), `zonewire_words` (the command line), and the types that
//! their signatures name. So a program that reads, sends or receives zones needs no other crate.
//!
//! ```
//! let zone = Zone::read(alloc, text, None, Class::IN)?;
//! let query = axfr_query(alloc, 4660, zone.class(), &zone.apex())?;
//! let stream = send(alloc, &zone, query.as_slice(), 16384, Spelling::Tree)?;
//!
//! let mut receiver = Receiver::new(alloc, query.as_slice())?;
//! receiver.feed(stream.as_slice())?;
//! let again = receiver.into_zone()?;
//! ```
//!
//! Programs of a page each show more: `example_round_trip` sends a zone, receives it and prints it; `example_receive` makes a
//! query and takes the stream in pieces; `example_compare` compares two zones.
#![tactic(auto)]

mod fault;
pub mod laws;
mod programs;
mod runs;
mod sink;
mod source;
mod step_sink;
mod step_source;

pub use dns_name::{Class, Name, ParsedName, Rtype, Ttl};
pub use dns_rdata::ZoneRecordData;
pub use dns_text::DisplayKind;
pub use fault::Fault;
pub use programs::{Ending, program};
pub use runs::run;
pub use sink::{Sink, SinkError, StdSink};
pub use source::{Source, SourceError, StdSource};
pub use step_sink::StepSink;
pub use step_source::StepSource;
pub use zone::{Zone, ZoneError, ZoneRecord, ZoneRecords};
pub use zone_core::{Query, QueryError, axfr_query, check_query};
pub use zone_receive::{ReceiveError, Receiver};
pub use zone_send::{SendError, Spelling, send};
pub use zonewire_words::{Job, WordsFault, job};
