//! Work on zones beside their transfers: what changed between two zones, a zone in canonical order (RFC 4034 6), the numbers
//! of a zone, and the query for a zone's transfer as TCP sends it.
#![tactic(auto)]

mod differences;
pub mod laws;
mod queries;
mod record_writer;
mod selection;
mod sorting;
mod statistics;

pub use differences::difference;
pub use queries::framed_query;
pub use selection::Selection;
pub use sorting::sorted;
pub use statistics::{Statistics, TypeCount, statistics_of, stream_len};
