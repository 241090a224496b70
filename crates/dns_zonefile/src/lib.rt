//! Zone files: the entries of a text, one after another (RFC 1035 5.1).
//!
//! A `Zonefile` takes a text and returns its records and the files that it includes. Directives change what the rows
//! after them mean. `scan_statement` reads what a single row says, and an `EntryReader` the entries of rows that its caller
//! finds.
//!
//! The crate re-exports its part `dns_entry_scanner`: the tokens and rows of a text, and the scanner over a row.
//!
//! ```
//! let mut zonefile = Zonefile::new(alloc);
//! zonefile.extend_from_slice(text)?;
//! while let Some(entry) = zonefile.next_entry()? {
//!     show(&entry)?;
//! }
//! ```
//!
//! The program of a page `example_entries` shows each entry, or the line and the reason of an error.
#![tactic(auto)]

mod context;
mod data;
mod entry;
mod entry_form;
mod entry_reader;
mod error;
mod last_owner;
pub mod laws;
mod statement;
mod zonefile;

pub use dns_entry_scanner::{
    BrokenRow, EntryError, EntryScanner, InlineName, LineMark, RowFound, RowReader, RowScanner,
    ScannedName, ScannedString, TextName, TokenSpan, WireScanner, absolute, line_end, next_line,
    read_row, scan_name, to_inline_name,
};
pub use dns_scan_data::scan_unknown_octets_into;
pub use entry::{ComposedEntry, Entry, IncludedFile, ScannedRecord, ScannedRecordData};
pub use entry_reader::EntryReader;
pub use error::Error;
pub use statement::{Stated, Statement, scan_statement};
pub use zonefile::Zonefile;
