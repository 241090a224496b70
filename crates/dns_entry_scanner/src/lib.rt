//! The tokens and rows of a zone file's text, and a scanner over the tokens of a row (RFC 1035 5.1).
//!
//! A part of `dns_zonefile`. A row is read in one pass. Its tokens are places in the text:
//!
//! ```text
//! name.example. 3600 IN TXT "a string" ( more ; a comment
//!     words )
//! ```
//!
//! Outside parentheses a line feed ends the row. Inside, it is white space, like a space, a tab and a carriage return.
//! The scanner completes relative names with an origin.
#![tactic(auto)]

mod appended_name;
mod appended_string;
mod dotted_name;
mod entry_error;
mod entry_scanner;
mod gap;
mod head;
mod inline_name;
mod line_mark;
mod plain_octets;
mod record_head;
mod relative_name;
mod row;
mod row_front;
mod row_reader;
mod row_scanner;
mod row_token;
mod scanned_name;
mod short_copy;
mod spelled_octets;
mod step;
mod text_name;
mod token_end;
mod token_span;
mod wire_scanner;

use arrayvec::ArrayVec;
use dns_name::{Chain, Name, RelativeName};
pub use entry_error::EntryError;
pub use entry_scanner::EntryScanner;
pub use inline_name::to_inline_name;
pub use line_mark::{LineMark, next_line};
pub use plain_octets::line_end;
pub use record_head::{RecordHead, scan_head, scan_stated};
pub use row::{RowFound, read_row};
pub use row_reader::{BrokenRow, RowReader};
pub use row_scanner::RowScanner;
pub use scanned_name::{absolute, scan_name};
pub use text_name::TextName;
pub use token_span::TokenSpan;
pub use wire_scanner::WireScanner;

/// A scanned name: its labels in the text, followed by the root or the origin.
pub type ScannedName = Chain<RelativeName<Vec<u8>>, Name<Vec<u8>>>;

/// A scanned name in an array, without an allocation: a name has at most 255 octets (RFC 1035 2.3.4).
pub type InlineName = Name<ArrayVec<u8, 255>>;

/// A scanned text.
pub type ScannedString = String;
