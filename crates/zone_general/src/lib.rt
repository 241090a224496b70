//! Rows of a zone's text by the table that has the further types too: the type of a row, its data, its entry, and its general
//! row, in which the data is in the general form of RFC 3597. `general_rows` puts each row of any text in that form.
//!
//! A part of `zone_forms`. Its other functions are for that crate: a `FoundRow` is what `read_row` found in a text.
#![tactic(auto)]

mod data_text;
mod found_row;
mod general_form;
mod longer_reader;
mod readable;
mod rewriting;
mod row_data;
mod stated_type;

pub use found_row::FoundRow;
pub use longer_reader::LongerReader;
pub use readable::{general_rows, is_want_of_memory};
pub use rewriting::append_rewritten;
pub use row_data::{is_marked, scan_data};
pub use stated_type::{RowType, row_type};
