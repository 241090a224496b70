//! Laws of the definitions in the crate's contracts. A law is a function that does nothing. Its contract is the law.

mod printed;
mod text;
mod unknown;

pub use printed::{printed_text_is_the_zones, records_have_one_printed_text};
pub use text::{
    class_any_has_one_fault, one_zone_fault, text_has_one_reading, zone_text_breaks_no_rule,
    zone_text_or_fault,
};
pub use unknown::unknown_data_is_the_same;
