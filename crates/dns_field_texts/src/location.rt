//! Locations: the data of LOC records (RFC 1876).

mod numerals;
mod place;
mod scan;
mod show;

pub use place::is_location;
pub use scan::scan_location_into;
pub use show::show_location;
