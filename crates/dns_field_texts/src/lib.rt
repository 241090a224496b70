//! The texts of fields of further types: words for types, for algorithms and for types of certificates, times, bitmaps of types,
//! salts and hashes, hardware addresses, locations, and data in base 64 (RFC 4034, 4398, 5155, 7043, 1876, 4648).
//!
//! A part of `dns_rdata_more`.
#![tactic(auto)]

mod append;
mod base64;
mod bitmap;
mod digits;
mod frequent_types;
mod hardware;
mod hash_words;
pub mod laws;
mod location;
mod numbered_words;
mod text;
mod time;
mod type_words;

pub use append::{WordError, append_octets};
pub use base64::scan_base64_into;
pub use bitmap::{
    RtypeBitmap, RtypeBitmapError, RtypeBitmapIter, append_types, is_type_bitmap, scan_types_into,
    show_types,
};
pub use frequent_types::frequent_type;
pub use hardware::{DisplayHardware, append_hardware};
pub use hash_words::{DisplaySalt, append_hash, append_salt};
pub use location::{is_location, scan_location_into, show_location};
pub use numbered_words::{read_algorithm, read_certificate_type};
pub use text::split_first;
pub use time::{DisplayTime, read_time};
pub use type_words::{DisplayType, read_type};
