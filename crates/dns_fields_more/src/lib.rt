//! Fields of further types of record data, as octets and as text (RFC 4034, 5155, 9460, 1876, 7043): which fields each type
//! has, and how a row of them is parsed, scanned, printed and put in canonical form.
//!
//! A part of `dns_rdata_more`. `zonewire` takes data of these types as unknown data (RFC 3597).
#![tactic(auto)]

mod canonical;
mod form;
pub mod laws;
mod row;
mod scan;
mod show;
mod value;

pub use canonical::{field_len, make_further_canonical};
pub use dns_field_texts::{RtypeBitmap, RtypeBitmapError, RtypeBitmapIter, append_types};
pub use form::{Form, forms_of};
pub use row::{is_further_data, scan_further_into};
pub use show::show_further;
pub use value::Value;
