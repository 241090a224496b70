//! Record data as rows of fields.
//!
//! A part of `dns_rdata`. A value of record data holds its fields as nested pairs. It is written, compared and hashed field
//! by field, for all types in one way, by the table of the types.
#![tactic(auto)]

mod compose;
mod convert;
mod field;
pub mod laws;
mod octets_ord;
mod read;
mod row;
mod scan;
mod show;

pub use compose::{compose_canonical_row, compose_row, row_len};
pub use convert::{ConvertField, ConvertRow, OverOctets};
pub use field::{Compressible, FieldValue, HasField, Tag, Uncompressed};
pub use octets_ord::{CanonicalOctetsOrd, FieldOctetsOrd, RowOctetsOrd, canonical_row_cmp_octets};
pub use read::{ReadError, ReadField, ReadRow, parse_row, read_row};
pub use row::{HasFields, Last, LastValue, Rest16, Rest64, RestText, Row, Strings, StringsIter};
pub use scan::{ScanField, ScanRow, scan_row, scan_row_of};
pub use show::{ShowField, ShowLast, ShowRow, show_row};
