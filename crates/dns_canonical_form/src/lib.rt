//! The canonical form of record data that is held as octets (RFC 4034 6.2, 6.3).
//!
//! A part of `dns_rdata`. Data is put in canonical form and compared where it is, by the kinds of its type's row of fields,
//! without parsing it.
#![tactic(auto)]

mod octets_form;

pub use octets_form::{FieldOctetsForm, RowOctetsForm, canonical_rows_cmp, make_canonical_row};
