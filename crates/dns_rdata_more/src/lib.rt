//! Data of the further types of records: RRSIG, NSEC, NSEC3, TLSA, SVCB and others.
//!
//! A type is `FurtherData` of its number, with the calls that it alone has. `zonewire` takes data of these types as unknown data
//! (RFC 3597).
//!
//! ```
//! let data: Tlsa<&[u8]> = Tlsa::from_octets(octets)?;
//! println!(rt; "{} {}", data.cert_usage(), data.matching_type())?;
//! ```
#![tactic(auto)]

mod build;
mod canonical;
mod canonical_order;
mod folded_order;
mod further_data;
pub mod laws;
mod types;

pub use build::BuildError;
pub use dns_fields_more::{RtypeBitmap, RtypeBitmapError, RtypeBitmapIter};
pub use further_data::{AnyFurtherData, FurtherData, FurtherDataError};
pub use types::{
    Cdnskey, Cds, Cert, Csync, Eui48, Eui64, Https, Loc, Naptr, Nsec, Nsec3, Nsec3param,
    Openpgpkey, Rrsig, Smimea, Svcb, Tlsa, Uri, Zonemd,
};
