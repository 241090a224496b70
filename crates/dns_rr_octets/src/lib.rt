//! Record data of the types whose fields are addresses, numbers, strings and octets.
//!
//! A part of `dns_rdata`. The types are those of `dns_rr_data`.
#![tactic(auto)]

pub use dns_rr_data::{
    A, Aaaa, Caa, Dnskey, Ds, Hinfo, RowData, Sshfp, Txt, TxtAppendError, TxtBuilder,
    TxtCharStrIter, TxtError, TxtIter,
};
