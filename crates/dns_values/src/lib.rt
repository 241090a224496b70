//! The numbers of a message that have a type of their own.
//!
//! A part of `dns_name`, which re-exports all of it.
#![tactic(auto)]

mod canonical;
mod class;
pub mod laws;
mod mnemonic;
mod opcode;
mod option_code;
mod rcode;
mod rtype;
mod serial;
mod ttl;

pub use canonical::CanonicalOrd;
pub use class::{Class, ClassFromStrError};
pub use opcode::Opcode;
pub use option_code::OptionCode;
pub use rcode::{OptRcode, Rcode};
pub use rtype::{Rtype, RtypeFromStrError};
pub use serial::{IllegalSignatureTime, Serial};
pub use ttl::Ttl;
