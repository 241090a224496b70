//! A zone's records in canonical form (RFC 4034 6): their canonical octets, for the comparison of zones, the list of
//! them, and what differs between two lists.
#![tactic(auto)]

mod change_list;
mod entries;
mod entry;
mod form;
mod form_list;
pub mod laws;
mod merge;
mod octets;
mod owner_key;

pub use change_list::{Change, ChangeList};
pub use form_list::canonical_forms;
pub use merge::changes;
pub use octets::canonical;
