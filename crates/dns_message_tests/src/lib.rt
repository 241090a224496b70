//! Tests of `dns_message` and of the crates below it that a row of `dns_message_rows` cannot say: types, tuples,
//! targets without room, octets that are returned, and cursors and builders that are taken apart. And in `zonefile`
//! tests of `dns_zonefile`.
//!
//! They are in a crate of their own, so that a check of the tests doesn't check those crates again.
#![tactic(auto)]

#[cfg(test)]
mod builders;
#[cfg(test)]
mod header;
#[cfg(test)]
mod messages;
#[cfg(test)]
mod opt;
#[cfg(test)]
mod question;
#[cfg(test)]
mod record;
#[cfg(test)]
mod record_parts;
#[cfg(test)]
mod type_alone;
#[cfg(test)]
mod zonefile;
