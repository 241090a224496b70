//! Tests of `dns_name` and of the crates below it, `dns_octets`, `dns_values` and `dns_label`, by examples from
//! outside, through their public calls; in `text` of `dns_text`, and in `rdata` of `dns_rdata`.
//!
//! The rows of `dns_text_rows` and `dns_rdata_rows` test values. These tests are for what a row can't say: types of
//! octets, borrows, closures, and targets of one's own, some of which fail. They are in a crate of their own, so that a
//! check of the tests doesn't check those crates again.
#![tactic(auto)]

#[cfg(test)]
mod builders;
#[cfg(test)]
mod composers;
#[cfg(test)]
mod labels;
#[cfg(test)]
mod names;
#[cfg(test)]
mod octets;
pub mod one_suffix;
#[cfg(test)]
mod rdata;
#[cfg(test)]
mod record_data;
#[cfg(test)]
mod runs;
#[cfg(test)]
mod text;
#[cfg(test)]
mod times;
#[cfg(test)]
mod unknown;
