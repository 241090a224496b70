//! `zonewire` for C: a static library, whose header is `include/zonewire.h`.
//!
//! Each export makes one call of `zonewire`, or two, and states its clauses again. C owns every buffer, and nothing is
//! kept between two calls. What a call returns is an `Answer`: the number of octets of its output, which are in the
//! caller's buffer if they fit there, or the number of a fault.
#![tactic(auto)]

mod answer;
mod fault;
mod fault_text;
mod given;
#[cfg(test)]
mod tests;
mod transfers;
mod zones;

pub use answer::Answer;
pub use fault_text::zonewire_fault_text;
pub use transfers::{zonewire_query, zonewire_receive, zonewire_send};
pub use zones::{zonewire_canonical, zonewire_count, zonewire_print};
