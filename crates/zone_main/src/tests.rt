//! Tests of `zonewire` through its public calls, by examples worked out by hand.
//!
//! They are in the program's crate, so that a check of the tests doesn't check `zonewire` again.

mod examples;
mod received;
mod runs;
mod steps;
mod text;
mod words;
