//! Messages.
ghost use Rattle.std.specs.Prelude.{◌≤◌, length};

mod answers;
mod changed;
mod convert;
mod copied;
mod last;
mod opened;
mod options;
mod questions;
mod sections;
mod views;

use dns_name::Octets;
use std::alloc::AllocError;

/// A message: the twelve octets of its header and whatever follows them (RFC 1035 4.1).
///
/// Sections are parsed on demand, so a message may have items that do not parse.
#[derive(Debug, Drop)]
pub struct Message<Octs: Octets> {
    octets: Octs,
    ghost header: { 12 ≤ length (Octs.list octets) },
}

impl<Octs: Octets + Copy> Clone for Message<Octs> {
    fn clone(&self) -> Result<Self, AllocError> {
        Ok(*self)
    }
}

impl<Octs: Octets + Copy> Copy for Message<Octs> {}
