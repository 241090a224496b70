//! Bits that wait for the rest of their octet.
ghost use Rattle.std.specs.Prelude.{◌≡◌, ◌+◌, ◌≤◌, ◌<◌, ◌^◌, List, ℕ, [], ◌++◌, length};
ghost use Rattle.dns_scan.specs.Bits.{bits};

use std::marker::Model;

/// At most 16 bits, in their order.
#[derive(Debug, Drop)]
pub(crate) struct Bits {
    /// The bits as a number, the first the highest.
    number: u32,
    count: u32,
}

impl Model for Bits {
    ghost Value = { List ℕ };

    ghost view = { λ waiting. bits waiting.count waiting.number };

    ghost invariant = { λ waiting. (waiting.count ≤ 16) × (waiting.number < 2 ^ waiting.count) };
}

impl Bits {
    /// Returns no bits.
    pub(crate) fn none() -> Self
        ensures { result ≡ [] }
    {
        Bits {
            number: 0,
            count: 0,
        }
    }

    /// Returns the number of bits.
    pub(crate) fn len(&self) -> u32
        ensures { result ≡ length self.now }
    {
        self.count
    }

    /// Appends the lowest `count` bits of a number, the highest of them first.
    pub(crate) fn push(&mut self, count: u32, number: u32)
        requires small { number < 2 ^ count }
        requires few { length self.old + count ≤ 16 }
        ensures { self.new ≡ self.old ++ bits count number }
    {
        self.number = self.number << count | number;
        self.count += count;
    }

    /// Takes the first `count` bits, and returns them as a number.
    pub(crate) fn take(&mut self, count: u32) -> u32
        requires { count ≤ length self.old }
        ensures taken { self.old ≡ bits count result ++ self.new }
        ensures small { result < 2 ^ count }
    {
        let rest = self.count - count;
        let taken = self.number >> rest;
        self.number &= (1 << rest) - 1;
        self.count = rest;
        taken
    }
}
