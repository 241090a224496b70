//! What a message asks for.
ghost use Rattle.std.specs.Prelude.{◌≡◌};

use std::marker::Model;

/// The kind of query of a message (RFC 1035, section 4.1.1). A header holds its low four bits.
#[derive(Clone, Copy, Debug, PartialEq, Eq, PartialOrd, Ord, Hash)]
pub struct Opcode(u8);

impl Model for Opcode {
    ghost use Rattle.std.specs.Prelude.{ℕ};

    ghost Value = { ℕ };

    ghost view = { λ opcode. opcode.0 };

    ghost inverse = { λ number. record { 0 = number } };
}

impl Opcode {
    /// A standard query (RFC 1035).
    pub const QUERY: Opcode = Opcode(0);
    /// An inverse query, obsolete (RFC 3425).
    pub const IQUERY: Opcode = Opcode(1);
    /// A request for the server's status (RFC 1035).
    pub const STATUS: Opcode = Opcode(2);
    /// A notice of a changed zone (RFC 1996).
    pub const NOTIFY: Opcode = Opcode(4);
    /// An update of a zone (RFC 2136).
    pub const UPDATE: Opcode = Opcode(5);

    /// Returns the opcode of this number.
    pub const fn from_int(number: u8) -> Self
        ensures { result ≡ number }
    {
        Opcode(number)
    }

    /// Returns the number of the opcode.
    pub const fn to_int(self) -> u8
        ensures { result ≡ self }
    {
        self.0
    }
}
