//! How a query was answered.
ghost use Rattle.std.specs.Prelude.{◌≡◌, ◌<◌, ◌%◌};

use std::marker::Model;

/// The response code of a header, four bits (RFC 1035, section 4.1.1).
#[derive(Clone, Copy, Debug, PartialEq, Eq, PartialOrd, Ord, Hash)]
pub struct Rcode(u8);

impl Model for Rcode {
    ghost use Rattle.std.specs.Prelude.{ℕ, ◌<◌};

    ghost Value = { ℕ };

    ghost view = { λ rcode. rcode.0 };

    ghost invariant = { λ rcode. rcode.0 < 16 };

    ghost inverse = { λ number. record { 0 = number } };
}

impl Rcode {
    /// No error (RFC 1035).
    pub const NOERROR: Rcode = Rcode(0);
    /// The query could not be read (RFC 1035).
    pub const FORMERR: Rcode = Rcode(1);
    /// The server failed (RFC 1035).
    pub const SERVFAIL: Rcode = Rcode(2);
    /// The name does not exist (RFC 1035).
    pub const NXDOMAIN: Rcode = Rcode(3);
    /// The server does not do this kind of query (RFC 1035).
    pub const NOTIMP: Rcode = Rcode(4);
    /// The server refuses to answer (RFC 1035).
    pub const REFUSED: Rcode = Rcode(5);

    /// Returns the code of the number's low four bits.
    pub fn masked_from_int(number: u8) -> Self
        ensures { result ≡ number % 16 }
    {
        Rcode(number % 16)
    }

    /// Returns the number of the code, below 16.
    pub fn to_int(self) -> u8
        ensures value { result ≡ self }
        ensures four_bits { result < 16 }
    {
        self.0
    }
}

/// The response code of a message with an OPT record, twelve bits (RFC 6891, section 6.1.3).
#[derive(Clone, Copy, Debug, PartialEq, Eq, PartialOrd, Ord, Hash)]
pub struct OptRcode(u16);

impl Model for OptRcode {
    ghost use Rattle.std.specs.Prelude.{ℕ, ◌<◌};

    ghost Value = { ℕ };

    ghost view = { λ rcode. rcode.0 };

    ghost invariant = { λ rcode. rcode.0 < 4096 };

    ghost inverse = { λ number. record { 0 = number } };
}

impl OptRcode {
    /// Returns the code of the number's low twelve bits.
    pub fn masked_from_int(number: u16) -> Self
        ensures { result ≡ number % 4096 }
    {
        OptRcode(number % 4096)
    }

    /// Returns the number of the code, below 4,096.
    pub fn to_int(self) -> u16
        ensures value { result ≡ self }
        ensures twelve_bits { result < 4096 }
    {
        self.0
    }

    /// Returns the code's low four bits, which are in the header.
    pub fn rcode(self) -> Rcode
        ensures { result ≡ self % 16 }
    {
        Rcode((self.0 % 16) as u8)
    }
}
