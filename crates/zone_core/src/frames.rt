//! Messages on a stream, each after its length.

/// The number of octets of a message's length on a stream (RFC 1035 4.2.2).
pub const LENGTH_OCTETS: usize = 2;
