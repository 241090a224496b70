//! The keys of service parameters, and the forms of their values (RFC 9460 14.3.2).

/// The form of a value.
#[derive(Clone, Copy, Debug, PartialEq, Eq)]
pub(crate) enum Form {
    /// One or more keys, ascending.
    Keys,
    /// One or more strings of 1 to 255 octets.
    Strings,
    /// No octets.
    Nothing,
    /// A number of 16 bits.
    Number,
    /// One or more addresses of four octets.
    Ipv4s,
    /// One or more addresses of sixteen octets.
    Ipv6s,
    /// One or more octets, in base 64 in text.
    Encoded,
    /// Any octets.
    Plain,
}
