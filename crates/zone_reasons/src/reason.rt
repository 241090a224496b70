//! Why an entry of a zone's text is refused.

use dns_name::Rtype;
use thiserror::Error;

/// What a token ought to be.
#[derive(Clone, Copy, Debug, PartialEq, Eq, Error)]
pub enum Wanted {
    /// A domain name (RFC 1035 5.1).
    #[error("a name")]
    Name,
    /// A TTL (RFC 1035 5.1).
    #[error("a number of seconds from 0 to 4294967295")]
    Ttl,
    /// A type, perhaps after a TTL and a class (RFC 1035 5.1).
    #[error("a TTL, a class or a type")]
    Type,
    /// A number of 8 bits.
    #[error("a number from 0 to 255")]
    Number8,
    /// A number of 16 bits.
    #[error("a number from 0 to 65535")]
    Number16,
    /// A number of 32 bits.
    #[error("a number from 0 to 4294967295")]
    Number32,
    /// An IPv4 address (RFC 1035 3.4.1).
    #[error("an IPv4 address")]
    Ipv4Address,
    /// An IPv6 address (RFC 4291 2.2).
    #[error("an IPv6 address")]
    Ipv6Address,
    /// A character string (RFC 1035 5.1).
    #[error("a string of at most 255 octets")]
    CharacterString,
    /// The tag of a CAA record (RFC 8659 4.1).
    #[error("a tag of at most 255 octets")]
    Tag,
    /// Octets as characters.
    #[error("a string")]
    Text,
    /// Octets in base 16 (RFC 4648 8).
    #[error("base 16")]
    Base16,
    /// Octets in base 64 (RFC 4648 4).
    #[error("base 64")]
    Base64,
    /// A type of records (RFC 4034 3.2, 4.1.2).
    #[error("a type")]
    RecordType,
    /// An algorithm of DNSSEC (RFC 4034 A.1).
    #[error("an algorithm")]
    Algorithm,
    /// A type of certificates (RFC 4398 2.1).
    #[error("a type of certificates")]
    CertificateType,
    /// A point in time (RFC 4034 3.2).
    #[error("a time as YYYYMMDDHHmmSS or in seconds")]
    Time,
    /// A salt (RFC 5155 3.3).
    #[error("a salt in base 16 or -")]
    Salt,
    /// A hash (RFC 5155 3.3).
    #[error("a hash in base 32")]
    Hash,
    /// A hardware address of six octets (RFC 7043 3.2).
    #[error("an address of six octets")]
    Eui48,
    /// A hardware address of eight octets (RFC 7043 4.2).
    #[error("an address of eight octets")]
    Eui64,
    /// What goes on a location (RFC 1876 3).
    #[error("the next part of a location")]
    Location,
    /// A service parameter (RFC 9460 2.1).
    #[error("a service parameter")]
    Parameter,
    /// The path of a file, unquoted.
    #[error("a path without quotes")]
    Path,
}

/// Why a row of a zone's text is refused.
#[derive(Clone, Copy, Debug, PartialEq, Eq)]
pub enum Reason {
    /// The text ends before the row does.
    NoLineFeed,
    /// No quote closes a quoted token.
    OpenQuote,
    /// The text ends inside parentheses.
    OpenParenthesis,
    /// A parenthesis closes outside parentheses.
    MisplacedParenthesis,
    /// A parenthesis opens inside parentheses, which opened in this line.
    NestedParenthesis(usize),
    /// An octet begins no token: it is not printable ASCII, or an escape that is not whole.
    BadOctet,
    /// A word after a dollar sign is no directive.
    UnknownDirective,
    /// A relative name has no origin to stand under.
    NoOrigin,
    /// A record states no owner, and none comes before it.
    NoOwner,
    /// A TTL is written with units. It is this number of seconds.
    TtlUnits(u32),
    /// A word is neither a TTL, a class nor a type. This type differs from it in one letter.
    NearType(Rtype),
    /// A TTL or a class is stated twice.
    StatedTwice,
    /// The class is not the zone's.
    OtherClass,
    /// The entry ends where a token is wanted.
    Missing(Wanted),
    /// A token is not what is wanted.
    Not(Wanted),
    /// A token is quoted, but is no string.
    Quoted,
    /// A token follows the end of the entry.
    Surplus,
    /// Data of this type is only read in the general form (RFC 3597 5).
    GeneralFormOnly(Rtype),
    /// The general form states another number of octets than follow.
    OtherCount,
    /// Each service parameter reads, but a key is there twice, or one that another wants is missing (RFC 9460 2.1, 7.1.1, 8).
    OtherKeys,
    /// The data has more than 65,535 octets.
    LongData,
    /// The entry includes a file.
    Include,
    /// The octets in the general form are no data of their type.
    Untyped,
    /// The first record is not an SOA.
    FirstNotSoa,
    /// A later record is an SOA. The first is in this line.
    SecondSoa(usize),
    /// The owner is not at or under the zone's apex.
    OutOfZone,
    /// The tag of a CAA record is empty.
    Unspellable,
    /// The text has no record.
    NoSoa,
    /// The class ANY is no zone's.
    ClassAny,
}
