//! The types of records.
ghost use Rattle.std.specs.Prelude.{◌≡◌, ◌+◌, ◌≤◌, ◌↔◌, take, length, IsOk, IfOk, OnOk, OnErr, IfErr, Some};
ghost use Rattle.std.specs.Int.{from_be_bytes, to_be_bytes, w16};
ghost use Rattle.std.specs.Option.{option_copied};
ghost use Rattle.std.specs.Result.{result_ok};
ghost use Rattle.dns_octets.specs.Parser.{GoesOn, octets_of, place_of, rest_of};
ghost use Rattle.dns_values.specs.Mnemonic.{type_read, type_written, rows_of, text_of, types};

use crate::mnemonic::{self, Mnemonic};
use dns_octets::{AppendError, Compose, OctetsBuilder, ParseError, Parser};
use std::fmt;
use std::marker::Model;
use std::str::FromStr;
use thiserror::Error;

/// The type of a record (RFC 1035, section 3.2.2).
#[derive(Clone, Copy, Debug, PartialEq, Eq, PartialOrd, Ord, Hash)]
pub struct Rtype(u16);

impl Model for Rtype {
    ghost use Rattle.std.specs.Prelude.{ℕ};

    ghost Value = { ℕ };

    ghost view = { λ rtype. rtype.0 };

    ghost inverse = { λ number. record { 0 = number } };
}

impl Rtype {
    /// An IPv4 address (RFC 1035).
    pub const A: Rtype = Rtype(1);
    /// A name server of the zone (RFC 1035).
    pub const NS: Rtype = Rtype(2);
    /// A mail destination, obsolete (RFC 1035).
    pub const MD: Rtype = Rtype(3);
    /// A mail forwarder, obsolete (RFC 1035).
    pub const MF: Rtype = Rtype(4);
    /// The canonical name of an alias (RFC 1035).
    pub const CNAME: Rtype = Rtype(5);
    /// The start of a zone of authority (RFC 1035).
    pub const SOA: Rtype = Rtype(6);
    /// A mailbox (RFC 1035).
    pub const MB: Rtype = Rtype(7);
    /// A member of a mail group (RFC 1035).
    pub const MG: Rtype = Rtype(8);
    /// A mailbox's new name (RFC 1035).
    pub const MR: Rtype = Rtype(9);
    /// Any octets (RFC 1035).
    pub const NULL: Rtype = Rtype(10);
    /// Well-known services (RFC 1035).
    pub const WKS: Rtype = Rtype(11);
    /// A pointer to another name (RFC 1035).
    pub const PTR: Rtype = Rtype(12);
    /// A host's hardware and system (RFC 1035).
    pub const HINFO: Rtype = Rtype(13);
    /// A mail list's mailboxes (RFC 1035).
    pub const MINFO: Rtype = Rtype(14);
    /// A mail exchange (RFC 1035).
    pub const MX: Rtype = Rtype(15);
    /// Text (RFC 1035).
    pub const TXT: Rtype = Rtype(16);
    /// A responsible person (RFC 1183).
    pub const RP: Rtype = Rtype(17);
    /// An AFS database (RFC 1183).
    pub const AFSDB: Rtype = Rtype(18);
    /// An IPv6 address (RFC 3596).
    pub const AAAA: Rtype = Rtype(28);
    /// A location (RFC 1876).
    pub const LOC: Rtype = Rtype(29);
    /// Where a service runs (RFC 2782).
    pub const SRV: Rtype = Rtype(33);
    /// A naming authority pointer (RFC 3403).
    pub const NAPTR: Rtype = Rtype(35);
    /// A key exchanger (RFC 2230).
    pub const KX: Rtype = Rtype(36);
    /// A subtree's new name (RFC 6672).
    pub const DNAME: Rtype = Rtype(39);
    /// An extension of the message, not a record of a zone (RFC 6891).
    pub const OPT: Rtype = Rtype(41);
    /// A delegation's signing key (RFC 4034).
    pub const DS: Rtype = Rtype(43);
    /// The fingerprint of a host's SSH key (RFC 4255).
    pub const SSHFP: Rtype = Rtype(44);
    /// A signature (RFC 4034).
    pub const RRSIG: Rtype = Rtype(46);
    /// The next name of the zone (RFC 4034).
    pub const NSEC: Rtype = Rtype(47);
    /// A public key of the zone (RFC 4034).
    pub const DNSKEY: Rtype = Rtype(48);
    /// The next hashed name of the zone (RFC 5155).
    pub const NSEC3: Rtype = Rtype(50);
    /// How the zone's names are hashed (RFC 5155).
    pub const NSEC3PARAM: Rtype = Rtype(51);
    /// A certificate of a TLS server (RFC 6698).
    pub const TLSA: Rtype = Rtype(52);
    /// A child's copy of DS (RFC 7344).
    pub const CDS: Rtype = Rtype(59);
    /// A child's copy of DNSKEY (RFC 7344).
    pub const CDNSKEY: Rtype = Rtype(60);
    /// A digest of the zone (RFC 8976).
    pub const ZONEMD: Rtype = Rtype(63);
    /// How a service is reached (RFC 9460).
    pub const SVCB: Rtype = Rtype(64);
    /// How an HTTPS server is reached (RFC 9460).
    pub const HTTPS: Rtype = Rtype(65);
    /// Who may send mail, obsolete (RFC 7208).
    pub const SPF: Rtype = Rtype(99);
    /// A message's signature, not a record of a zone (RFC 8945).
    pub const TSIG: Rtype = Rtype(250);
    /// A query for the changes of a zone (RFC 1995).
    pub const IXFR: Rtype = Rtype(251);
    /// A query for a whole zone (RFC 5936).
    pub const AXFR: Rtype = Rtype(252);
    /// Who may issue certificates (RFC 8659).
    pub const CAA: Rtype = Rtype(257);

    /// Returns the type of this number.
    pub const fn from_int(number: u16) -> Self
        ensures { result ≡ number }
    {
        Rtype(number)
    }

    /// Returns the number of the type.
    pub const fn to_int(self) -> u16
        ensures { result ≡ self }
    {
        self.0
    }

    /// Parses a type, the high octet of its number first. Fails with `ShortInput` exactly if fewer
    /// than two octets are left. The parser then stays where it was.
    pub fn parse(parser: &mut Parser<'_>) -> Result<Self, ParseError>
        ensures ok { IfOk result (λ rtype. rtype ≡ from_be_bytes w16 (take 2 (rest_of parser.old))) }
        ensures place { OnOk result (GoesOn parser.old parser.new 2) }
        ensures enough { IsOk result ↔ (place_of parser.old + 2 ≤ length (octets_of parser.old)) }
        ensures short { IfErr result (λ e. e ≡ ParseError.ShortInput) }
        ensures err { OnErr result (parser.new ≡ parser.old) }
    {
        Ok(Rtype(parser.parse_u16_be()?))
    }

    /// Returns the type that a word stands for: its mnemonic, or `TYPE` and the number in digits,
    /// both up to ASCII case (RFC 3597, section 5). Returns None if there is none.
    pub fn from_bytes(word: &[u8]) -> Option<Self>
        ensures { result ≡ type_read word.now }
    {
        let number = mnemonic::number_read(mnemonics(), "TYPE", word)?;
        Some(Rtype::from_int(number))
    }

    /// Returns the mnemonic, if there is one.
    fn mnemonic(self) -> Option<&'static str>
        ensures { option_copied result ≡ text_of types self }
    {
        mnemonic::text_of(mnemonics(), self.to_int())
    }
}

/// Composes the two octets of the number, the high octet first.
impl Compose for Rtype {
    ghost composed = { λ rtype. to_be_bytes w16 rtype };

    fn compose<Target: OctetsBuilder>(&self, target: &mut Target) -> Result<(), AppendError> {
        self.to_int().compose(target)
    }
}

/// Parses what `Rtype::from_bytes` does.
impl FromStr for Rtype {
    type Err = RtypeFromStrError;

    ghost from_str_gives = { λ word result. result_ok result ≡ type_read word };

    fn from_str(word: &str) -> Result<Self, RtypeFromStrError> {
        Rtype::from_bytes(word.as_bytes()).ok_or(RtypeFromStrError)
    }
}

/// Writes the mnemonic, or `TYPE` and the number if it has none.
impl fmt::Display for Rtype {
    ghost output = { λ rtype. Some (type_written rtype) };

    #[tactic(auto, using(crate::proofs::Words::written_rules))]
    fn fmt<W: fmt::Write>(&self, f: &mut fmt::Formatter<W>) -> fmt::Result {
        match self.mnemonic() {
            Some(text) => f.write_str(text),
            None => write!(f, "TYPE{}", self.to_int()),
        }
    }
}

/// The word stands for no type.
#[derive(Clone, Copy, Debug, PartialEq, Eq, Error)]
#[error("unknown record type")]
pub struct RtypeFromStrError;

/// The types that have a mnemonic.
#[rattlefmt::skip]
static MNEMONICS: [Mnemonic; 43] = [
    (Rtype::A.0, "A"),
    (Rtype::NS.0, "NS"),
    (Rtype::MD.0, "MD"),
    (Rtype::MF.0, "MF"),
    (Rtype::CNAME.0, "CNAME"),
    (Rtype::SOA.0, "SOA"),
    (Rtype::MB.0, "MB"),
    (Rtype::MG.0, "MG"),
    (Rtype::MR.0, "MR"),
    (Rtype::NULL.0, "NULL"),
    (Rtype::WKS.0, "WKS"),
    (Rtype::PTR.0, "PTR"),
    (Rtype::HINFO.0, "HINFO"),
    (Rtype::MINFO.0, "MINFO"),
    (Rtype::MX.0, "MX"),
    (Rtype::TXT.0, "TXT"),
    (Rtype::RP.0, "RP"),
    (Rtype::AFSDB.0, "AFSDB"),
    (Rtype::AAAA.0, "AAAA"),
    (Rtype::LOC.0, "LOC"),
    (Rtype::SRV.0, "SRV"),
    (Rtype::NAPTR.0, "NAPTR"),
    (Rtype::KX.0, "KX"),
    (Rtype::DNAME.0, "DNAME"),
    (Rtype::OPT.0, "OPT"),
    (Rtype::DS.0, "DS"),
    (Rtype::SSHFP.0, "SSHFP"),
    (Rtype::RRSIG.0, "RRSIG"),
    (Rtype::NSEC.0, "NSEC"),
    (Rtype::DNSKEY.0, "DNSKEY"),
    (Rtype::NSEC3.0, "NSEC3"),
    (Rtype::NSEC3PARAM.0, "NSEC3PARAM"),
    (Rtype::TLSA.0, "TLSA"),
    (Rtype::CDS.0, "CDS"),
    (Rtype::CDNSKEY.0, "CDNSKEY"),
    (Rtype::ZONEMD.0, "ZONEMD"),
    (Rtype::SVCB.0, "SVCB"),
    (Rtype::HTTPS.0, "HTTPS"),
    (Rtype::SPF.0, "SPF"),
    (Rtype::TSIG.0, "TSIG"),
    (Rtype::IXFR.0, "IXFR"),
    (Rtype::AXFR.0, "AXFR"),
    (Rtype::CAA.0, "CAA"),
];

/// The types that have a mnemonic.
#[tactic(auto, unfolding(crate::specs::Mnemonic::types))]
fn mnemonics() -> &'static [Mnemonic]
    ensures { rows_of result.now ≡ types }
{
    &MNEMONICS
}
