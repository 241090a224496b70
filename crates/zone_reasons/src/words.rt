//! The words of a row.

use crate::reason::{Reason, Wanted};
use dns_field_texts::read_type;
use dns_name::{Class, Rtype};

/// What a word before a record's data is (RFC 1035 5.1).
#[derive(Clone, Copy)]
pub(crate) enum HeadWord {
    Ttl,
    Class(Class),
    Type(Rtype),
    /// A word for a type that zones do not know.
    FurtherType(Rtype),
    Other,
}

/// Returns whether the word begins with a dollar sign.
pub(crate) fn begins_with_dollar(word: &[u8]) -> bool {
    match word.split_first() {
        Some((&first, _)) => first == b'$',
        None => false,
    }
}

/// Returns what the word is. Digits are a TTL, and any other word is a type, and only if it is none, a class.
pub(crate) fn head_word(word: &[u8]) -> HeadWord {
    if word.iter().all(u8::is_ascii_digit) {
        return match number32(word) {
            Some(_) => HeadWord::Ttl,
            None => HeadWord::Other,
        };
    }
    if let Some(rtype) = Rtype::from_bytes(word) {
        return HeadWord::Type(rtype);
    }
    if let Some(class) = Class::from_bytes(word) {
        return HeadWord::Class(class);
    }
    match read_type(word) {
        Some(rtype) => HeadWord::FurtherType(rtype),
        None => HeadWord::Other,
    }
}

/// Returns why a word is not what is wanted.
pub(crate) fn word_reason(word: &[u8], wanted: Wanted) -> Reason {
    if word.iter().all(u8::is_ascii_digit) {
        return Reason::Not(Wanted::Ttl);
    }
    if let Some(seconds) = seconds_with_units(word) {
        return Reason::TtlUnits(seconds);
    }
    if let (Wanted::Type, Some(mnemonic)) = (wanted, near_type(word)) {
        return Reason::NearType(mnemonic);
    }
    Reason::Not(wanted)
}

/// Returns the number of 32 bits that digits spell.
fn number32(word: &[u8]) -> Option<u32> {
    let (_first, _others) = word.split_first()?;
    let mut number: u32 = 0;
    for &octet in word {
        if !octet.is_ascii_digit() {
            return None;
        }
        number = number
            .checked_mul(10)?
            .checked_add(u32::from(octet - b'0'))?;
    }
    Some(number)
}

/// Returns the number of 16 bits that digits spell.
pub(crate) fn number16(word: &[u8]) -> Option<u16> {
    u16::try_from(number32(word)?).ok()
}

/// Returns whether the characters are of the encoding: base 64, or else base 16.
pub(crate) fn is_encoded(encoding: Wanted, text: &[u8]) -> bool {
    match encoding {
        Wanted::Base64 => text.iter().all(|&octet| is_base64(octet)),
        _ => text.iter().all(u8::is_ascii_hexdigit),
    }
}

fn is_base64(octet: u8) -> bool {
    octet.is_ascii_alphanumeric() || octet == b'+' || octet == b'/' || octet == b'='
}

/// Returns the seconds of a TTL with units, as other programs write it: numbers, each with a letter of `smhdw` after it.
fn seconds_with_units(word: &[u8]) -> Option<u32> {
    let mut whole: u32 = 0;
    let mut number: Option<u32> = None;
    for &octet in word {
        if octet.is_ascii_digit() {
            let digit = u32::from(octet - b'0');
            number = Some(number.unwrap_or(0).checked_mul(10)?.checked_add(digit)?);
            continue;
        }
        let unit = match octet.to_ascii_lowercase() {
            b's' => 1,
            b'm' => 60,
            b'h' => 3600,
            b'd' => 86400,
            b'w' => 604800,
            _ => return None,
        };
        whole = whole.checked_add(number?.checked_mul(unit)?)?;
        number = None;
    }
    if word.is_empty() {
        return None;
    }
    whole.checked_add(number.unwrap_or(0))
}

/// The mnemonics of the types that have a presentation form here, the further ones last.
static TYPES: &[&str] = &[
    "A",
    "NS",
    "MD",
    "MF",
    "CNAME",
    "SOA",
    "MB",
    "MG",
    "MR",
    "PTR",
    "HINFO",
    "MINFO",
    "MX",
    "TXT",
    "RP",
    "AAAA",
    "SRV",
    "DNAME",
    "DS",
    "SSHFP",
    "DNSKEY",
    "CAA",
    "LOC",
    "NAPTR",
    "CERT",
    "RRSIG",
    "NSEC",
    "NSEC3",
    "NSEC3PARAM",
    "TLSA",
    "SMIMEA",
    "CDS",
    "CDNSKEY",
    "OPENPGPKEY",
    "CSYNC",
    "ZONEMD",
    "SVCB",
    "HTTPS",
    "EUI48",
    "EUI64",
    "URI",
];

/// Returns the type whose mnemonic differs from the word in one letter, if there is one.
fn near_type(word: &[u8]) -> Option<Rtype> {
    if word.len() < 2 || !word.iter().all(u8::is_ascii_alphanumeric) {
        return None;
    }
    for &mnemonic in TYPES {
        if is_near(word, mnemonic.as_bytes()) {
            return read_type(mnemonic.as_bytes());
        }
    }
    None
}

/// Returns whether the word becomes the other one where one letter is changed, added or left out, up to ASCII case.
fn is_near(word: &[u8], other: &[u8]) -> bool {
    let same = common_len(word, other);
    let (left, right) = (
        &word[same.min(word.len())..],
        &other[same.min(other.len())..],
    );
    let (left_behind, right_behind) = (behind_first(left), behind_first(right));
    left_behind.eq_ignore_ascii_case(right_behind)
        || left_behind.eq_ignore_ascii_case(right)
        || left.eq_ignore_ascii_case(right_behind)
}

/// Returns how many octets the two begin with that are the same up to ASCII case.
fn common_len(word: &[u8], other: &[u8]) -> usize {
    let mut len: usize = 0;
    for (octet, another) in word.iter().zip(other) {
        if !octet.eq_ignore_ascii_case(another) {
            break;
        }
        len = len.saturating_add(1);
    }
    len
}

/// Returns the octets after the first one, or none.
fn behind_first(octets: &[u8]) -> &[u8] {
    match octets.split_first() {
        Some((_, behind)) => behind,
        None => octets,
    }
}
