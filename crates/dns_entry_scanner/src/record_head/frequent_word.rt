//! The class and the types of most records.
ghost use Rattle.std.specs.Prelude.{IfSome};
ghost use Rattle.dns_entry_scanner.specs.HeadWord.{Heads};

use super::HeadWord;
use dns_name::{Class, Rtype};

/// Returns what a word says that is the class IN or the mnemonic, in upper case, of the type of many records. So only
/// other words need a search of the tables.
#[inline(always)]
pub(crate) fn frequent_word(text: &[u8]) -> Option<HeadWord>
    ensures { IfSome result (λ word. Heads text.now word) }
{
    match text {
        [b'A'] => Some(HeadWord::Rtype(Rtype::A)),
        [b'I', b'N'] => Some(HeadWord::Class(Class::IN)),
        [b'N', b'S'] => Some(HeadWord::Rtype(Rtype::NS)),
        [b'D', b'S'] => Some(HeadWord::Rtype(Rtype::DS)),
        [b'M', b'X'] => Some(HeadWord::Rtype(Rtype::MX)),
        [b'R', b'P'] => Some(HeadWord::Rtype(Rtype::RP)),
        [b'T', b'X', b'T'] => Some(HeadWord::Rtype(Rtype::TXT)),
        [b'P', b'T', b'R'] => Some(HeadWord::Rtype(Rtype::PTR)),
        [b'S', b'O', b'A'] => Some(HeadWord::Rtype(Rtype::SOA)),
        [b'S', b'R', b'V'] => Some(HeadWord::Rtype(Rtype::SRV)),
        [b'C', b'A', b'A'] => Some(HeadWord::Rtype(Rtype::CAA)),
        [b'A', b'A', b'A', b'A'] => Some(HeadWord::Rtype(Rtype::AAAA)),
        [b'N', b'S', b'E', b'C'] => Some(HeadWord::Rtype(Rtype::NSEC)),
        [b'C', b'N', b'A', b'M', b'E'] => Some(HeadWord::Rtype(Rtype::CNAME)),
        [b'H', b'I', b'N', b'F', b'O'] => Some(HeadWord::Rtype(Rtype::HINFO)),
        [b'R', b'R', b'S', b'I', b'G'] => Some(HeadWord::Rtype(Rtype::RRSIG)),
        [b'N', b'S', b'E', b'C', b'3'] => Some(HeadWord::Rtype(Rtype::NSEC3)),
        [b'D', b'N', b'S', b'K', b'E', b'Y'] => Some(HeadWord::Rtype(Rtype::DNSKEY)),
        _ => None,
    }
}
