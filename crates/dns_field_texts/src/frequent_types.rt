//! The mnemonics of the types of most records in a signed zone.
ghost use Rattle.std.specs.Prelude.{◌≡◌, IfSome, Some};
ghost use Rattle.dns_values.specs.Mnemonic.{type_read};

use dns_name::Rtype;

/// Returns the type whose mnemonic the word is, in upper case, if it is one of those of most records in a signed zone. It
/// searches no table.
pub fn frequent_type(word: &[u8]) -> Option<Rtype>
    ensures { IfSome result (λ rtype. type_read word.now ≡ Some rtype) }
{
    match word {
        [b'A'] => Some(Rtype::A),
        [b'N', b'S'] => Some(Rtype::NS),
        [b'D', b'S'] => Some(Rtype::DS),
        [b'A', b'A', b'A', b'A'] => Some(Rtype::AAAA),
        [b'N', b'S', b'E', b'C'] => Some(Rtype::NSEC),
        [b'R', b'R', b'S', b'I', b'G'] => Some(Rtype::RRSIG),
        [b'N', b'S', b'E', b'C', b'3'] => Some(Rtype::NSEC3),
        _ => None,
    }
}
