//! Types that are stated by their number, as types without a mnemonic are (RFC 3597 5).
ghost use Rattle.std.specs.Prelude.{IfSome};
ghost use Rattle.dns_entry_scanner.specs.HeadWord.{Heads};
ghost use Rattle.dns_entry_scanner.specs.declared.record_head.HeadWord.TheVariants.{Rtype as TheRtype};

use dns_name::Rtype;
use dns_text::number_of;

/// Returns the type that `TYPE`, in capital letters, and its number state. It is found without a search in the mnemonics.
#[inline(always)]
pub(crate) fn numbered_type(text: &[u8]) -> Option<Rtype>
    ensures { IfSome result (λ rtype. Heads text.now (TheRtype rtype)) }
{
    let [b'T', b'Y', b'P', b'E', digits @ ..] = text else {
        return None;
    };
    match number_of(digits) {
        Some(number) if number <= 0xFFFF => Some(Rtype::from_int(number as u16)),
        _ => None,
    }
}
