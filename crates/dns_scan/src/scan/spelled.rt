//! The octets that the text of a token spells (RFC 1035 5.1).
ghost use Rattle.std.specs.Prelude.{◌≡◌, List, ℕ, false, IfOk, IfErr};
ghost use Rattle.dns_scan.specs.StringText.{Spells};
ghost use Rattle.dns_scan.specs.StrError.{is_short, is_end};

use crate::StrError;
use crate::char_str::octet_of;
use dns_name::Symbol;
use std::alloc::Global;

/// Returns the octets that a text spells, each by a symbol. Fails if a part of it is no symbol, and with `ShortBuf` if
/// out of memory.
pub(crate) fn octets_of(alloc: Global, text: &[u8]) -> Result<Vec<u8>, StrError>
    ensures ok { IfOk result (λ octets. Spells text.now octets.items) }
    ensures err { IfErr result (λ error. is_short error ≡ false → (octets : List ℕ) → Spells text.now octets → ⊥) }
    ensures end { IfErr result (λ error. is_end error ≡ false) }
{
    let mut octets = Vec::new(alloc);
    let mut rest = text;
    while !rest.is_empty() {
        let Some((symbol, behind)) = Symbol::split_from(rest) else {
            return Err(StrError::Custom("bad symbol"));
        };
        match octets.push(octet_of(symbol)) {
            Ok(()) => rest = behind,
            Err(_) => return Err(StrError::ShortBuf),
        }
    }
    Ok(octets)
}
