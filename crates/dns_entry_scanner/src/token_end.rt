//! The ends of tokens: after their longest run of symbols.
ghost use Rattle.std.specs.Prelude.{◌≤◌, length, drop, IfSome, IfNone};
ghost use Rattle.dns_entry_scanner.specs.TokenEnd.{HasEscape, NoEscape, RunsTo};

use crate::plain_octets::plain_end;
use dns_name::Symbol;

/// The end of a token's text.
#[derive(Clone, Copy)]
pub(crate) struct TokenEnd {
    /// The place after its last octet.
    pub(crate) place: usize,
    /// Whether it has a backslash.
    pub(crate) has_escape: bool,
}

/// Returns the end of the longest run of a token's symbols that starts at `place`. It is called once per token, so it
/// is inlined.
#[inline(always)]
pub(crate) fn token_end(text: &[u8], place: usize, quoted: bool) -> TokenEnd
    requires { place ≤ length text.now }
    ensures run { RunsTo quoted text.now place result }
    ensures behind { place ≤ result.place }
    ensures within { result.place ≤ length text.now }
{
    let mut end = plain_end(text, place, quoted);
    let mut has_escape = false;
    while let Some(behind) = escape_end(text, end) {
        end = plain_end(text, behind, quoted);
        has_escape = true;
    }
    TokenEnd {
        place: end,
        has_escape,
    }
}

/// Returns the place after the escape at `place`, or None if there is no escape.
fn escape_end(text: &[u8], place: usize) -> Option<usize>
    requires { place ≤ length text.now }
    ensures found { IfSome result (λ end. HasEscape (drop place text.now) (drop end text.now)) }
    ensures within { IfSome result (λ end. end ≤ length text.now) }
    ensures none { IfNone result (NoEscape (drop place text.now)) }
{
    let here = &text[place..];
    let (&first, _) = here.split_first()?;
    if first != b'\\' {
        return None;
    }
    let (_, behind) = Symbol::split_from(here)?;
    Some(text.len() - behind.len())
}
