//! The octets that the text of a token spells (RFC 1035 5.1).
ghost use Rattle.std.specs.Prelude.{◌≡◌, ◌++◌, List, ℕ, true, false, length, take, IfOk, IfErr, OnOk};
ghost use Rattle.std.specs.List.{list_all};
ghost use Rattle.dns_label.specs.Symbol.{IsSymbol, is_plain, octet};
ghost use Rattle.dns_entry_scanner.specs.EntryError.{is_memory, is_end};
ghost use Rattle.dns_scan.specs.StringText.{Spells, IsStringText};

use crate::EntryError;
use crate::plain_octets::plain_end;
use crate::row_token::RowToken;
use dns_name::Symbol;
use dns_scan::CharStr;
use std::alloc::Global;

/// Returns whether these are printable characters other than the backslash. Each of them is a symbol that stands for
/// itself.
pub(crate) fn are_plain(text: &[u8]) -> bool
    ensures { result ≡ list_all is_plain text.now }
{
    text.iter().all(|&octet| is_plain(octet))
}

/// Returns whether this is a printable character other than the backslash.
pub(crate) fn is_plain(octet: u8) -> bool
    ensures { result ≡ is_plain octet }
{
    b' ' <= octet && octet <= b'~' && octet != b'\\'
}

/// Returns the text, which has only printable characters other than the backslash.
pub(crate) fn plain_word(text: &[u8]) -> &str
    requires { list_all is_plain text.now ≡ true }
    ensures { result.now ≡ text.now }
{
    // Printable characters are ASCII.
    unsafe { std::str::from_utf8_unchecked(text) }
}

/// Returns the octets that a token's text spells, one per symbol. A text without a backslash is copied whole.
///
/// Fails with `Custom` if a part of the text is no symbol, and with `OutOfMemory` if out of memory.
pub(crate) fn octets_of(alloc: Global, token: RowToken<'_>) -> Result<Vec<u8>, EntryError>
    ensures ok { IfOk result (λ octets. Spells token.entry.text.now octets.items) }
    ensures err { IfErr result (λ error. is_memory error ≡ false → (octets : List ℕ) → Spells token.entry.text.now octets → ⊥) }
    ensures end { IfErr result (λ error. is_end error ≡ false) }
{
    if token.is_plain() {
        return Ok(Vec::from_slice(alloc, token.text)?);
    }
    let mut octets = Vec::new(alloc);
    append_symbols(token.text, &mut octets)?;
    Ok(octets)
}

/// Appends the octets that a text spells. Octets that stand for themselves are appended run by run.
///
/// Fails with `Custom` if a part of the text is no symbol, and with `OutOfMemory` if out of memory. It may then have
/// appended the octets of the symbols before.
pub(crate) fn append_symbols(text: &[u8], octets: &mut Vec<u8>) -> Result<(), EntryError>
    ensures ok { OnOk result ((spelled : List ℕ) × Spells text.now spelled × (octets.new.items ≡ octets.old.items ++ spelled)) }
    ensures err { IfErr result (λ error. is_memory error ≡ false → (spelled : List ℕ) → Spells text.now spelled → ⊥) }
    ensures end { IfErr result (λ error. is_end error ≡ false) }
    ensures front { take (length octets.old.items) octets.new.items ≡ octets.old.items }
{
    let mut rest = text;
    while !rest.is_empty() {
        let len = plain_end(rest, 0, true);
        if len > 0 {
            octets.extend_from_slice(&rest[..len])?;
            rest = &rest[len..];
        } else {
            let Some((symbol, behind)) = Symbol::split_from(rest) else {
                return Err(EntryError::Custom("bad symbol"));
            };
            match octets.push(octet_of(symbol)) {
                Ok(()) => rest = behind,
                Err(_) => return Err(EntryError::OutOfMemory),
            }
        }
    }
    Ok(())
}

/// Returns the octet that a symbol stands for.
pub(crate) fn octet_of(symbol: Symbol) -> u8
    requires { IsSymbol symbol }
    ensures { result ≡ octet symbol }
{
    match symbol {
        Symbol::Char(character) => character as u8,
        Symbol::SimpleEscape(octet) | Symbol::DecimalEscape(octet) => octet,
    }
}

/// Returns the character string that a token's text spells.
///
/// Fails with `Custom` if a part of the text is no symbol or it spells more than 255 octets, and with `OutOfMemory` if
/// out of memory.
pub(crate) fn string_of(alloc: Global, token: RowToken<'_>) -> Result<CharStr<Vec<u8>>, EntryError>
    ensures ok { IfOk result (λ string. IsStringText token.entry.text.now string) }
    ensures err { IfErr result (λ error. is_memory error ≡ false → (string : List ℕ) → IsStringText token.entry.text.now string → ⊥) }
    ensures end { IfErr result (λ error. is_end error ≡ false) }
{
    let octets = octets_of(alloc, token)?;
    match CharStr::from_octets(octets) {
        Ok(string) => Ok(string),
        Err(_) => Err(EntryError::Custom("long character string")),
    }
}
