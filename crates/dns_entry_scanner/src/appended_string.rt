//! The octets that texts spell, appended to others without a value for them.
ghost use Rattle.std.specs.Prelude.{◌≡◌, ◌≤◌, ◌++◌, List, ℕ, false, true, length, take, IfErr, OnErr, OnOk};
ghost use Rattle.dns_entry_scanner.specs.EntryError.{is_end, is_memory};
ghost use Rattle.dns_scan.specs.CharStr.{string_wire};
ghost use Rattle.dns_scan.specs.StringText.{IsStringText, Spells};

use crate::EntryError;
use crate::row_token::RowToken;
use crate::short_copy::append_longer;
use crate::spelled_octets::append_symbols;
use std::alloc::AllocError;

/// The greatest length of a character string in octets (RFC 1035 3.3).
const STRING_MOST: usize = 255;

/// Appends the octets that a token's text spells. A text without a backslash is appended unchanged.
///
/// Fails as `octets_of` does, and then appends nothing.
pub(crate) fn append_text(token: RowToken<'_>, octets: &mut Vec<u8>) -> Result<(), EntryError>
    ensures ok { OnOk result ((spelled : List ℕ) × Spells token.entry.text.now spelled × (octets.new.items ≡ octets.old.items ++ spelled)) }
    ensures err { IfErr result (λ error. is_memory error ≡ false → (spelled : List ℕ) → Spells token.entry.text.now spelled → ⊥) }
    ensures same { OnErr result (octets.new.items ≡ octets.old.items) }
{
    if token.is_plain() {
        octets.extend_from_slice(token.text)?;
        return Ok(());
    }
    let len = octets.len();
    let appended = append_symbols(token.text, octets);
    if appended.is_err() {
        octets.truncate(len);
    }
    appended
}

/// Appends the character string that a token's text spells, its length first.
///
/// Fails as `string_of` does, and then appends nothing. It is called once for each string, so it is inlined.
#[inline(always)]
pub(crate) fn append_string(token: RowToken<'_>, octets: &mut Vec<u8>) -> Result<(), EntryError>
    ensures ok { OnOk result ((string : List ℕ) × IsStringText token.entry.text.now string × (octets.new.items ≡ octets.old.items ++ string_wire string)) }
    ensures err { IfErr result (λ error. is_memory error ≡ false → (string : List ℕ) → IsStringText token.entry.text.now string → ⊥) }
    ensures end { IfErr result (λ error. is_end error ≡ false) }
    ensures same { OnErr result (octets.new.items ≡ octets.old.items) }
{
    if token.text.len() <= STRING_MOST && token.is_plain() {
        return append_counted(token, octets);
    }
    append_escaped(token.text, octets)
}

/// The same for any text. It is not inlined, so the case above stays short.
#[inline(never)]
fn append_escaped(text: &[u8], octets: &mut Vec<u8>) -> Result<(), EntryError>
    ensures ok { OnOk result ((string : List ℕ) × IsStringText text.now string × (octets.new.items ≡ octets.old.items ++ string_wire string)) }
    ensures err { IfErr result (λ error. is_memory error ≡ false → (string : List ℕ) → IsStringText text.now string → ⊥) }
    ensures end { IfErr result (λ error. is_end error ≡ false) }
    ensures same { OnErr result (octets.new.items ≡ octets.old.items) }
{
    let len = octets.len();
    let appended = append_spelled(text, octets);
    if appended.is_err() {
        octets.truncate(len);
    }
    appended
}

/// The same symbol by symbol. If it fails, it may have appended a part. The length is written once it is known.
fn append_spelled(text: &[u8], octets: &mut Vec<u8>) -> Result<(), EntryError>
    ensures ok { OnOk result ((string : List ℕ) × IsStringText text.now string × (octets.new.items ≡ octets.old.items ++ string_wire string)) }
    ensures err { IfErr result (λ error. is_memory error ≡ false → (string : List ℕ) → IsStringText text.now string → ⊥) }
    ensures end { IfErr result (λ error. is_end error ≡ false) }
    ensures front { take (length octets.old.items) octets.new.items ≡ octets.old.items }
{
    let place = octets.len();
    match octets.push(0) {
        Ok(()) => {}
        Err(_) => return Err(EntryError::OutOfMemory),
    }
    append_symbols(text, octets)?;
    let len = octets.len() - place - 1;
    if len > STRING_MOST {
        return Err(EntryError::Custom("long character string"));
    }
    octets[place] = len as u8;
    Ok(())
}

/// Appends the octets of the token's text after their number. Fails with `OutOfMemory` if out of memory, and then appends
/// nothing.
fn append_counted(token: RowToken<'_>, octets: &mut Vec<u8>) -> Result<(), EntryError>
    requires { length token.text.now ≤ 255 }
    ensures ok { OnOk result (octets.new.items ≡ octets.old.items ++ string_wire token.entry.text.now) }
    ensures err { IfErr result (λ error. (is_memory error ≡ true) × (is_end error ≡ false)) }
    ensures same { OnErr result (octets.new.items ≡ octets.old.items) }
{
    let len = octets.len();
    if append_parts(token, octets).is_err() {
        octets.truncate(len);
        return Err(EntryError::OutOfMemory);
    }
    Ok(())
}

/// The same, but if out of memory it may have appended a part.
fn append_parts(token: RowToken<'_>, octets: &mut Vec<u8>) -> Result<(), AllocError>
    requires { length token.text.now ≤ 255 }
    ensures ok { OnOk result (octets.new.items ≡ octets.old.items ++ string_wire token.entry.text.now) }
    ensures front { take (length octets.old.items) octets.new.items ≡ octets.old.items }
{
    octets.push(token.text.len() as u8)?;
    append_longer(token.text, token.from, 0, octets)
}
