//! Scanning service parameters (RFC 9460 2.1).
ghost use Rattle.std.specs.Prelude.{◌≡◌, ◌<◌, ◌≤◌, ◌^◌, ◌++◌, [], List, ℕ, length, false, All, Any, IfErr, IfOk, OnOk};
ghost use Rattle.dns_scan.specs.StringText.{Spells};
ghost use Rattle.dns_scan.specs.Token.{SameNames, Token};
ghost use Rattle.std.specs.List.{flat_map};
ghost use Rattle.dns_service_parameters.specs.Service.{Parameter};
ghost use Rattle.dns_service_parameters.specs.ServiceRead.{AreWritten, NoParameter, NoParameters, ReadsNoValue, ReadsValue, TakesKey, TakesParameter, written_octets};
ghost use Rattle.dns_service_parameters.specs.ServiceText.{AppendsParameters, ScansParameters, TakesQuoted};
ghost use Rattle.dns_field_texts.specs.Appended.{GoesOn};

use crate::check::{are_parameters, is_value};
use crate::keys::{KeyWord, form_at, read_key};
use crate::values::append_value;
use dns_entry_scanner::EntryScanner;
use dns_field_texts::{append_octets, split_first};
use dns_name::Symbol;
use dns_text::ScannerError;
use std::alloc::Global;

/// Scans all tokens that are left as service parameters, and appends their octets, ascending by their keys.
///
/// Fails with an error other than `short_buf` only if the tokens are no parameters. It may then have appended some
/// octets.
pub fn scan_parameters_into<S: EntryScanner>(
    scanner: &mut S,
    octets: &mut Vec<u8>,
) -> Result<(), S::Error>
    ensures ok { OnOk result (AppendsParameters (S.tokens scanner.old) (S.tokens scanner.new) octets.old.items octets.new.items) }
    ensures err { IfErr result (λ error.
        S.Error.is_short error ≡ false → (parameters : List Parameter) → ScansParameters parameters (S.tokens scanner.old) → ⊥) }
    ensures names { SameNames (S.names scanner.old) (S.names scanner.new) }
    ensures more { GoesOn octets.old.items octets.new.items }
{
    let mut parameters = scan_each(scanner, *octets.allocator())?;
    parameters.sort_unstable_by_key(|parameter: &Written| parameter.key);
    let before = octets.len();
    append_parameters(&parameters, octets)?;
    if are_parameters(&octets[before..]) {
        Ok(())
    } else {
        Err(S::Error::custom("bad service parameters"))
    }
}

/// Scans all tokens that are left as parameters, in their order.
fn scan_each<S: EntryScanner>(scanner: &mut S, alloc: Global) -> Result<Vec<Written>, S::Error>
    ensures ok { IfOk result (λ parameters. AreWritten (S.tokens scanner.old) parameters.items × (S.tokens scanner.new ≡ [])) }
    ensures err { IfErr result (λ error. S.Error.is_short error ≡ false → NoParameters (S.tokens scanner.old)) }
    ensures names { SameNames (S.names scanner.old) (S.names scanner.new) }
{
    let mut parameters = Vec::new(alloc);
    while scanner.continues() {
        let parameter = scan_parameter(scanner, alloc)?;
        if parameters.push(parameter).is_err() {
            return Err(S::Error::short_buf());
        }
    }
    Ok(parameters)
}

/// A key and the octets of its value.
#[derive(Drop)]
struct Written {
    key: u16,
    value: Vec<u8>,
}

/// Appends the octets of parameters: of each its key, the length of its value, and its value.
fn append_parameters<Error: ScannerError>(
    parameters: &[Written],
    octets: &mut Vec<u8>,
) -> Result<(), Error>
    ensures ok { OnOk result (octets.new.items ≡ octets.old.items ++ flat_map written_octets parameters.now) }
    ensures short { OnOk result (All (λ parameter. length parameter.value.items < 2 ^ 16) parameters.now) }
    ensures err { IfErr result (λ error.
        Error.is_short error ≡ false → Any (λ parameter. 2 ^ 16 ≤ length parameter.value.items) parameters.now) }
    ensures more { GoesOn octets.old.items octets.new.items }
{
    for parameter in parameters {
        let Ok(len) = u16::try_from(parameter.value.len()) else {
            return Err(Error::custom("long value"));
        };
        append_octets(&parameter.key.to_be_bytes(), octets)?;
        append_octets(&len.to_be_bytes(), octets)?;
        append_octets(&parameter.value, octets)?;
    }
    Ok(())
}

/// Scans a parameter.
fn scan_parameter<S: EntryScanner>(scanner: &mut S, alloc: Global) -> Result<Written, S::Error>
    ensures ok { IfOk result (TakesParameter (S.tokens scanner.old) (S.tokens scanner.new)) }
    ensures err { IfErr result (λ error. S.Error.is_short error ≡ false → NoParameter (S.tokens scanner.old)) }
    ensures names { SameNames (S.names scanner.old) (S.names scanner.new) }
{
    let mut text = Vec::new(alloc);
    let word = scan_key(scanner, &mut text)?;
    let value = read_value(word, text)?;
    Ok(Written {
        key: word.key,
        value,
    })
}

/// Scans the word of a key and appends the text of its value, whose escapes are decoded.
fn scan_key<S: EntryScanner>(scanner: &mut S, text: &mut Vec<u8>) -> Result<KeyWord, S::Error>
    requires { text.old.items ≡ [] }
    ensures ok { IfOk result (λ key. TakesKey (S.tokens scanner.old) (S.tokens scanner.new) key text.new.items) }
    ensures err { IfErr result (λ error. S.Error.is_short error ≡ false → NoParameter (S.tokens scanner.old)) }
    ensures names { SameNames (S.names scanner.old) (S.names scanner.new) }
{
    if scanner.next_is_quoted() {
        return Err(S::Error::custom("quoted key"));
    }
    let (word, written) = split_first(scanner.peek_text()?, b'=');
    let Some(key) = read_key(word) else {
        return Err(S::Error::custom("unknown key"));
    };
    match written {
        None => scanner.skip_token(),
        Some(written) => {
            if written.is_empty() {
                scanner.skip_token();
                scan_quoted(scanner, text)?;
            } else {
                read_text(written, text)?;
                scanner.skip_token();
            }
        }
    }
    Ok(key)
}

/// Scans the next token if it is quoted, and appends the octets that it spells.
fn scan_quoted<S: EntryScanner>(scanner: &mut S, octets: &mut Vec<u8>) -> Result<(), S::Error>
    ensures ok { OnOk result ((new : List ℕ) × TakesQuoted new (S.tokens scanner.old) (S.tokens scanner.new)
        × (octets.new.items ≡ octets.old.items ++ new)) }
    ensures err { IfErr result (λ error. S.Error.is_short error ≡ false
        → (new : List ℕ) (left : List Token) → TakesQuoted new (S.tokens scanner.old) left → ⊥) }
    ensures names { SameNames (S.names scanner.old) (S.names scanner.new) }
    ensures more { GoesOn octets.old.items octets.new.items }
{
    if scanner.next_is_quoted() {
        read_text(scanner.peek_text()?, octets)?;
        scanner.skip_token();
    }
    Ok(())
}

/// Returns the octets of the value of a key that a text writes.
fn read_value<Error: ScannerError>(key: KeyWord, text: Vec<u8>) -> Result<Vec<u8>, Error>
    ensures ok { IfOk result (λ value. ReadsValue key text.items value.items) }
    ensures err { IfErr result (λ error. Error.is_short error ≡ false → ReadsNoValue key text.items) }
{
    let form = form_at(key.key);
    if !key.named {
        if is_value(form, &text) {
            return Ok(text);
        }
        return Err(Error::custom("bad value"));
    }
    let mut value = Vec::new(*text.allocator());
    append_value(form, &text, &mut value)?;
    Ok(value)
}

/// Appends the octets that the symbols of a text stand for.
fn read_text<Error: ScannerError>(text: &[u8], octets: &mut Vec<u8>) -> Result<(), Error>
    ensures ok { OnOk result ((new : List ℕ) × Spells text.now new × (octets.new.items ≡ octets.old.items ++ new)) }
    ensures err { IfErr result (λ error. Error.is_short error ≡ false → (new : List ℕ) → Spells text.now new → ⊥) }
    ensures more { GoesOn octets.old.items octets.new.items }
{
    let mut rest = text;
    while !rest.is_empty() {
        let Some((symbol, behind)) = Symbol::split_from(rest) else {
            return Err(Error::custom("bad symbol"));
        };
        let Ok(octet) = symbol.into_octet() else {
            return Err(Error::custom("bad symbol"));
        };
        match octets.push(octet) {
            Ok(()) => rest = behind,
            Err(_) => return Err(Error::short_buf()),
        }
    }
    Ok(())
}
