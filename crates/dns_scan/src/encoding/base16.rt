//! Base 16 (RFC 4648 8): two characters for an octet, in upper or lower case.
ghost use Rattle.std.specs.Prelude.{◌≡◌, ◌++◌, List, ℕ, [], false, length, take, IfOk, IfErr, OnOk, OnErr, string_bytes};
ghost use Rattle.std.specs.Str.{chars};
ghost use Rattle.dns_scan.specs.Encodings.{encoded_16, Decodes16};
ghost use Rattle.dns_scan.specs.Decoding.{WhyNoText};
ghost use Rattle.dns_scan.specs.Token.{IsEntry, IsWord, IsEnding, SameNames};
ghost use Rattle.dns_scan.specs.declared.encoding.base.Base.TheVariants.{Sixteen};

use super::hex_digits::{PIECE_LEN, write_digits};
use super::{Base, DecodeError, DisplayEncoded, Encoding, decoder, entry, symbol_converter};
use crate::Scanner;
use dns_name::{EmptyBuilder, FromBuilder, Octets};
use std::alloc::{AllocError, Global};

/// The type that stands for this encoding.
#[derive(Debug)]
pub struct Base16;

impl Encoding for Base16 {
    ghost BASE = { Sixteen };

    const BASE: Base = Base::Sixteen;
}

/// A decoder of base 16.
pub type Decoder<Builder> = decoder::Decoder<Base16, Builder>;

/// A converter of the symbols of a text in base 16.
pub type SymbolConverter = symbol_converter::SymbolConverter<Base16>;

/// Decodes a text to its octets.
///
/// Fails with `IllegalChar` at the first character that is not in the alphabet, with `ShortInput` if the text ends
/// within a group of characters, and with `ShortBuf` if there is no room or no memory for the octets.
pub fn decode<Octs: FromBuilder>(alloc: Global, text: &str) -> Result<Octs, DecodeError>
where
    Octs::Builder: EmptyBuilder + Drop,
    ensures ok { IfOk result (λ octets. Decodes16 (chars text.now) (Octs.list octets)) }
    ensures err { IfErr result (WhyNoText Sixteen (chars text.now)) }
{
    decoder::decode::<Base16, Octs>(alloc, text)
}

/// Returns what shows the octets, in capitals.
pub fn display(octets: &[u8]) -> DisplayEncoded<'_>
    ensures { result ≡ encoded_16 octets.now }
{
    DisplayEncoded::of(Base::Sixteen, octets)
}

/// Returns the text of the octets, in capitals. Fails if out of memory.
pub fn encode_string(alloc: Global, octets: &[u8]) -> Result<String, AllocError>
    ensures { IfOk result (λ text. string_bytes text ≡ encoded_16 octets.now) }
{
    display(octets).to_string(alloc)
}

/// Appends the text of the octets, in capitals. Fails if out of memory, and then changes nothing.
pub fn append(octets: &[u8], text: &mut Vec<u8>) -> Result<(), AllocError>
    ensures ok { OnOk result (text.new.items ≡ text.old.items ++ encoded_16 octets.now) }
    ensures same { OnErr result (text.new.items ≡ text.old.items) }
{
    let len = text.len();
    match append_digits(octets, text) {
        Ok(()) => Ok(()),
        Err(error) => {
            text.truncate(len);
            Err(error)
        }
    }
}

/// Appends the digits of the octets. If it fails, it may have appended some of them.
fn append_digits(octets: &[u8], text: &mut Vec<u8>) -> Result<(), AllocError>
    ensures ok { OnOk result (text.new.items ≡ text.old.items ++ encoded_16 octets.now) }
    ensures front { take (length text.old.items) text.new.items ≡ text.old.items }
{
    let mut digits = [0; 2 * PIECE_LEN];
    let mut left = octets;
    while !left.is_empty() {
        let (piece, behind) = left.split_at(left.len().min(PIECE_LEN));
        write_digits(piece, &mut digits);
        text.extend_from_slice(&digits[..2 * piece.len()])?;
        left = behind;
    }
    Ok(())
}

/// Decodes all words that are left in an entry, joined to one text, which may be empty.
///
/// Fails as `decode` does, and if a token is no word; the tokens left are then a suffix of those left before.
pub fn scan_entry<S: Scanner>(scanner: &mut S) -> Result<S::Octets, S::Error>
    ensures ok { IfOk result (λ octets. (text : List ℕ) × IsEntry IsWord (S.tokens scanner.old) text
        × Decodes16 (chars text) (⟦<S::Octets as Octets>⟧.list octets) × (S.tokens scanner.new ≡ [])) }
    ensures err { IfErr result (λ error. S.Error.is_short error ≡ false → (text octets : List ℕ) → IsEntry IsWord (S.tokens scanner.old) text
        → Decodes16 (chars text) octets → ⊥) }
    ensures end { IfErr result (λ error. S.Error.is_short error ≡ false → S.Error.is_end error ≡ false) }
    ensures left { OnErr result (IsEnding (S.tokens scanner.new) (S.tokens scanner.old)) }
    ensures names { SameNames (S.names scanner.old) (S.names scanner.new) }
{
    entry::scan_entry::<Base16, S>(scanner)
}
