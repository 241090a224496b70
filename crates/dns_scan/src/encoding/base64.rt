//! Base 64 with padding to a multiple of four characters (RFC 4648 4). Bits that are left over are ignored.
ghost use Rattle.std.specs.Prelude.{◌≡◌, List, ℕ, [], false, IfOk, IfErr, OnErr, string_bytes};
ghost use Rattle.std.specs.Str.{chars};
ghost use Rattle.dns_scan.specs.Encodings.{encoded_64, Decodes64};
ghost use Rattle.dns_scan.specs.Decoding.{WhyNoText};
ghost use Rattle.dns_scan.specs.Token.{IsEntry, IsWord, IsEnding, SameNames};
ghost use Rattle.dns_scan.specs.declared.encoding.base.Base.TheVariants.{SixtyFour};

use super::{Base, DecodeError, DisplayEncoded, Encoding, decoder, entry, symbol_converter};
use crate::Scanner;
use dns_name::{EmptyBuilder, FromBuilder, Octets};
use std::alloc::{AllocError, Global};

/// The type that stands for this encoding.
#[derive(Debug)]
pub struct Base64;

impl Encoding for Base64 {
    ghost BASE = { SixtyFour };

    const BASE: Base = Base::SixtyFour;
}

/// A decoder of base 64.
pub type Decoder<Builder> = decoder::Decoder<Base64, Builder>;

/// A converter of the symbols of a text in base 64.
pub type SymbolConverter = symbol_converter::SymbolConverter<Base64>;

/// Decodes a text to its octets.
///
/// Fails with `IllegalChar` at the first character that is not in the alphabet, with `TrailingInput` after the padding,
/// with `ShortInput` if the text ends within a group of characters or before its padding, and with `ShortBuf` if there
/// is no room or no memory for the octets.
pub fn decode<Octs: FromBuilder>(alloc: Global, text: &str) -> Result<Octs, DecodeError>
where
    Octs::Builder: EmptyBuilder + Drop,
    ensures ok { IfOk result (λ octets. Decodes64 (chars text.now) (Octs.list octets)) }
    ensures err { IfErr result (WhyNoText SixtyFour (chars text.now)) }
{
    decoder::decode::<Base64, Octs>(alloc, text)
}

/// Returns what shows the octets, with padding.
pub fn display(octets: &[u8]) -> DisplayEncoded<'_>
    ensures { result ≡ encoded_64 octets.now }
{
    DisplayEncoded::of(Base::SixtyFour, octets)
}

/// Returns the text of the octets, with padding. Fails if out of memory.
pub fn encode_string(alloc: Global, octets: &[u8]) -> Result<String, AllocError>
    ensures { IfOk result (λ text. string_bytes text ≡ encoded_64 octets.now) }
{
    display(octets).to_string(alloc)
}

/// Decodes all words that are left in an entry, joined to one text, which may be empty.
///
/// Fails as `decode` does, and if a token is no word; the tokens left are then a suffix of those left before.
pub fn scan_entry<S: Scanner>(scanner: &mut S) -> Result<S::Octets, S::Error>
    ensures ok { IfOk result (λ octets. (text : List ℕ) × IsEntry IsWord (S.tokens scanner.old) text
        × Decodes64 (chars text) (⟦<S::Octets as Octets>⟧.list octets) × (S.tokens scanner.new ≡ [])) }
    ensures err { IfErr result (λ error. S.Error.is_short error ≡ false → (text octets : List ℕ) → IsEntry IsWord (S.tokens scanner.old) text
        → Decodes64 (chars text) octets → ⊥) }
    ensures end { IfErr result (λ error. S.Error.is_short error ≡ false → S.Error.is_end error ≡ false) }
    ensures left { OnErr result (IsEnding (S.tokens scanner.new) (S.tokens scanner.old)) }
    ensures names { SameNames (S.names scanner.old) (S.names scanner.new) }
{
    entry::scan_entry::<Base64, S>(scanner)
}
