//! The part of a record's row between its owner and its data: a TTL and a class, if they are stated, and a type.
ghost use Rattle.std.specs.Prelude.{◌≡◌, ◌<◌, ◌≤◌, ◌^◌, List, ℕ, Option, Some, None, false, true, IfOk, IfErr, IfSome, IfNone, length, option_copied, take};
ghost use Rattle.std.specs.List.{list_all};
ghost use Rattle.std.specs.Char.{is_ascii_digit};
ghost use Rattle.dns_values.specs.Mnemonic.{number_spelled};
ghost use Rattle.dns_scan.specs.Token.{Token, SameNames, Takes};
ghost use Rattle.dns_entry_scanner.specs.RecordHead.{HasHead, IsClass, IsTtl, States};
ghost use Rattle.dns_entry_scanner.specs.HeadWord.{Heads, IsHeadWord};

mod frequent_word;
mod numbered_type;

use crate::EntryScanner;
use dns_name::{Class, Rtype, Ttl};
use dns_text::{Scanner, ScannerError, number_of};
use frequent_word::frequent_word;
use numbered_type::numbered_type;

/// TTL, class and type of a record, as far as its row states them.
#[derive(Clone, Copy)]
pub struct RecordHead {
    /// The TTL, if the row states one.
    pub ttl: Option<Ttl>,
    /// The class, if the row states one.
    pub class: Option<Class>,
    /// The type.
    pub rtype: Rtype,
}

/// A word before a record's data.
#[derive(Clone, Copy)]
pub(crate) enum HeadWord {
    Ttl(Ttl),
    Class(Class),
    Rtype(Rtype),
}

/// Reads the TTL and the class, if they are stated, in either order, and then the type (RFC 1035 5.1), and takes these tokens.
///
/// Fails with an error other than `short_buf` only if the tokens do not begin so. It is inlined, as are the calls that read
/// the single words: so a word is passed on without memory.
#[inline(always)]
#[tactic(auto, using(crate::proofs::Heads::no_word, crate::proofs::Heads::with_type, crate::proofs::Heads::with_ttl, crate::proofs::Heads::with_class, crate::proofs::Heads::behind_ttl, crate::proofs::Heads::behind_class))]
pub fn scan_head<S: EntryScanner>(scanner: &mut S) -> Result<RecordHead, S::Error>
    ensures ok { IfOk result (λ head. HasHead (S.tokens scanner.old) head.ttl head.class head.rtype (S.tokens scanner.new)) }
    ensures fits { IfOk result (λ head. head.rtype < 2 ^ 16) }
    ensures err { IfErr result (λ error. S.Error.is_short error ≡ false → (ttl class : Option ℕ) (rtype : ℕ) (left : List Token)
        → HasHead (S.tokens scanner.old) ttl class rtype left → ⊥) }
    ensures names { SameNames (S.names scanner.old) (S.names scanner.new) }
{
    match next_word(scanner)? {
        HeadWord::Ttl(ttl) => {
            let (class, rtype) = scan_class_and_type(scanner)?;
            Ok(RecordHead {
                ttl: Some(ttl),
                class,
                rtype,
            })
        }
        HeadWord::Class(class) => {
            let (ttl, rtype) = scan_ttl_and_type(scanner)?;
            Ok(RecordHead {
                ttl,
                class: Some(class),
                rtype,
            })
        }
        HeadWord::Rtype(rtype) => Ok(RecordHead {
            ttl: None,
            class: None,
            rtype,
        }),
    }
}

/// Reads the class, if it is stated, and the type.
#[inline(always)]
#[tactic(auto, using(crate::proofs::Heads::no_word, crate::proofs::Heads::with_type, crate::proofs::Heads::with_class, crate::proofs::Heads::behind_class, crate::proofs::Heads::no_ttl))]
fn scan_class_and_type<S: EntryScanner>(scanner: &mut S) -> Result<(Option<Class>, Rtype), S::Error>
    ensures ok { IfOk result (λ head. HasHead (S.tokens scanner.old) None head.0 head.1 (S.tokens scanner.new)) }
    ensures err { IfErr result (λ error. S.Error.is_short error ≡ false → (class : Option ℕ) (rtype : ℕ) (left : List Token)
        → HasHead (S.tokens scanner.old) None class rtype left → ⊥) }
    ensures names { SameNames (S.names scanner.old) (S.names scanner.new) }
{
    match next_word(scanner)? {
        HeadWord::Class(class) => Ok((Some(class), scan_type(scanner)?)),
        HeadWord::Rtype(rtype) => Ok((None, rtype)),
        HeadWord::Ttl(_) => Err(S::Error::custom("TTL stated twice")),
    }
}

/// Reads the TTL, if it is stated, and the type.
#[inline(always)]
#[tactic(auto, using(crate::proofs::Heads::no_word, crate::proofs::Heads::with_type, crate::proofs::Heads::with_ttl, crate::proofs::Heads::behind_ttl, crate::proofs::Heads::no_class))]
fn scan_ttl_and_type<S: EntryScanner>(scanner: &mut S) -> Result<(Option<Ttl>, Rtype), S::Error>
    ensures ok { IfOk result (λ head. HasHead (S.tokens scanner.old) head.0 None head.1 (S.tokens scanner.new)) }
    ensures err { IfErr result (λ error. S.Error.is_short error ≡ false → (ttl : Option ℕ) (rtype : ℕ) (left : List Token)
        → HasHead (S.tokens scanner.old) ttl None rtype left → ⊥) }
    ensures names { SameNames (S.names scanner.old) (S.names scanner.new) }
{
    match next_word(scanner)? {
        HeadWord::Ttl(ttl) => Ok((Some(ttl), scan_type(scanner)?)),
        HeadWord::Rtype(rtype) => Ok((None, rtype)),
        HeadWord::Class(_) => Err(S::Error::custom("class stated twice")),
    }
}

/// Reads the type.
#[inline(always)]
#[tactic(auto, using(crate::proofs::Heads::no_word, crate::proofs::Heads::with_type, crate::proofs::Heads::no_ttl, crate::proofs::Heads::no_class))]
fn scan_type<S: EntryScanner>(scanner: &mut S) -> Result<Rtype, S::Error>
    ensures ok { IfOk result (λ rtype. HasHead (S.tokens scanner.old) None None rtype (S.tokens scanner.new)) }
    ensures err { IfErr result (λ error. S.Error.is_short error ≡ false → (rtype : ℕ) (left : List Token)
        → HasHead (S.tokens scanner.old) None None rtype left → ⊥) }
    ensures names { SameNames (S.names scanner.old) (S.names scanner.new) }
{
    match next_word(scanner)? {
        HeadWord::Rtype(rtype) => Ok(rtype),
        HeadWord::Ttl(_) => Err(S::Error::custom("type expected")),
        HeadWord::Class(_) => Err(S::Error::custom("type expected")),
    }
}

/// Reads the TTL and the class, if they are stated, in either order, from exactly so many words. The caller guarantees that there are
/// as many tokens.
///
/// Fails with an error other than `short_buf` only if the words are none such.
#[inline(always)]
#[tactic(auto, using(crate::proofs::Heads::none_stated, crate::proofs::Heads::ttl_stated, crate::proofs::Heads::class_stated, crate::proofs::Heads::ttl_class_stated, crate::proofs::Heads::class_ttl_stated, crate::proofs::Heads::too_many))]
pub fn scan_stated<S: EntryScanner>(
    count: usize,
    scanner: &mut S,
) -> Result<(Option<Ttl>, Option<Class>), S::Error>
    requires { count ≤ length (S.tokens scanner.old) }
    ensures ok { IfOk result (λ stated. States (take count (S.tokens scanner.old)) stated.0 stated.1) }
    ensures err { IfErr result (λ error. S.Error.is_short error ≡ false → (ttl class : Option ℕ)
        → States (take count (S.tokens scanner.old)) ttl class → ⊥) }
{
    match count {
        0 => Ok((None, None)),
        1 => match next_word(scanner)? {
            HeadWord::Ttl(ttl) => Ok((Some(ttl), None)),
            HeadWord::Class(class) => Ok((None, Some(class))),
            HeadWord::Rtype(_) => Err(S::Error::custom("TTL or class expected")),
        },
        2 => match next_word(scanner)? {
            HeadWord::Ttl(ttl) => Ok((Some(ttl), Some(scan_class(scanner)?))),
            HeadWord::Class(class) => Ok((Some(scan_ttl(scanner)?), Some(class))),
            HeadWord::Rtype(_) => Err(S::Error::custom("TTL or class expected")),
        },
        _ => Err(S::Error::custom("type expected")),
    }
}

/// Reads a TTL.
#[inline(always)]
fn scan_ttl<S: EntryScanner>(scanner: &mut S) -> Result<Ttl, S::Error>
    ensures ok { IfOk result (λ ttl. Takes (IsTtl ttl) (S.tokens scanner.old) (S.tokens scanner.new)) }
    ensures err { IfErr result (λ error. S.Error.is_short error ≡ false → (ttl : ℕ) (left : List Token)
        → Takes (IsTtl ttl) (S.tokens scanner.old) left → ⊥) }
{
    match next_word(scanner)? {
        HeadWord::Ttl(ttl) => Ok(ttl),
        HeadWord::Class(_) => Err(S::Error::custom("TTL expected")),
        HeadWord::Rtype(_) => Err(S::Error::custom("TTL expected")),
    }
}

/// Reads a class.
#[inline(always)]
fn scan_class<S: EntryScanner>(scanner: &mut S) -> Result<Class, S::Error>
    ensures ok { IfOk result (λ class. Takes (IsClass class) (S.tokens scanner.old) (S.tokens scanner.new)) }
    ensures err { IfErr result (λ error. S.Error.is_short error ≡ false → (class : ℕ) (left : List Token)
        → Takes (IsClass class) (S.tokens scanner.old) left → ⊥) }
{
    match next_word(scanner)? {
        HeadWord::Class(class) => Ok(class),
        HeadWord::Ttl(_) => Err(S::Error::custom("class expected")),
        HeadWord::Rtype(_) => Err(S::Error::custom("class expected")),
    }
}

/// Reads one word.
#[inline(always)]
fn next_word<S: EntryScanner>(scanner: &mut S) -> Result<HeadWord, S::Error>
    ensures ok { IfOk result (λ word. Takes (IsHeadWord word) (S.tokens scanner.old) (S.tokens scanner.new)) }
    ensures err { IfErr result (λ error. S.Error.is_short error ≡ false → (word : HeadWord) (left : List Token)
        → Takes (IsHeadWord word) (S.tokens scanner.old) left → ⊥) }
    ensures names { SameNames (S.names scanner.old) (S.names scanner.new) }
{
    scanner.scan_ascii_str(word_of)
}

/// Returns what a word says: digits are a TTL; any other word is a type, and only if it is none, a class. Most words
/// are digits, the class IN, one of a few types or a type's number, so these come before the search in the mnemonics of all types.
#[inline(always)]
#[tactic(auto, using(crate::proofs::Heads::number_alone, crate::proofs::Heads::number_heads))]
fn word_of(text: &str) -> Option<HeadWord>
    ensures some { IfSome result (λ word. Heads text.now word) }
    ensures none { IfNone result ((word : HeadWord) → Heads text.now word → ⊥) }
{
    let octets = text.as_bytes();
    if let Some(seconds) = number_of(octets) {
        return Some(HeadWord::Ttl(Ttl::from_secs(seconds)));
    }
    if let Some(word) = frequent_word(octets) {
        return Some(word);
    }
    if let Some(rtype) = numbered_type(octets) {
        return Some(HeadWord::Rtype(rtype));
    }
    if are_digits(octets) {
        return None;
    }
    if let Some(rtype) = Rtype::from_bytes(octets) {
        return Some(HeadWord::Rtype(rtype));
    }
    match Class::from_bytes(octets) {
        Some(class) => Some(HeadWord::Class(class)),
        None => None,
    }
}

/// Returns whether these are decimal digits.
fn are_digits(octets: &[u8]) -> bool
    ensures { result ≡ list_all is_ascii_digit octets.now }
{
    octets.iter().all(u8::is_ascii_digit)
}
