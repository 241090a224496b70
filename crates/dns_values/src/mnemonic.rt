//! Words for numbers of 16 bits: a mnemonic of a table, or a prefix and the number.
ghost use Rattle.std.specs.Prelude.{◌≡◌, ◌^◌, ◌↔◌, IsTrue, map};
ghost use Rattle.std.specs.Char.{is_ascii_digit, to_ascii_lowercase};
ghost use Rattle.std.specs.List.{list_all};
ghost use Rattle.std.specs.Option.{option_copied};
ghost use Rattle.dns_values.specs.Mnemonic as word_of;

use std::str;

/// A number and its mnemonic.
pub(crate) type Mnemonic = (u16, &'static str);

/// Returns the number that a word stands for: that of the mnemonic, or the number after the prefix, both up to ASCII
/// case (RFC 3597, section 5).
#[tactic(auto, unfolding(crate::specs::Mnemonic::number_read))]
pub(crate) fn number_read(table: &[Mnemonic], prefix: &str, word: &[u8]) -> Option<u16>
    ensures { result ≡ word_of.number_read (word_of.rows_of table.now) prefix.now word.now }
{
    number_behind(prefix.as_bytes(), word).or_else(|| number_named(table, word))
}

/// Returns the number whose mnemonic is the word, up to ASCII case.
#[tactic(auto, using(crate::proofs::Words::named_rules))]
fn number_named(table: &[Mnemonic], word: &[u8]) -> Option<u16>
    ensures { result ≡ word_of.number_named (word_of.rows_of table.now) word.now }
{
    for row in table {
        if is_named_by(word, row.1) {
            return Some(row.0);
        }
    }
    None
}

/// Returns whether the word is the mnemonic, up to ASCII case. It looks at the length and the last octet first, because
/// most mnemonics differ there.
fn is_named_by(word: &[u8], mnemonic: &str) -> bool
    ensures { IsTrue result ↔ (map to_ascii_lowercase mnemonic.now ≡ map to_ascii_lowercase word.now) }
{
    let mnemonic = mnemonic.as_bytes();
    mnemonic.len() == word.len()
        && has_same_end(mnemonic, word)
        && mnemonic.eq_ignore_ascii_case(word)
}

/// Returns whether the last octets are equal up to ASCII case; a word without octets has the same end as any other.
fn has_same_end(word: &[u8], other: &[u8]) -> bool
    ensures { map to_ascii_lowercase word.now ≡ map to_ascii_lowercase other.now → IsTrue result }
{
    match (word.last(), other.last()) {
        (Some(last), Some(other_last)) => last.eq_ignore_ascii_case(other_last),
        _ => true,
    }
}

/// Returns the number after the prefix, which is compared up to ASCII case.
#[tactic(auto, using(crate::proofs::Words::behind_rules))]
fn number_behind(prefix: &[u8], word: &[u8]) -> Option<u16>
    ensures { result ≡ word_of.number_behind prefix.now word.now }
{
    if word.len() < prefix.len() {
        return None;
    }
    let (front, digits) = word.split_at(prefix.len());
    if prefix.eq_ignore_ascii_case(front) {
        short_number_spelled(digits)
    } else {
        None
    }
}

/// Returns the number of 16 bits that these digits spell. A sign is no digit.
#[tactic(auto, using(crate::proofs::Words::short_rules))]
fn short_number_spelled(digits: &[u8]) -> Option<u16>
    ensures { result ≡ word_of.number_spelled 65536 digits.now }
{
    match number_spelled(digits) {
        Some(number) => u16::try_from(number).ok(),
        None => None,
    }
}

/// Returns the number of 32 bits that these digits spell. A sign is no digit.
#[tactic(auto, using(crate::proofs::Words::spelled_rules))]
pub(crate) fn number_spelled(digits: &[u8]) -> Option<u32>
    ensures { result ≡ word_of.number_spelled (2 ^ 32) digits.now }
{
    if !is_digits(digits) {
        return None;
    }
    // Digits are ASCII.
    let text = unsafe { str::from_utf8_unchecked(digits) };
    text.parse().ok()
}

/// Returns whether all octets are decimal digits.
fn is_digits(octets: &[u8]) -> bool
    ensures { result ≡ list_all is_ascii_digit octets.now }
{
    octets.iter().all(u8::is_ascii_digit)
}

/// Returns the mnemonic of a number.
#[tactic(auto, using(crate::proofs::Words::text_rules))]
pub(crate) fn text_of(table: &[Mnemonic], number: u16) -> Option<&'static str>
    ensures { option_copied result ≡ word_of.text_of (word_of.rows_of table.now) number }
{
    for row in table {
        if row.0 == number {
            return Some(row.1);
        }
    }
    None
}
