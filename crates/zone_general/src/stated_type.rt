//! Which type the record of a row has.
ghost use Rattle.std.specs.Prelude.{◌≡◌, ◌↔◌, IsTrue, IfSome, IfNone, None, Some, codes, is_some};
ghost use Rattle.dns_values.specs.Mnemonic.{type_read};
ghost use Rattle.dns_field_texts.specs.TypeWords.{type_word_read};
ghost use Rattle.dns_entry_scanner.specs.TokenSpan.{token_in};
ghost use Rattle.dns_zonefile.specs.Statement.{IsDirective};
ghost use Rattle.zone_general.specs.LongerRow.{IsNoTypeWord, IsTypeWord};
ghost use Rattle.zone_general.specs.Seen.{HasNoType, HasTypeAt, row_in};

use crate::found_row::FoundRow;
use dns_field_texts::{frequent_type, read_type};
use dns_name::Rtype;
use dns_zonefile::TokenSpan;

/// The type that a row states, and which of its tokens does.
#[derive(Clone, Copy, Debug)]
pub struct RowType {
    /// The index of the token.
    pub index: usize,
    /// The number of the type.
    pub rtype: u16,
    /// Whether zone readers that know no further types know its word.
    pub known: bool,
}

/// Returns the type of the record that the row states: that of the first token behind the owner that is a word for a type.
/// Returns None if there is none, and if the row is a directive.
#[inline(always)]
pub fn row_type(row: FoundRow<'_>) -> Option<RowType>
    ensures some { IfSome result (HasTypeAt (row_in row.entry)) }
    ensures none { IfNone result (HasNoType (row_in row.entry)) }
{
    if is_directive(row) {
        return None;
    }
    for index in usize::from(!row.blank_led)..row.spans.len() {
        if let Some(word) = word_type(row.text, &row.spans[index]) {
            return Some(RowType {
                index,
                rtype: word.rtype.to_int(),
                known: word.known,
            });
        }
    }
    None
}

/// Returns whether the row is a directive: it does not begin with white space, and its first token begins with `$`.
fn is_directive(row: FoundRow<'_>) -> bool
    ensures { IsTrue result ↔ IsDirective (row_in row.entry) }
{
    match row.spans.split_first() {
        Some((first, _)) => {
            !row.blank_led && !first.is_quoted() && first.text(row.text).starts_with(b"$")
        }
        None => false,
    }
}

/// A word for a type.
#[derive(Clone, Copy)]
struct TypeWord {
    rtype: Rtype,
    /// Whether zone readers that know no further types know the word.
    known: bool,
}

/// Returns the type that the token is a word for.
#[inline(always)]
fn word_type(text: &[u8], span: &TokenSpan) -> Option<TypeWord>
    ensures some { IfSome result (λ word. IsTypeWord word.rtype (token_in text.now span.now)
        × (word.known ≡ is_some (type_read (token_in text.now span.now).text))) }
    ensures none { IfNone result (IsNoTypeWord (token_in text.now span.now)) }
{
    if span.is_quoted() {
        return None;
    }
    type_of(span.text(text))
}

/// Returns the type that the word is for. Most words before the type of a row, and most types, need no search of the tables.
#[tactic(auto, using(crate::proofs::TypeOf::known_type))]
fn type_of(word: &[u8]) -> Option<TypeWord>
    ensures some { IfSome result (λ found. (type_word_read word.now ≡ Some found.rtype) × (found.known ≡ is_some (type_read word.now))) }
    ensures none { IfNone result (type_word_read word.now ≡ None) }
{
    if is_before_type(word) {
        return None;
    }
    if let Some(rtype) = frequent_type(word) {
        return Some(TypeWord { rtype, known: true });
    }
    if let Some(rtype) = Rtype::from_bytes(word) {
        return Some(TypeWord { rtype, known: true });
    }
    match read_type(word) {
        Some(rtype) => Some(TypeWord {
            rtype,
            known: false,
        }),
        None => None,
    }
}

/// Returns whether the word is the class IN, or begins with a digit, as a TTL does. Such a word is for no type.
#[tactic(auto, using(crate::proofs::TypeOf::class_first))]
fn is_before_type(word: &[u8]) -> bool
    ensures { IsTrue result → type_word_read word.now ≡ None }
{
    begins_with_digit(word) || is_internet(word)
}

/// Returns whether the word begins with a digit. Such a word is for no type.
fn begins_with_digit(word: &[u8]) -> bool
    ensures { IsTrue result → type_word_read word.now ≡ None }
{
    match word.split_first() {
        Some((first, _)) => first.is_ascii_digit(),
        None => false,
    }
}

/// Returns whether the word is the class IN, in upper case.
fn is_internet(word: &[u8]) -> bool
    ensures { IsTrue result ↔ (word.now ≡ codes "IN") }
{
    matches!(word, [b'I', b'N'])
}
