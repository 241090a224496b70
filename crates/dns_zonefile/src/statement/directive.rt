//! Directives (RFC 1035 5.1, RFC 2308 4).
ghost use Rattle.std.specs.Prelude.{◌≡◌, ◌∷◌, ℕ, List, true, false, map, drop, IfOk, IfErr, IfSome, IfNone, IsTrue};
ghost use Rattle.std.specs.Char.{to_ascii_lowercase};
ghost use Rattle.dns_scan.specs.Token.{Token, SameNames, Takes, unquoted};
ghost use Rattle.dns_zonefile.specs.Directive.{HasArguments, BeginsDirective, IsWordOf, word_of as spec_word_of};
ghost use Rattle.dns_zonefile.specs.Statement as spec;
ghost use Rattle.dns_zonefile.specs.Statement.{Directs};
ghost use Rattle.dns_zonefile.specs.Seen.{statement_of};

use super::Statement;
use dns_entry_scanner::EntryScanner;
use dns_name::{ToName, Ttl};
use dns_text::{Scan, Scanner, ScannerError};

/// The word of a directive.
#[derive(Clone, Copy)]
pub(crate) enum DirectiveWord {
    Origin,
    Ttl,
    Include,
}

/// Returns whether the next token begins a directive: unquoted, with a plain dollar sign.
#[tactic(auto, using(crate::proofs::Directions::begins, crate::proofs::Directions::begins_not, crate::proofs::Directions::begins_nothing))]
pub(crate) fn is_directive<S: EntryScanner>(scanner: &S) -> bool
where
    S::Error: Drop,
    ensures yes { IsTrue result → BeginsDirective (S.tokens scanner.now) }
    ensures no { result ≡ false → BeginsDirective (S.tokens scanner.now) → ⊥ }
{
    match bare_text(scanner) {
        Some(text) => begins_with_dollar(text),
        None => false,
    }
}

/// Returns whether the text begins with a dollar sign.
fn begins_with_dollar(text: &[u8]) -> bool
    ensures yes { IsTrue result → (rest : List ℕ) × (text.now ≡ 36 ∷ rest) }
    ensures no { result ≡ false → (rest : List ℕ) → text.now ≡ 36 ∷ rest → ⊥ }
{
    match text.split_first() {
        Some((&first, _)) => first == b'$',
        None => false,
    }
}

/// Returns the text of the next token, if there is one and it is unquoted.
#[tactic(auto, using(crate::proofs::Directions::quoted_not_bare))]
fn bare_text<S: EntryScanner>(scanner: &S) -> Option<&[u8]>
where
    S::Error: Drop,
    ensures some { IfSome result (λ text. (left : List Token) × (S.tokens scanner.now ≡ unquoted text.now ∷ left)) }
    ensures none { IfNone result ((text : List ℕ) (left : List Token) → S.tokens scanner.now ≡ unquoted text ∷ left → ⊥) }
{
    if scanner.next_is_quoted() {
        return None;
    }
    scanner.peek_text().ok()
}

/// Reads what a directive says. Fails with an error other than `short_buf` only if it says nothing.
#[tactic(auto, using(crate::proofs::Directions::no_word, crate::proofs::Directions::more_argued))]
pub(crate) fn scan_directive<S: EntryScanner>(
    scanner: &mut S,
) -> Result<Statement<S::Octets, S::Name>, S::Error>
where
    S::Name: Drop,
    S::Error: Drop,
    requires { BeginsDirective (S.tokens scanner.old) }
    ensures ok { IfOk result (λ statement. Directs (S.names scanner.old) (S.tokens scanner.old) (statement_of ⟦<S::Name as ToName>⟧.name statement)) }
    ensures err { IfErr result (λ error. S.Error.is_short error ≡ false → (statement : spec.Statement)
        → Directs (S.names scanner.old) (S.tokens scanner.old) statement → ⊥) }
{
    let Some(word) = directive_word(scanner) else {
        return Err(S::Error::custom("unknown directive"));
    };
    scanner.skip_token();
    let statement = scan_argument(word, scanner)?;
    if scanner.continues() {
        return Err(S::Error::trailing_tokens());
    }
    Ok(statement)
}

/// Returns the directive word in the next token, up to ASCII case.
fn directive_word<S: EntryScanner>(scanner: &S) -> Option<DirectiveWord>
where
    S::Error: Drop,
    ensures some { IfSome result (λ word. Takes (IsWordOf word) (S.tokens scanner.now) (drop 1 (S.tokens scanner.now))) }
    ensures none { IfNone result ((word : DirectiveWord) (left : List Token) → Takes (IsWordOf word) (S.tokens scanner.now) left → ⊥) }
{
    match scanner.peek_text() {
        Ok(text) => word_of(text),
        Err(_) => None,
    }
}

/// Reads what follows the word of a directive.
#[tactic(auto, using(crate::proofs::Directions::origin_argued, crate::proofs::Directions::ttl_argued))]
fn scan_argument<S: EntryScanner>(
    word: DirectiveWord,
    scanner: &mut S,
) -> Result<Statement<S::Octets, S::Name>, S::Error>
where
    S::Name: Drop,
    S::Error: Drop,
    ensures ok { IfOk result (λ statement. HasArguments (S.names scanner.old) word (S.tokens scanner.old) (statement_of ⟦<S::Name as ToName>⟧.name statement)
        (S.tokens scanner.new)) }
    ensures err { IfErr result (λ error. S.Error.is_short error ≡ false → (statement : spec.Statement) (left : List Token)
        → HasArguments (S.names scanner.old) word (S.tokens scanner.old) statement left → ⊥) }
    ensures names { SameNames (S.names scanner.old) (S.names scanner.new) }
{
    match word {
        DirectiveWord::Origin => Ok(Statement::SetOrigin(scanner.scan_name()?)),
        DirectiveWord::Ttl => Ok(Statement::SetTtl(Ttl::scan(scanner)?)),
        DirectiveWord::Include => scan_file(scanner),
    }
}

/// Reads the path of a file, and the origin for it, if one is stated.
fn scan_file<S: EntryScanner>(scanner: &mut S) -> Result<Statement<S::Octets, S::Name>, S::Error>
where
    S::Name: Drop,
    S::Error: Drop,
    ensures ok { IfOk result (λ statement. HasArguments (S.names scanner.old) DirectiveWord.Include (S.tokens scanner.old)
        (statement_of ⟦<S::Name as ToName>⟧.name statement) (S.tokens scanner.new)) }
    ensures err { IfErr result (λ error. S.Error.is_short error ≡ false → (statement : spec.Statement) (left : List Token)
        → HasArguments (S.names scanner.old) DirectiveWord.Include (S.tokens scanner.old) statement left → ⊥) }
    ensures names { SameNames (S.names scanner.old) (S.names scanner.new) }
{
    let Some(_text) = bare_text(scanner) else {
        return Err(S::Error::custom("unquoted path expected"));
    };
    let path = scanner.scan_string()?;
    if !path.is_ascii() {
        return Err(S::Error::custom("path that is not ASCII"));
    }
    if !scanner.continues() {
        return Ok(Statement::NameFile(path, None));
    }
    let origin = scanner.scan_name()?;
    Ok(Statement::NameFile(path, Some(origin)))
}

/// Returns the directive with this word, up to ASCII case.
fn word_of(text: &[u8]) -> Option<DirectiveWord>
    ensures some { IfSome result (λ word. map to_ascii_lowercase text.now ≡ spec_word_of word) }
    ensures none { IfNone result ((word : DirectiveWord) → map to_ascii_lowercase text.now ≡ spec_word_of word → ⊥) }
{
    if text.eq_ignore_ascii_case(b"$origin") {
        return Some(DirectiveWord::Origin);
    }
    if text.eq_ignore_ascii_case(b"$ttl") {
        return Some(DirectiveWord::Ttl);
    }
    if text.eq_ignore_ascii_case(b"$include") {
        return Some(DirectiveWord::Include);
    }
    None
}
