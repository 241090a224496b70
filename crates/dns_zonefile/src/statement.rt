//! What a row says by itself, without the rows before it (RFC 1035 5.1).
ghost use Rattle.std.specs.Prelude.{◌≡◌, Bool, false, IfOk, IfErr, IsTrue};
ghost use Rattle.dns_fields.specs.SpelledNames.{SpellOne};
ghost use Rattle.dns_zonefile.specs.Directive.{BeginsDirective};
ghost use Rattle.dns_zonefile.specs.Statement as spec;
ghost use Rattle.dns_zonefile.specs.Statement.{IsDirective, Says};
ghost use Rattle.dns_zonefile.specs.Seen.{row_of, statement_of};

mod directive;
mod owner;

use directive::is_directive;
pub(crate) use directive::scan_directive;
use dns_entry_scanner::{EntryScanner, scan_head};
use dns_name::{Class, Octets, ToName, Ttl};
use dns_rdata::ZoneRecordData;
use dns_text::{Scanner, ScannerError};
pub(crate) use owner::scan_owner;

/// A record as a row states it (RFC 1035 5.1).
#[derive(Drop)]
pub struct Stated<Octs: Octets, N: ToName> {
    /// The owner. None if the row begins with white space: then it has the last owner.
    pub owner: Option<N>,
    /// The TTL, if the row states one.
    pub ttl: Option<Ttl>,
    /// The class, if the row states one.
    pub class: Option<Class>,
    /// The data. Its type is that of the record.
    pub rdata: ZoneRecordData<Octs, N>,
}

/// What a row says.
#[derive(Drop)]
pub enum Statement<Octs: Octets, N: ToName> {
    /// `$ORIGIN`.
    SetOrigin(N),
    /// `$TTL`.
    SetTtl(Ttl),
    /// `$INCLUDE`: the path of another file, and the origin for it, if one is stated.
    NameFile(String, Option<N>),
    /// A record.
    StateRecord(Stated<Octs, N>),
}

/// Reads what a row says. `blank_led` is whether it begins with white space; `scanner` is over its tokens.
///
/// Fails with an error other than `short_buf` only if it says nothing. The caller guarantees that a text spells at most
/// one name.
#[tactic(auto, using(crate::proofs::Records::says_direction, crate::proofs::Records::no_direction))]
pub fn scan_statement<S: EntryScanner>(
    blank_led: bool,
    scanner: &mut S,
) -> Result<Statement<S::Octets, S::Name>, S::Error>
where
    S::Name: Drop,
    S::Error: Drop,
    requires { SpellOne (S.names scanner.old) }
    ensures ok { IfOk result (λ statement. Says (S.names scanner.old) (row_of blank_led (S.tokens scanner.old)) (statement_of ⟦<S::Name as ToName>⟧.name statement)) }
    ensures err { IfErr result (λ error. S.Error.is_short error ≡ false → (statement : spec.Statement)
        → Says (S.names scanner.old) (row_of blank_led (S.tokens scanner.old)) statement → ⊥) }
{
    if begins_directive(blank_led, scanner) {
        return scan_directive(scanner);
    }
    scan_record(blank_led, scanner)
}

/// Returns whether the row is a directive. A row that begins with white space is none.
#[tactic(auto, using(crate::proofs::Records::led_no_directive, crate::proofs::Records::begins_no_directive))]
pub(crate) fn begins_directive<S: EntryScanner>(blank_led: bool, scanner: &S) -> bool
where
    S::Error: Drop,
    ensures yes { IsTrue result → (blank_led ≡ false) × BeginsDirective (S.tokens scanner.now) }
    ensures no { result ≡ false → IsDirective (row_of blank_led (S.tokens scanner.now)) → ⊥ }
{
    if blank_led {
        return false;
    }
    is_directive(scanner)
}

/// Reads the record that a row states. The caller guarantees that it is no directive.
fn scan_record<S: EntryScanner>(
    blank_led: bool,
    scanner: &mut S,
) -> Result<Statement<S::Octets, S::Name>, S::Error>
where
    S::Name: Drop,
    S::Error: Drop,
    requires once { SpellOne (S.names scanner.old) }
    requires bare { IsDirective (row_of blank_led (S.tokens scanner.old)) → ⊥ }
    ensures ok { IfOk result (λ statement. Says (S.names scanner.old) (row_of blank_led (S.tokens scanner.old)) (statement_of ⟦<S::Name as ToName>⟧.name statement)) }
    ensures err { IfErr result (λ error. S.Error.is_short error ≡ false → (statement : spec.Statement)
        → Says (S.names scanner.old) (row_of blank_led (S.tokens scanner.old)) statement → ⊥) }
{
    let owner = scan_owner(blank_led, scanner)?;
    let head = scan_head(scanner)?;
    let rdata = ZoneRecordData::scan(head.rtype, scanner)?;
    if scanner.continues() {
        return Err(S::Error::trailing_tokens());
    }
    Ok(Statement::StateRecord(Stated {
        owner,
        ttl: head.ttl,
        class: head.class,
        rdata,
    }))
}
