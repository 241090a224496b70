//! Why a zone's text is refused.
ghost use Rattle.std.specs.Prelude.{◌≡◌, ◌≢◌, ℕ, List, None, true, false, drop, option_copied, IfOk, IfNone};
ghost use Rattle.dns_entry_scanner.specs.LineMark.{MarksLine};
ghost use Rattle.dns_entry_scanner.specs.Lines.{line_at};
ghost use Rattle.zone.specs.ZoneText.{IsZoneFault};
ghost use Rattle.zone_explain.specs.EntryRow.{IsFaultRow, breaks_entry, number_of};
ghost use Rattle.zone_explain.specs.Explained.{IsExplained, IsRulePlace, behind_blanks};

mod all;
mod entry_row;
mod walk;

pub use all::explain_all;
use dns_name::{Class, Name};
use dns_zonefile::LineMark;
use entry_row::{EntryRow, entry_row};
use std::alloc::{AllocError, Global};
use zone::{Zone, ZoneError};
pub use zone_reasons::{Located, Reason, Wanted};
use zone_reasons::{TokenRow, broken_row_fault};

/// The first rule that a zone's text breaks, and where.
#[derive(Debug, Drop)]
pub struct Finding {
    /// The rule, with the number of the entry that breaks it.
    pub fault: ZoneError,
    /// The token that breaks it, and why. If an entry reads but breaks it, the place is where the entry begins, after
    /// white space.
    pub located: Located,
    /// The number of the token's line, counted from 1.
    pub line: usize,
    /// The zone's apex, if a record comes before the entry.
    pub apex: Option<Name<Vec<u8>>>,
}

/// Returns the first rule of a zone of the class that the text breaks, and where, or None if it is a zone's text (RFC
/// 1035 5). Names are relative to the origin, if there is one.
///
/// Fails if out of memory.
pub fn explain(
    alloc: Global,
    text: &[u8],
    origin: Option<&Name<&[u8]>>,
    class: Class,
) -> Result<Option<Finding>, AllocError>
    ensures { IfOk result (IsExplained text.now (option_copied origin.entry) class) }
{
    let fault = match Zone::count_records(alloc, Vec::from_slice(alloc, text)?, origin, class) {
        Ok(_) => return Ok(None),
        Err(ZoneError::OutOfMemory) => return Err(AllocError),
        Err(fault) => fault,
    };
    Ok(Some(finding_of(alloc, text, origin, class, fault)?))
}

/// Returns the rule that the text breaks with the place. Fails if out of memory.
fn finding_of(
    alloc: Global,
    text: &[u8],
    origin: Option<&Name<&[u8]>>,
    class: Class,
    fault: ZoneError,
) -> Result<Finding, AllocError>
    ensures fault { IfOk result (λ finding. finding.fault ≡ fault) }
    ensures line { IfOk result (λ finding. finding.line ≡ line_at text.now finding.located.start) }
    ensures entry { IfOk result (λ finding. IsZoneFault text.now (option_copied origin.entry) class fault
        → IsRulePlace text.now fault finding.located.start) }
{
    let Some(number) = entry_of(fault) else {
        let located = whole_text(fault);
        return Ok(Finding {
            fault,
            located,
            line: LineMark::start().line_of(text, located.start),
            apex: None,
        });
    };
    let row = entry_row(alloc, text, origin, number)?;
    finding_in(alloc, text, row, class, fault)
}

/// Returns the rule that the entry of the row breaks with the place. Fails if out of memory.
pub(crate) fn finding_in(
    alloc: Global,
    text: &[u8],
    row: EntryRow,
    class: Class,
    fault: ZoneError,
) -> Result<Finding, AllocError>
    ensures fault { IfOk result (λ finding. finding.fault ≡ fault) }
    ensures line { MarksLine text.now row.mark → IfOk result (λ finding. finding.line ≡ line_at text.now finding.located.start) }
    ensures entry { IfOk result (λ finding. IsFaultRow text.now class fault row.place row.spans.items row.blank_led
        → IsRulePlace text.now fault finding.located.start) }
    ensures start { IfOk result (λ finding. breaks_entry fault ≡ true → row.blank_led ≢ None
        → drop finding.located.start text.now ≡ behind_blanks (drop row.place text.now)) }
{
    let located = entry_fault(alloc, text, &row, class, fault)?;
    Ok(Finding {
        fault,
        located,
        line: row.mark.line_of(text, located.start),
        apex: row.apex,
    })
}

/// Returns where the entry of the row breaks the rule. Fails if out of memory.
fn entry_fault(
    alloc: Global,
    text: &[u8],
    row: &EntryRow,
    class: Class,
    fault: ZoneError,
) -> Result<Located, AllocError>
    ensures entry { IfOk result (λ located. IsFaultRow text.now class fault row.now.place row.now.spans.items row.now.blank_led
        → IsRulePlace text.now fault located.start) }
    ensures start { IfOk result (λ located. breaks_entry fault ≡ true → row.now.blank_led ≢ None
        → drop located.start text.now ≡ behind_blanks (drop row.now.place text.now)) }
{
    let Some(blank_led) = row.blank_led else {
        return Ok(broken_row_fault(text, row.place, row.mark));
    };
    if let Some(reason) = rule_reason(fault, row.soa_line) {
        return Ok(row.at_start(text, reason));
    }
    let tokens = TokenRow {
        alloc,
        text,
        place: row.place,
        blank_led,
        spans: row.spans.as_slice(),
        origin: row.origin.as_ref(),
        has_owner: row.has_owner,
        class,
    };
    tokens.fault()
}

/// Returns the place of a rule that no entry breaks.
fn whole_text(fault: ZoneError) -> Located {
    let reason = match fault {
        ZoneError::ClassAny => Reason::ClassAny,
        _ => Reason::NoSoa,
    };
    Located {
        reason,
        start: 0,
        end: 0,
    }
}

/// Returns the number of the entry that breaks the rule.
pub(crate) fn entry_of(fault: ZoneError) -> Option<usize>
    ensures number { result ≡ number_of fault }
    ensures whole { IfNone result ((text : List ℕ) (place : ℕ) → IsRulePlace text fault place) }
{
    match fault {
        ZoneError::Text(number)
        | ZoneError::Include(number)
        | ZoneError::Untyped(number)
        | ZoneError::FirstNotSoa(number)
        | ZoneError::SecondSoa(number)
        | ZoneError::OutOfZone(number)
        | ZoneError::Unspellable(number) => Some(number),
        ZoneError::ClassAny | ZoneError::NoSoa | ZoneError::OutOfMemory => None,
    }
}

/// Returns why an entry that reads breaks the rule, or None if it does not read. The zone's SOA is in the line.
fn rule_reason(fault: ZoneError, soa_line: Option<usize>) -> Option<Reason>
    ensures { IfNone result (breaks_entry fault ≡ false) }
{
    match fault {
        ZoneError::Include(_) => Some(Reason::Include),
        ZoneError::Untyped(_) => Some(Reason::Untyped),
        ZoneError::FirstNotSoa(_) => Some(Reason::FirstNotSoa),
        ZoneError::SecondSoa(_) => Some(Reason::SecondSoa(soa_line.unwrap_or(1))),
        ZoneError::OutOfZone(_) => Some(Reason::OutOfZone),
        ZoneError::Unspellable(_) => Some(Reason::Unspellable),
        ZoneError::ClassAny | ZoneError::Text(_) | ZoneError::NoSoa | ZoneError::OutOfMemory =>
            None,
    }
}
