//! Entries as values.
ghost use Rattle.std.specs.Prelude.{◌≡◌, ℕ, false, map, option_copied, IfErr, IfOk};
ghost use Rattle.dns_entry_scanner.specs.EntryError.{is_memory};
ghost use Rattle.dns_entry_scanner.specs.NameInText.{SpellsUnder};
ghost use Rattle.dns_entry_scanner.specs.RowFound.{IsRowAt};
ghost use Rattle.dns_entry_scanner.specs.TokenSpan.{token_in};
ghost use Rattle.dns_zonefile.specs.Seen.{row_of, statement_of};
ghost use Rattle.dns_zonefile.specs.Statement as spec_statement;
ghost use Rattle.dns_zonefile.specs.Statement.{Says};

use super::EntryForm;
use crate::context::Context;
use crate::{Entry, Statement, scan_statement};
use dns_entry_scanner::{EntryError, RowScanner, ScannedName, TextName, TokenSpan};
use dns_name::{Name, ToName};
use std::alloc::Global;

/// Returns entries as values.
#[derive(Drop)]
pub(crate) struct AsValues;

impl EntryForm for AsValues {
    ghost use Rattle.std.specs.Prelude.{◌≡◌, [], Some};
    ghost use Rattle.dns_zonefile.specs.Seen.{entry_of};

    type Given = Entry;

    ghost octets = { λ _. [] };

    ghost gives = { λ _ entry given _. entry ≡ entry_of ⟦<ScannedName as ToName>⟧.name (Some given) };

    fn take_row(
        &mut self,
        alloc: Global,
        context: &mut Context,
        text: &[u8],
        place: usize,
        spans: &[TokenSpan],
        blank_led: bool,
    ) -> Result<Option<Entry>, EntryError> {
        let origin = context.origin.as_ref();
        let statement: Statement<Vec<u8>, ScannedName> = scan_row(
            alloc, text, place, spans, blank_led, origin,
        )?;
        context.enter(alloc, statement)
    }
}

/// Reads what the row at `place` says. `blank_led` is whether it begins with white space.
#[tactic(auto, using(crate::proofs::OneEntry::under_once))]
fn scan_row<N: TextName>(
    alloc: Global,
    text: &[u8],
    place: usize,
    spans: &[TokenSpan],
    blank_led: bool,
    origin: Option<&Name<Vec<u8>>>,
) -> Result<Statement<Vec<u8>, N>, EntryError>
    requires { (next : ℕ) × IsRowAt text.now place spans.now next blank_led }
    ensures ok { IfOk result (λ statement. Says (SpellsUnder (option_copied origin.entry))
        (row_of blank_led (map (λ span. token_in text.now span) spans.now)) (statement_of N.name statement)) }
    ensures err { IfErr result (λ error. is_memory error ≡ false → (statement : spec_statement.Statement)
        → Says (SpellsUnder (option_copied origin.entry)) (row_of blank_led (map (λ span. token_in text.now span) spans.now)) statement → ⊥) }
{
    let mut scanner: RowScanner<'_, N> = RowScanner::of_row(alloc, text, place, spans, origin);
    scan_statement(blank_led, &mut scanner)
}
