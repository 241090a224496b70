//! Records as octets at the end of a vector, composed while they are scanned.
ghost use Rattle.std.specs.Prelude.{◌≡◌, ◌≤◌, ◌∷◌, ◌++◌, Bool, List, ℕ, [], Option, Some, Ok, true, false, length, map, IfErr, IfOk, OnErr, OnOk};
ghost use Rattle.dns_header.specs.Head.{fixed_octets};
ghost use Rattle.dns_header.specs.Record.{RecordOf};
ghost use Rattle.dns_rdata.specs.Data.{Data, ScansAnyData};
ghost use Rattle.dns_entry_scanner.specs.AppendedName.{HasBehind};
ghost use Rattle.dns_entry_scanner.specs.EntryError.{is_memory};
ghost use Rattle.dns_entry_scanner.specs.RowScanner.{names_of, tokens_of};
ghost use Rattle.dns_scan_data.specs.Appended.{GoesOn};
ghost use Rattle.dns_scan.specs.Token.{SameNames};
ghost use Rattle.dns_entry_scanner.specs.RowFound.{IsRowAt};
ghost use Rattle.dns_entry_scanner.specs.TokenSpan.{token_in};
ghost use Rattle.dns_zonefile.specs.ComposedRow.{BeginsWithName, ComposesData, ComposesRecord, HasNoOwner, IsHandedOn, OwnerStands};
ghost use Rattle.dns_zonefile.specs.Directive.{BeginsDirective};
ghost use Rattle.dns_zonefile.specs.Entry as spec;
ghost use Rattle.dns_zonefile.specs.Entry.{Enters, IsEntry};
ghost use Rattle.dns_zonefile.specs.Entry.Entry.{Include, Resource};
ghost use Rattle.dns_zonefile.specs.Seen.{context_of, entry_of, row_of};
ghost use Rattle.dns_zonefile.specs.Statement.{IsDirective, Says, Statement};

use super::EntryForm;
use crate::context::Context;
use crate::data::scan_data_into;
use crate::statement::{begins_directive, scan_directive};
use crate::{ComposedEntry, Entry, IncludedFile};
use dns_entry_scanner::{EntryError, InlineName, RowScanner, TokenSpan, WireScanner, scan_head};
use dns_name::{Class, Composer, Name, Rtype, ToName, Ttl};
use dns_text::Scanner;
use std::alloc::Global;

/// The number of octets of a record between its owner and its data: type, class, TTL and RDLENGTH (RFC 1035 3.2.1).
const FIXED_LEN: usize = 10;

/// A record whose octets were appended: what its row sets, and whether its data is unknown data.
#[derive(Clone, Copy)]
pub(crate) struct ComposedRecord {
    /// The length of the owner in octets.
    pub(crate) owner_len: usize,
    pub(crate) class: Class,
    /// The last TTL that a record stated, including this one.
    pub(crate) last_ttl: Ttl,
    pub(crate) unknown: bool,
}

/// Appends the octets of each record, every name in full (RFC 1035 3.2.1).
impl EntryForm for Vec<u8> {
    ghost use Rattle.dns_zonefile.specs.Composed.{HandsOn};

    type Given = ComposedEntry;

    ghost octets = { λ octets. octets.items };

    ghost gives = { λ old entry given new. HandsOn old (Ok (Some entry)) (Ok (Some given)) new };

    fn take_row(
        &mut self,
        alloc: Global,
        context: &mut Context,
        text: &[u8],
        place: usize,
        spans: &[TokenSpan],
        blank_led: bool,
    ) -> Result<Option<ComposedEntry>, EntryError> {
        let origin = context.origin.as_ref();
        let mut scanner: RowScanner<'_, InlineName> = RowScanner::of_row(
            alloc, text, place, spans, origin,
        );
        if begins_directive(blank_led, &scanner) {
            return take_directive(alloc, context, text, place, spans);
        }
        let len = self.len();
        match append_record(blank_led, context, &mut scanner, self) {
            Ok(composed) => {
                context.take_over_first(
                    &self[len..],
                    composed.owner_len,
                    composed.last_ttl,
                    composed.class,
                );
                Ok(Some(ComposedEntry::Record {
                    unknown: composed.unknown,
                }))
            }
            Err(error) => {
                self.truncate(len);
                Err(error)
            }
        }
    }
}

/// Returns the entry of a row that is a directive, and applies what it sets. Fails with an error other than
/// `OutOfMemory` only if the row is no entry. The context is then unchanged.
fn take_directive(
    alloc: Global,
    context: &mut Context,
    text: &[u8],
    place: usize,
    spans: &[TokenSpan],
) -> Result<Option<ComposedEntry>, EntryError>
    requires row { (next : ℕ) × (blank_led : Bool) × IsRowAt text.now place spans.now next blank_led }
    requires begins { BeginsDirective (map (λ span. token_in text.now span) spans.now) }
    ensures ok { IfOk result (λ given. (entry : spec.Entry)
        × IsEntry (context_of context.old) (row_of false (map (λ span. token_in text.now span) spans.now)) entry (context_of context.new)
        × ((octets : List ℕ) → IsHandedOn octets entry given octets)) }
    ensures err { IfErr result (λ error. is_memory error ≡ false → (entry : spec.Entry) (after : spec.Context)
        → IsEntry (context_of context.old) (row_of false (map (λ span. token_in text.now span) spans.now)) entry after → ⊥) }
    ensures same { OnErr result (context.new ≡ context.old) }
{
    let origin = context.origin.as_ref();
    let mut scanner: RowScanner<'_, InlineName> = RowScanner::of_row(
        alloc, text, place, spans, origin,
    );
    let statement = scan_directive(&mut scanner)?;
    let entry = context.enter(alloc, statement)?;
    composed_of(alloc, entry)
}

/// Returns an entry that is no record in the form of a `ComposedEntry`. Fails with `OutOfMemory` if out of memory, and
/// only for an include.
fn composed_of(
    alloc: Global,
    entry: Option<Entry<InlineName>>,
) -> Result<Option<ComposedEntry>, EntryError>
    requires { (rr : RecordOf (List (List ℕ)) Data) → entry_of ⟦<InlineName as ToName>⟧.name entry ≡ Resource rr → ⊥ }
    ensures ok { IfOk result (λ given. (octets : List ℕ)
        → IsHandedOn octets (entry_of ⟦<InlineName as ToName>⟧.name entry) given octets) }
    ensures err { IfErr result (λ error. (is_memory error ≡ true) × ((path : List ℕ) × (origin : Option (List (List ℕ)))
        × (entry_of ⟦<InlineName as ToName>⟧.name entry ≡ Include path origin))) }
{
    match entry {
        None => Ok(None),
        Some(Entry::Include { path, origin }) => {
            match Box::new(alloc, IncludedFile { path, origin }) {
                Ok(file) => Ok(Some(ComposedEntry::Include(file))),
                Err(_) => Err(EntryError::OutOfMemory),
            }
        }
        Some(Entry::Record(_)) => unreachable!(),
    }
}

/// Appends the octets of the record that a row states. The caller guarantees that the row is no directive.
///
/// Fails with an error other than `OutOfMemory` only if the row is no record in the context. It may then have appended
/// a part of the octets.
fn append_record(
    blank_led: bool,
    context: &Context,
    scanner: &mut RowScanner<'_, InlineName>,
    octets: &mut Vec<u8>,
) -> Result<ComposedRecord, EntryError>
    requires { IsDirective (row_of blank_led (tokens_of scanner.old)) → ⊥ }
    ensures ok { IfOk result (λ composed. ComposesRecord (names_of scanner.old) (context_of context.now)
        (row_of blank_led (tokens_of scanner.old)) composed octets.old.items octets.new.items) }
    ensures err { IfErr result (λ error. is_memory error ≡ false → (statement : Statement) (entry : spec.Entry) (after : spec.Context)
        → Says (names_of scanner.old) (row_of blank_led (tokens_of scanner.old)) statement
        → Enters (context_of context.now) statement entry after → ⊥) }
    ensures more { OnErr result (GoesOn octets.old.items octets.new.items) }
{
    let len = octets.len();
    append_owner_and_room(blank_led, context, scanner, octets)?;
    let owner_len = octets.len() - FIXED_LEN - len;
    let head = match scan_head(scanner) {
        Ok(head) => head,
        Err(error) => return Err(error),
    };
    let known = match context.head_of(head.ttl, head.class) {
        Ok(known) => known,
        Err(error) => return Err(error),
    };
    put_fixed(head.rtype, known.class, known.ttl, octets);
    let unknown = append_data(head.rtype, scanner, octets)?;
    Ok(ComposedRecord {
        owner_len,
        class: known.class,
        last_ttl: known.last_ttl,
        unknown,
    })
}

/// Appends the octets of the owner of a record: the one that its row states, or the last one if the row begins with
/// white space. Fails with an error other than `OutOfMemory` only if the row states none and there is no last one, or
/// its first token spells no name. Nothing is then appended.
#[tactic(auto, using(crate::proofs::ComposedRows::stated_stands, crate::proofs::ComposedRows::last_stands, crate::proofs::ComposedRows::no_stated, crate::proofs::ComposedRows::no_last))]
pub(super) fn append_owner(
    blank_led: bool,
    context: &Context,
    scanner: &mut RowScanner<'_, InlineName>,
    octets: &mut Vec<u8>,
) -> Result<(), EntryError>
    ensures ok { OnOk result (OwnerStands (names_of scanner.old) (context_of context.now) (row_of blank_led (tokens_of scanner.old))
        (tokens_of scanner.new) octets.old.items octets.new.items) }
    ensures err { IfErr result (λ error. is_memory error ≡ false
        → HasNoOwner (names_of scanner.old) (context_of context.now) (row_of blank_led (tokens_of scanner.old))) }
    ensures names { SameNames (names_of scanner.old) (names_of scanner.new) }
    ensures same { OnErr result (octets.new.items ≡ octets.old.items) }
{
    if blank_led {
        return context.append_last_owner(octets);
    }
    scanner.scan_name_into(octets)
}

/// Returns the name in the first `len` octets.
pub(super) fn owner_in(octets: &[u8], len: usize) -> Name<&[u8]>
    requires { (name : List (List ℕ)) × BeginsWithName octets.now len name }
    ensures { (name : List (List ℕ)) → BeginsWithName octets.now len name → result ≡ name }
{
    Name::from_octets_unchecked(&octets[..len])
}

/// Appends the same, and behind them as many octets of any value as a record has between its owner and its data, for
/// `put_fixed` to write over.
fn append_owner_and_room(
    blank_led: bool,
    context: &Context,
    scanner: &mut RowScanner<'_, InlineName>,
    octets: &mut Vec<u8>,
) -> Result<(), EntryError>
    ensures ok { OnOk result ((owned : List ℕ) × OwnerStands (names_of scanner.old) (context_of context.now) (row_of blank_led (tokens_of scanner.old))
        (tokens_of scanner.new) octets.old.items owned × HasBehind 10 owned octets.new.items) }
    ensures err { IfErr result (λ error. is_memory error ≡ false
        → HasNoOwner (names_of scanner.old) (context_of context.now) (row_of blank_led (tokens_of scanner.old))) }
    ensures names { SameNames (names_of scanner.old) (names_of scanner.new) }
    ensures more { OnErr result (GoesOn octets.old.items octets.new.items) }
{
    if blank_led {
        context.append_last_owner(octets)?;
        return Ok(octets.extend_from_slice(&[0; FIXED_LEN])?);
    }
    scanner.scan_name_and_room(FIXED_LEN, octets)
}

/// Writes the octets of a type, a class and a TTL, and two zeros for RDLENGTH, over the last ten octets.
fn put_fixed(rtype: Rtype, class: Class, ttl: Ttl, octets: &mut Vec<u8>)
    requires { 10 ≤ length octets.old.items }
    ensures { (owned : List ℕ) → HasBehind 10 owned octets.old.items
        → octets.new.items ≡ owned ++ (fixed_octets rtype class ttl ++ 0 ∷ 0 ∷ []) }
{
    let fixed = fixed_octets(rtype, class, ttl);
    octets.patch(octets.len() - FIXED_LEN, &fixed);
}

/// Returns the octets of a type, a class and a TTL, and two zeros for RDLENGTH.
fn fixed_octets(rtype: Rtype, class: Class, ttl: Ttl) -> [u8; FIXED_LEN]
    ensures octets { result ≡ fixed_octets rtype class ttl ++ 0 ∷ 0 ∷ [] }
    ensures long { length result ≡ 10 }
{
    let [a, b] = rtype.to_int().to_be_bytes();
    let [c, d] = class.to_int().to_be_bytes();
    let [e, f, g, h] = ttl.as_secs().to_be_bytes();
    [a, b, c, d, e, f, g, h, 0, 0]
}

/// Appends the octets of data of the type, whose tokens end the row, and writes their number over the two zeros before
/// them. Returns whether it is unknown data.
///
/// Fails with an error other than `OutOfMemory` only if the tokens up to the row's end are no data of the type. It may
/// then have appended a part of the octets. It is called once per record, so it is inlined.
#[inline(always)]
fn append_data(
    rtype: Rtype,
    scanner: &mut RowScanner<'_, InlineName>,
    octets: &mut Vec<u8>,
) -> Result<bool, EntryError>
    requires { (front : List ℕ) × (octets.old.items ≡ front ++ 0 ∷ 0 ∷ []) }
    ensures ok { IfOk result (λ unknown. (front : List ℕ) → octets.old.items ≡ front ++ 0 ∷ 0 ∷ []
        → ComposesData (names_of scanner.old) rtype (tokens_of scanner.old) front octets.new.items unknown) }
    ensures err { IfErr result (λ error. is_memory error ≡ false → (rdata : Data)
        → ScansAnyData (names_of scanner.old) rtype rdata (tokens_of scanner.old) [] → ⊥) }
    ensures more { OnErr result (GoesOn octets.old.items octets.new.items) }
{
    let place = octets.len();
    let unknown = scan_data_into(rtype, scanner, octets)?;
    if scanner.continues() {
        return Err(EntryError::TrailingTokens);
    }
    let len = (octets.len() - place) as u16;
    octets.patch(place - 2, &len.to_be_bytes());
    Ok(unknown)
}
