//! What the tokens of a record's row before its type set.
ghost use Rattle.std.specs.Prelude.{◌≡◌, ◌≤◌, ◌++◌, Bool, List, ℕ, false, length, map, take, IfErr, IfOk, OnErr, OnOk};
ghost use Rattle.dns_entry_scanner.specs.EntryError.{is_memory};
ghost use Rattle.dns_entry_scanner.specs.NameInText.{SpellsUnder};
ghost use Rattle.dns_entry_scanner.specs.RowFound.{IsRowAt};
ghost use Rattle.dns_entry_scanner.specs.RowScanner.{names_of, tokens_of};
ghost use Rattle.dns_entry_scanner.specs.TokenSpan.{token_in};
ghost use Rattle.dns_label.specs.Name.{wire};
ghost use Rattle.dns_scan_data.specs.Appended.{GoesOn};
ghost use Rattle.dns_zonefile.specs.Entry as spec;
ghost use Rattle.dns_zonefile.specs.RecordFront.{ComposesFront, IsFront};
ghost use Rattle.dns_zonefile.specs.Seen.{context_of};

use super::octets::{append_owner, owner_in};
use crate::context::Context;
use dns_entry_scanner::{EntryError, InlineName, RowScanner, TokenSpan, scan_stated};
use dns_name::{Class, Ttl};
use std::alloc::Global;

/// What the tokens of a record before its type set. The octets of its owner were appended.
#[derive(Clone, Copy)]
pub(crate) struct ComposedFront {
    /// The length of the owner in octets.
    pub(crate) owner_len: usize,
    pub(crate) class: Class,
    /// The last TTL that a record stated, including this one.
    pub(crate) last_ttl: Ttl,
}

/// Applies what the first `count` tokens of a record's row set, which are those before its type, and appends the octets of its
/// owner. The row is at `place` in the text, and `read_row` found its tokens, `spans`.
///
/// Fails with an error other than `OutOfMemory` only if they are no such tokens. Nothing is then changed.
pub(crate) fn take_front(
    alloc: Global,
    context: &mut Context,
    text: &[u8],
    place: usize,
    spans: &[TokenSpan],
    blank_led: bool,
    count: usize,
    octets: &mut Vec<u8>,
) -> Result<(), EntryError>
    requires row { (next : ℕ) × (led : Bool) × IsRowAt text.now place spans.now next led }
    requires within { count ≤ length spans.now }
    ensures ok { OnOk result ((owner : List (List ℕ))
        × IsFront (SpellsUnder (context_of context.old).origin) (context_of context.old) blank_led
        (take count (map (λ span. token_in text.now span) spans.now)) owner (context_of context.new)
        × (octets.new.items ≡ octets.old.items ++ wire owner)) }
    ensures err { IfErr result (λ error. is_memory error ≡ false → (owner : List (List ℕ)) (after : spec.Context)
        → IsFront (SpellsUnder (context_of context.old).origin) (context_of context.old) blank_led
        (take count (map (λ span. token_in text.now span) spans.now)) owner after → ⊥) }
    ensures same { OnErr result (context.new ≡ context.old) }
    ensures kept { OnErr result (octets.new.items ≡ octets.old.items) }
{
    let origin = context.origin.as_ref();
    let mut scanner: RowScanner<'_, InlineName> = RowScanner::of_row(
        alloc, text, place, spans, origin,
    );
    let len = octets.len();
    match append_front(blank_led, count, context, &mut scanner, octets) {
        Ok(front) => {
            let owner = owner_in(&octets[len..], front.owner_len);
            context.take_over(&owner, front.last_ttl, front.class);
            Ok(())
        }
        Err(error) => {
            octets.truncate(len);
            Err(error)
        }
    }
}

/// Appends the octets of a record's owner, and returns what the first `count` tokens of its row set. They are those before its
/// type.
///
/// Fails with an error other than `OutOfMemory` only if they are no such tokens. It may then have appended the owner.
fn append_front(
    blank_led: bool,
    count: usize,
    context: &Context,
    scanner: &mut RowScanner<'_, InlineName>,
    octets: &mut Vec<u8>,
) -> Result<ComposedFront, EntryError>
    requires { count ≤ length (tokens_of scanner.old) }
    ensures ok { IfOk result (λ composed. ComposesFront (names_of scanner.old) (context_of context.now) blank_led
        (take count (tokens_of scanner.old)) composed octets.old.items octets.new.items) }
    ensures err { IfErr result (λ error. is_memory error ≡ false → (owner : List (List ℕ)) (after : spec.Context)
        → IsFront (names_of scanner.old) (context_of context.now) blank_led (take count (tokens_of scanner.old)) owner after → ⊥) }
    ensures more { OnErr result (GoesOn octets.old.items octets.new.items) }
{
    let owners = usize::from(!blank_led);
    if count < owners {
        return Err(EntryError::EndOfEntry);
    }
    let len = octets.len();
    append_owner(blank_led, context, scanner, octets)?;
    let owner_len = octets.len() - len;
    let (ttl, class) = match scan_stated(count - owners, scanner) {
        Ok(stated) => stated,
        Err(error) => return Err(error),
    };
    let known = match context.head_of(ttl, class) {
        Ok(known) => known,
        Err(error) => return Err(error),
    };
    Ok(ComposedFront {
        owner_len,
        class: known.class,
        last_ttl: known.last_ttl,
    })
}
