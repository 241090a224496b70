//! The forms in which entries are returned.
ghost use Rattle.std.specs.Prelude.{◌≡◌, List, ℕ, false, map, IfErr, IfOk, OnErr};
ghost use Rattle.dns_entry_scanner.specs.EntryError.{is_memory};
ghost use Rattle.dns_entry_scanner.specs.RowFound.{IsRowAt};
ghost use Rattle.dns_entry_scanner.specs.TokenSpan.{token_in};
ghost use Rattle.dns_zonefile.specs.Entry as spec;
ghost use Rattle.dns_zonefile.specs.Entry.{IsEntry};
ghost use Rattle.dns_zonefile.specs.RowRead.{IsGiven};
ghost use Rattle.dns_zonefile.specs.Seen.{context_of, row_of};

mod front;
mod octets;
mod values;

use crate::context::Context;
use dns_entry_scanner::{EntryError, TokenSpan};
pub(crate) use front::take_front;
use std::alloc::Global;
pub(crate) use values::AsValues;

/// A form in which entries are returned.
///
/// `octets` are the contents of the form. `gives` relates an entry to the value returned for it, and to the contents
/// before and after.
pub(crate) trait EntryForm {
    type Given;

    ghost octets: { Self → List ℕ };

    ghost gives: { List ℕ → spec.Entry → Self.Given → List ℕ → Type 0 };

    /// Returns the entry of a row, and applies what it sets to the context. Returns None for a directive. The row is at
    /// `place` in the text, and `read_row` found its tokens, `spans`. `blank_led` is whether it begins with white space.
    ///
    /// Fails with an error other than `OutOfMemory` only if the row is no entry. Nothing is then changed.
    fn take_row(
        &mut self,
        alloc: Global,
        context: &mut Context,
        text: &[u8],
        place: usize,
        spans: &[TokenSpan],
        blank_led: bool,
    ) -> Result<Option<Self::Given>, EntryError>
        requires { (next : ℕ) × IsRowAt text.now place spans.now next blank_led }
        ensures ok { IfOk result (λ given. (entry : spec.Entry)
            × IsEntry (context_of context.old) (row_of blank_led (map (λ span. token_in text.now span) spans.now)) entry (context_of context.new)
            × IsGiven gives (octets self.old) entry given (octets self.new)) }
        ensures err { IfErr result (λ error. is_memory error ≡ false → (entry : spec.Entry) (after : spec.Context)
            → IsEntry (context_of context.old) (row_of blank_led (map (λ span. token_in text.now span) spans.now)) entry after → ⊥) }
        ensures same { OnErr result (context.new ≡ context.old) }
        ensures kept { OnErr result (octets self.new ≡ octets self.old) };
}
