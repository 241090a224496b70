//! Reading the entries of rows that the caller finds.
ghost use Rattle.std.specs.Prelude.{◌≡◌, ◌≤◌, ◌++◌, ℕ, Bool, List, Option, Some, None, false, length, map, option_copied, take, IfOk, IfErr, OnErr, OnOk};
ghost use Rattle.dns_entry_scanner.specs.EntryError.{is_memory};
ghost use Rattle.dns_entry_scanner.specs.NameInText.{SpellsUnder};
ghost use Rattle.dns_entry_scanner.specs.RowFound.{IsRowAt};
ghost use Rattle.dns_entry_scanner.specs.TokenSpan.{token_in};
ghost use Rattle.dns_label.specs.Name.{wire};
ghost use Rattle.dns_zonefile.specs.ComposedRow.{IsHandedOn};
ghost use Rattle.dns_zonefile.specs.Entry as spec;
ghost use Rattle.dns_zonefile.specs.Entry.{IsEntry, at_start};
ghost use Rattle.dns_zonefile.specs.RecordFront.{IsFront};
ghost use Rattle.dns_zonefile.specs.Seen.{row_of};

use crate::ComposedEntry;
use crate::context::Context;
use crate::entry_form::{EntryForm, take_front};
use dns_entry_scanner::{EntryError, TokenSpan};
use dns_name::{Class, Name};
use std::alloc::Global;
use std::marker::Model;

/// Reads the entries of rows that its caller finds by `read_row`, one at a time, each in the context that those before it
/// leave (RFC 1035 5.1). A `Zonefile` finds the rows of its text itself.
///
/// A contract sees it as that context.
#[derive(Debug, Drop)]
pub struct EntryReader {
    alloc: Global,
    context: Context,
}

impl Model for EntryReader {
    ghost use Rattle.dns_zonefile.specs.Entry as entries;
    ghost use Rattle.dns_zonefile.specs.Seen.{context_of};

    ghost Value = { entries.Context };

    ghost view = { λ reader. context_of reader.context };
}

impl EntryReader {
    /// Returns a reader without an origin or a class. What it reads is allocated with `alloc`.
    pub fn new(alloc: Global) -> Self
        ensures { result ≡ at_start None None }
    {
        EntryReader {
            alloc,
            context: Context::new(),
        }
    }

    /// Sets the origin of the names in the rows that are not yet read.
    pub fn set_origin(&mut self, origin: Name<Vec<u8>>)
        ensures { self.new ≡ record self.old { origin = Some origin } }
    {
        self.context.origin = Some(origin);
    }

    /// Sets the class of the records in the rows that are not yet read. A record that states another class is an error.
    pub fn set_default_class(&mut self, class: Class)
        ensures { self.new ≡ record self.old { class = Some class } }
    {
        self.context.class = Some(class);
    }

    /// Returns the origin of the names in the rows that are not yet read, if there is one.
    pub fn origin(&self) -> Option<&Name<Vec<u8>>>
        ensures { option_copied result ≡ self.now.origin }
    {
        self.context.origin.as_ref()
    }

    /// Appends the octets of the record that a row states, or returns the include, or None for a directive, as
    /// `Zonefile::next_octets`. The row is at `place` in the text, and `read_row` found its tokens, `spans`. `blank_led` is
    /// whether it begins with white space.
    ///
    /// Fails with an error other than `OutOfMemory` only if the row is no entry. Nothing is then changed.
    pub fn read_entry(
        &mut self,
        text: &[u8],
        place: usize,
        spans: &[TokenSpan],
        blank_led: bool,
        octets: &mut Vec<u8>,
    ) -> Result<Option<ComposedEntry>, EntryError>
        requires { (next : ℕ) × IsRowAt text.now place spans.now next blank_led }
        ensures ok { IfOk result (λ given. (entry : spec.Entry)
            × IsEntry self.old (row_of blank_led (map (λ span. token_in text.now span) spans.now)) entry self.new
            × IsHandedOn octets.old.items entry given octets.new.items) }
        ensures err { IfErr result (λ error. is_memory error ≡ false → (entry : spec.Entry) (after : spec.Context)
            → IsEntry self.old (row_of blank_led (map (λ span. token_in text.now span) spans.now)) entry after → ⊥) }
        ensures same { OnErr result (self.new ≡ self.old) }
        ensures kept { OnErr result (octets.new.items ≡ octets.old.items) }
    {
        octets.take_row(self.alloc, &mut self.context, text, place, spans, blank_led)
    }

    /// Reads the tokens of a record's row before its type, and applies what they set: an owner, unless the row begins with white
    /// space, and then a TTL and a class, each stated or not. They are the first `count` tokens of the row. The octets of the
    /// record's owner are appended. The row is given as to `read_entry`.
    ///
    /// Fails with an error other than `OutOfMemory` only if they are no such tokens. Nothing is then changed.
    pub fn read_front(
        &mut self,
        text: &[u8],
        place: usize,
        spans: &[TokenSpan],
        blank_led: bool,
        count: usize,
        octets: &mut Vec<u8>,
    ) -> Result<(), EntryError>
        requires row { (next : ℕ) × (led : Bool) × IsRowAt text.now place spans.now next led }
        requires within { count ≤ length spans.now }
        ensures ok { OnOk result ((owner : List (List ℕ))
            × IsFront (SpellsUnder self.old.origin) self.old blank_led (take count (map (λ span. token_in text.now span) spans.now)) owner self.new
            × (octets.new.items ≡ octets.old.items ++ wire owner)) }
        ensures err { IfErr result (λ error. is_memory error ≡ false → (owner : List (List ℕ)) (after : spec.Context)
            → IsFront (SpellsUnder self.old.origin) self.old blank_led (take count (map (λ span. token_in text.now span) spans.now)) owner after → ⊥) }
        ensures same { OnErr result (self.new ≡ self.old) }
        ensures kept { OnErr result (octets.new.items ≡ octets.old.items) }
    {
        take_front(
            self.alloc,
            &mut self.context,
            text,
            place,
            spans,
            blank_led,
            count,
            octets,
        )
    }
}
