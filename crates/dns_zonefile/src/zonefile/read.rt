//! Reading entries, one after another.
ghost use Rattle.std.specs.Prelude.{◌≡◌, List, Some, None, Err, Result, Option, false, map, option_copied, IfOk, IfErr, OnOk, OnErr};
ghost use Rattle.dns_entry_scanner.specs.RowFound.{IsRowAt};
ghost use Rattle.dns_entry_scanner.specs.TokenSpan.{token_in};
ghost use Rattle.dns_entry_scanner.specs.EntryError.{is_memory};
ghost use Rattle.dns_entry_scanner.specs.NameInText.{SpellsUnder};
ghost use Rattle.dns_entry_scanner.specs.declared.entry_error.EntryError.{EntryError};
ghost use Rattle.dns_zonefile.specs.Composed.{HandsOn, with_reason};
ghost use Rattle.dns_zonefile.specs.Entry as spec;
ghost use Rattle.dns_zonefile.specs.Error.{line_of as error_line};
ghost use Rattle.dns_zonefile.specs.Reader.{Gives, IsRefusedAt};
ghost use Rattle.dns_entry_scanner.specs.Lines.{line_at};
ghost use Rattle.dns_zonefile.specs.RowRead.{GivesInForm, ReadsRow};
ghost use Rattle.dns_zonefile.specs.ReaderSeen.{given_of, reader_of, refused_in};

use super::Zonefile;
use crate::entry_form::{AsValues, EntryForm};
use crate::{ComposedEntry, Entry, Error};
use dns_entry_scanner::{EntryError, RowFound, ScannedName, read_row};
use dns_name::ToName;

/// The result of reading a row.
#[derive(Drop)]
pub(crate) enum RowRead<Given> {
    /// Nothing: it has no tokens, or is a directive.
    Passed,
    /// A record or an include.
    Found(Given),
    /// There is no row, and the text ends.
    Ended,
}

impl Zonefile {
    /// Returns the next record or include, or None at the end of the text (RFC 1035 5.1).
    ///
    /// Fails if the next row is malformed, or is neither of these nor a directive, and if out of memory:
    /// `Error::is_memory` tells which. After an error, each call fails with the same error.
    pub fn next_entry(&mut self) -> Result<Option<Entry>, Error>
        ensures gives { refused_in self.old ≡ None
            → Gives (reader_of self.old) (given_of ⟦<ScannedName as ToName>⟧.name result) (reader_of self.new) }
        ensures ok { OnOk result (refused_in self.new ≡ None) }
        ensures err { IfErr result (λ error. refused_in self.new ≡ Some error) }
        ensures line { refused_in self.old ≡ None → IfErr result (λ error. error_line error
            ≡ line_at (reader_of self.new).text (reader_of self.new).place) }
        ensures again { (error : Error) → refused_in self.old ≡ Some error → (result ≡ Err error) × (self.new ≡ self.old) }
    {
        self.next_given(&mut AsValues)
    }

    /// Appends the octets of the next record, or returns the next include, or None at the end of the text.
    ///
    /// The octets are the record's, every name in full: owner, type, class, TTL, RDLENGTH and data (RFC 1035 3.2.1).
    /// Nothing is appended for an include, at the end, and on failure. Fails as `next_entry` does.
    ///
    /// Each part of a record is appended as it is scanned. Only octets in base 64 are first read into a vector of their
    /// own. For a row with several faults, the error may differ from that of `next_entry`.
    pub fn next_octets(&mut self, octets: &mut Vec<u8>) -> Result<Option<ComposedEntry>, Error>
        ensures gives { refused_in self.old ≡ None → (given : Result (Option spec.Entry) EntryError)
            × Gives (reader_of self.old) given (reader_of self.new)
            × HandsOn octets.old.items given (with_reason result) octets.new.items }
        ensures ok { OnOk result (refused_in self.new ≡ None) }
        ensures err { IfErr result (λ error. refused_in self.new ≡ Some error) }
        ensures line { refused_in self.old ≡ None → IfErr result (λ error. error_line error
            ≡ line_at (reader_of self.new).text (reader_of self.new).place) }
        ensures again { (error : Error) → refused_in self.old ≡ Some error
            → (result ≡ Err error) × (self.new ≡ self.old) × (octets.new.items ≡ octets.old.items) }
    {
        self.next_given(octets)
    }

    /// Returns the next record or include in the form. Fails as `next_entry` does.
    fn next_given<F: EntryForm>(&mut self, form: &mut F) -> Result<Option<F::Given>, Error>
        ensures gives { refused_in self.old ≡ None → GivesInForm F.gives (reader_of self.old) (F.octets form.old) (with_reason result)
            (reader_of self.new) (F.octets form.new) }
        ensures ok { OnOk result (refused_in self.new ≡ None) }
        ensures err { IfErr result (λ error. refused_in self.new ≡ Some error) }
        ensures line { refused_in self.old ≡ None → IfErr result (λ error. error_line error
            ≡ line_at (reader_of self.new).text (reader_of self.new).place) }
        ensures again { (error : Error) → refused_in self.old ≡ Some error → (result ≡ Err error) × (self.new ≡ self.old)
            × (F.octets form.new ≡ F.octets form.old) }
    {
        if let Some(error) = self.refused {
            return Err(error);
        }
        match self.read_entry(form) {
            Ok(given) => Ok(given),
            Err(reason) => {
                self.mark = self.mark.at(&self.text, self.place);
                let error = Error::new(self.mark.line(), reason);
                self.refused = Some(error);
                Err(error)
            }
        }
    }

    /// Reads rows up to the next record or include, or the end of the text.
    fn read_entry<F: EntryForm>(&mut self, form: &mut F) -> Result<Option<F::Given>, EntryError>
        ensures gives { GivesInForm F.gives (reader_of self.old) (F.octets form.old) result (reader_of self.new) (F.octets form.new) }
        ensures refused { refused_in self.new ≡ refused_in self.old }
    {
        loop {
            match self.read_row(form)? {
                RowRead::Passed => {}
                RowRead::Found(given) => return Ok(Some(given)),
                RowRead::Ended => return Ok(None),
            }
        }
    }

    /// Reads the next row.
    fn read_row<F: EntryForm>(&mut self, form: &mut F) -> Result<RowRead<F::Given>, EntryError>
        ensures ok { IfOk result (λ read. ReadsRow F.gives (reader_of self.old) (F.octets form.old) read (reader_of self.new)
            (F.octets form.new)) }
        ensures err { IfErr result (λ error. is_memory error ≡ false → IsRefusedAt (reader_of self.old)) }
        ensures same { OnErr result (reader_of self.new ≡ reader_of self.old) }
        ensures refused { refused_in self.new ≡ refused_in self.old }
        ensures kept { OnErr result (F.octets form.new ≡ F.octets form.old) }
    {
        match read_row(self.text.as_slice(), self.place, &mut self.spans) {
            Ok(RowFound::Row { next, blank_led }) => self.enter_row(next, blank_led, form),
            Ok(RowFound::End) => Ok(RowRead::Ended),
            Ok(RowFound::Broken) => Err(EntryError::Custom("broken row")),
            Err(_) => Err(EntryError::OutOfMemory),
        }
    }

    /// Reads the row at the current place, whose tokens were found, and goes on to the next one.
    fn enter_row<F: EntryForm>(
        &mut self,
        next: usize,
        blank_led: bool,
        form: &mut F,
    ) -> Result<RowRead<F::Given>, EntryError>
        requires { IsRowAt self.old.text.items self.old.place self.old.spans.items next blank_led }
        ensures ok { IfOk result (λ read. ReadsRow F.gives (reader_of self.old) (F.octets form.old) read (reader_of self.new)
            (F.octets form.new)) }
        ensures err { IfErr result (λ error. is_memory error ≡ false → IsRefusedAt (reader_of self.old)) }
        ensures same { OnErr result (reader_of self.new ≡ reader_of self.old) }
        ensures refused { refused_in self.new ≡ refused_in self.old }
        ensures kept { OnErr result (F.octets form.new ≡ F.octets form.old) }
    {
        if self.spans.is_empty() {
            self.place = next;
            return Ok(RowRead::Passed);
        }
        let text = self.text.as_slice();
        let spans = self.spans.as_slice();
        let given = form.take_row(
            self.alloc,
            &mut self.context,
            text,
            self.place,
            spans,
            blank_led,
        )?;
        self.place = next;
        self.count += 1;
        match given {
            Some(given) => Ok(RowRead::Found(given)),
            None => Ok(RowRead::Passed),
        }
    }
}
