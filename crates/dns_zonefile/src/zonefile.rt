//! Readers of zone files.
ghost use Rattle.std.specs.Prelude.{◌≡◌, ◌≤◌, ◌++◌, [], Some, None, length, option_copied, vec_capacity, OnOk, OnErr, IfOk};
ghost use Rattle.dns_entry_scanner.specs.LineMark.{MarksLine};

mod pass_over;
mod read;

use crate::context::Context;
use crate::{Error, LineMark};
use dns_entry_scanner::TokenSpan;
use dns_name::{Class, Name};
use std::alloc::{AllocError, Global};

/// A reader of a zone file. The caller supplies its text, at once or in pieces.
///
/// ```text
/// let mut zonefile = Zonefile::new(alloc);
/// zonefile.extend_from_slice(b"example.com. 3600 IN A 192.0.2.1\n")?;
/// while let Some(entry) = zonefile.next_entry()? { .. }
/// ```
#[derive(Debug, Drop)]
pub struct Zonefile {
    alloc: Global,
    text: Vec<u8>,
    /// The place of the first row that is not yet read.
    place: usize,
    /// The tokens of a row. Kept from row to row only to reuse the memory.
    spans: Vec<TokenSpan>,
    context: Context,
    /// The number of entries that were read.
    count: usize,
    /// The line of the place of the last error.
    mark: LineMark,
    /// The error after which nothing more is read.
    refused: Option<Error>,
    ghost within: { place ≤ length text.items },
    ghost few: { count ≤ place },
    ghost marked: { MarksLine text.items mark },
}

impl Zonefile {
    ghost use Rattle.dns_zonefile.specs.Reader.{start_of_text};
    ghost use Rattle.dns_zonefile.specs.ReaderSeen.{entries_met, reader_of, refused_in, text_capacity};

    /// Returns a reader without a text, an origin or a class. It allocates with `alloc`.
    pub fn new(alloc: Global) -> Self
        ensures at { reader_of result ≡ start_of_text [] }
        ensures unrefused { refused_in result ≡ None }
    {
        Zonefile::from_vec(alloc, Vec::new(alloc))
    }

    /// Returns a reader without a text, which may grow to `capacity` octets without another allocation. Fails if out of
    /// memory.
    pub fn with_capacity(alloc: Global, capacity: usize) -> Result<Self, AllocError>
        ensures at { IfOk result (λ zonefile. reader_of zonefile ≡ start_of_text []) }
        ensures unrefused { IfOk result (λ zonefile. refused_in zonefile ≡ None) }
        ensures room { IfOk result (λ zonefile. capacity ≤ text_capacity zonefile) }
    {
        Ok(Zonefile::from_vec(alloc, Vec::with_capacity(alloc, capacity)?))
    }

    /// Returns a reader of the text, without copying it. What is read of it is allocated with `alloc`.
    pub fn from_vec(alloc: Global, text: Vec<u8>) -> Self
        ensures at { reader_of result ≡ start_of_text text.items }
        ensures unrefused { refused_in result ≡ None }
        ensures room { text_capacity result ≡ vec_capacity text }
    {
        Zonefile {
            alloc,
            text,
            place: 0,
            spans: Vec::new(alloc),
            context: Context::new(),
            count: 0,
            mark: LineMark::start(),
            refused: None,
        }
    }

    /// Appends to the text, also after its end was reached. Fails if out of memory, and then changes nothing.
    ///
    /// White space and a comment after the last line feed are not yet read when the end is reached. The new text
    /// continues them.
    pub fn extend_from_slice(&mut self, slice: &[u8]) -> Result<(), AllocError>
        ensures ok { OnOk result (reader_of self.new ≡ record (reader_of self.old) { text = (reader_of self.old).text ++ slice.now }) }
        ensures err { OnErr result (reader_of self.new ≡ reader_of self.old) }
        ensures refused { refused_in self.new ≡ refused_in self.old }
    {
        self.text.extend_from_slice(slice)?;
        Ok(())
    }

    /// Sets the origin of the names in the rows that are not yet read.
    pub fn set_origin(&mut self, origin: Name<Vec<u8>>)
        ensures at { reader_of self.new ≡ record (reader_of self.old) {
          context = record (reader_of self.old).context { origin = Some origin };
        } }
        ensures refused { refused_in self.new ≡ refused_in self.old }
    {
        self.context.origin = Some(origin);
    }

    /// Sets the class of the records in the rows that are not yet read. A record that states another class is an error.
    pub fn set_default_class(&mut self, class: Class)
        ensures at { reader_of self.new ≡ record (reader_of self.old) {
          context = record (reader_of self.old).context { class = Some class };
        } }
        ensures refused { refused_in self.new ≡ refused_in self.old }
    {
        self.context.class = Some(class);
    }

    /// Returns the offset in the text of the first row that is not yet read.
    pub fn place(&self) -> usize
        ensures { result ≡ (reader_of self.now).place }
    {
        self.place
    }

    /// Returns the origin of the names in the rows that are not yet read, if there is one.
    pub fn origin(&self) -> Option<&Name<Vec<u8>>>
        ensures { option_copied result ≡ (reader_of self.now).context.origin }
    {
        self.context.origin.as_ref()
    }

    /// Returns the owner of the last record that was read, if there was one. A row that begins with white space has it too.
    pub fn last_owner(&self) -> Option<Name<&[u8]>>
        ensures { result ≡ (reader_of self.now).context.owner }
    {
        self.context.owner.get()
    }

    /// Returns the number of entries that were read: records, includes and directives. An entry that failed counts too.
    pub fn entry_number(&self) -> usize
        ensures { result ≡ entries_met self.now }
    {
        self.count + usize::from(self.refused.is_some())
    }
}
