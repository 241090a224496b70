//! A builder of TXT data, string by string.
ghost use Rattle.std.specs.Prelude.{◌≡◌, ◌+◌, ◌<◌, ◌↔◌, ◌++◌, ◌∷◌, [], length, Err, IfOk, IfErr, IsErr, OnOk, OnErr};
ghost use Rattle.dns_fields.specs.Fields.{strings};
ghost use Rattle.dns_rr_data.specs.Built.{Built, GoesOn, StandsFor, built_of, nothing_built, strings_built, all_closed, with_string, text_len, strings_len, some_strings};
ghost use Rattle.dns_rr_data.specs.declared.txt.append_error.TxtAppendError.TheVariants.{LongRecordData, ShortBuf};

use super::Txt;
use super::append_error::TxtAppendError;
use super::cut::{begin_text, continue_text, fill};
use dns_name::{
    Compose, EmptyBuilder, FreezeBuilder, Octets, OctetsBuilder, Truncate, WriteOctets,
};
use dns_text::CharStr;
use std::alloc::Global;
use std::marker::Model;

/// A builder of TXT data: closed strings, and maybe an open one.
///
/// A contract sees its strings. A call that fails leaves it as it was.
#[derive(Debug, Drop)]
pub struct TxtBuilder<Builder: OctetsBuilder> {
    builder: Builder,
    /// The place of the open string's length, which is updated as the string grows.
    head: Option<usize>,
}

impl<Builder: OctetsBuilder> Model for TxtBuilder<Builder> {
    ghost Value = { Built };

    ghost view = { λ txt. built_of (Builder.list txt.builder) txt.head };

    ghost invariant = { λ txt. StandsFor (Builder.list txt.builder) txt.head (built_of (Builder.list txt.builder) txt.head) };
}

impl<Builder: EmptyBuilder> TxtBuilder<Builder> {
    /// Returns an empty builder, whose octets grow on this allocator if they grow at all.
    pub fn new(alloc: Global) -> Self
        ensures { result ≡ nothing_built }
    {
        TxtBuilder {
            builder: Builder::empty(alloc),
            head: None,
        }
    }
}

impl TxtBuilder<Vec<u8>> {
    /// Returns an empty builder over a vector.
    pub fn new_vec(alloc: Global) -> Self
        ensures { result ≡ nothing_built }
    {
        TxtBuilder::new(alloc)
    }
}

impl<Builder: Truncate + WriteOctets> TxtBuilder<Builder> {
    /// Appends octets to the open string, or begins a string with them. A string that has 255 octets is closed, and what
    /// follows begins another. No octets change nothing.
    ///
    /// Fails with `LongRecordData` exactly if the data would have more than 65,535 octets, and with `ShortBuf` if out of
    /// room or memory.
    pub fn append_slice(&mut self, octets: &[u8]) -> Result<(), TxtAppendError>
        ensures ok { OnOk result (GoesOn self.old octets.now self.new) }
        ensures err { OnErr result (self.new ≡ self.old) }
        ensures long { (result ≡ Err LongRecordData) ↔ (65535 < strings_len self.old.closed
            + text_len (length (self.old.begun ++ octets.now))) }
    {
        let Some(place) = self.head else {
            self.head = begin_text(&mut self.builder, octets)?;
            return Ok(());
        };
        self.head = continue_text(&mut self.builder, place, octets)?;
        Ok(())
    }

    /// Appends an octet to the open string, or begins a string with it, as `append_slice` does.
    pub fn append_u8(&mut self, octet: u8) -> Result<(), TxtAppendError>
        ensures ok { OnOk result (GoesOn self.old (octet ∷ []) self.new) }
        ensures err { OnErr result (self.new ≡ self.old) }
        ensures long { (result ≡ Err LongRecordData) ↔ (65535 < strings_len self.old.closed
            + text_len (length (self.old.begun ++ octet ∷ []))) }
    {
        self.append_slice(&[octet])
    }
}

impl<Builder: OctetsBuilder> TxtBuilder<Builder> {
    /// Closes the open string, if there is one, and appends a whole string, which may be empty.
    ///
    /// Fails with `LongRecordData` exactly if the data would have more than 65,535 octets, and with `ShortBuf` if out of
    /// room or memory.
    pub fn append_charstr<Octs: Octets>(
        &mut self,
        string: &CharStr<Octs>,
    ) -> Result<(), TxtAppendError>
        ensures ok { OnOk result (self.new ≡ with_string self.old string.now) }
        ensures err { OnErr result (self.new ≡ self.old) }
        ensures long { (result ≡ Err LongRecordData) ↔ (65535 < strings_len (with_string self.old string.now).closed) }
    {
        if self.builder.octets().len() + 1 + string.len() > 65_535 {
            return Err(TxtAppendError::LongRecordData);
        }
        string.compose(&mut self.builder)?;
        self.head = None;
        Ok(())
    }

    /// Closes the open string, if there is one.
    pub fn close_charstr(&mut self)
        ensures { self.new ≡ all_closed self.old }
    {
        self.head = None; // the length before it is updated as it grows
    }
}

impl<Builder: OctetsBuilder + FreezeBuilder + Drop> TxtBuilder<Builder> {
    /// Returns the data of all strings, in the same octets. If there are none it is one empty string.
    ///
    /// Fails with `ShortBuf`, if out of room or memory, only if there are none.
    pub fn finish(self) -> Result<Txt<Builder::Octets>, TxtAppendError>
    where
        Builder::Octets: Drop,
        ensures ok { IfOk result (λ rdata. rdata ≡ strings (some_strings (strings_built self)) ∷ []) }
        ensures short { IfErr result (λ error. error ≡ ShortBuf) }
        ensures none { OnErr result (strings_built self ≡ []) }
    {
        let TxtBuilder {
            mut builder,
            head: _,
        } = self;
        fill(&mut builder)?;
        Ok(Txt::of_strings(builder.freeze()))
    }
}
