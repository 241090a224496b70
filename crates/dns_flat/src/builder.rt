//! Names that are built label by label (RFC 1035 3.1).
ghost use Rattle.std.specs.Prelude.{◌≡◌, ◌+◌, ◌<◌, ◌≤◌, ◌↔◌, ◌++◌, ◌∷◌, List, ℕ, [], length, Ok, Err, Some, None, IsTrue, IsSome, IfOk, IfErr, OnOk, OnErr};
ghost use Rattle.dns_label.specs.Name.{IsName, labels_wire};
ghost use Rattle.dns_label.specs.Composed.{label_wire};
ghost use Rattle.dns_wire.specs.Built.{Built, StandsFor, built_of, nothing_built, labels_built, labels_ended, built_len, open_len, with_octets, with_label, ended};
ghost use Rattle.dns_wire.specs.declared.push_error.PushError.TheVariants.{LongLabel, LongName};
ghost use Rattle.dns_flat.specs.NoName.{IsNoRelativeName};
ghost use Rattle.dns_flat.specs.declared.relative.RelativeNameError.TheVariants as relative_error;
ghost use Rattle.dns_octets.specs.Builder.{IsPast, IsWithin};
ghost use Rattle.dns_octets.specs.declared.error.AppendError.TheVariants.{ShortBuf, BadLength};

pub(crate) mod digits;
mod error;
mod finish;
mod names;
mod text;

use crate::RelativeNameError;
use crate::relative::check;
use dns_label::Label;
use dns_octets::{AppendError, EmptyBuilder, OctetsBuilder, WriteOctets};
use dns_wire::PushError;
pub use error::PushNameError;
use std::alloc::Global;
use std::marker::Model;

/// A name that is built: finished labels, and maybe an open one. It has at most 254 octets, so that the root still fits
/// after it.
///
/// A contract sees it as a `Built`, its labels. A call that fails leaves it as it was.
#[derive(Debug, Drop)]
pub struct NameBuilder<B: OctetsBuilder> {
    builder: B,
    /// The place of the open label's length octet, which is updated as the label grows.
    head: Option<usize>,
}

impl<B: OctetsBuilder> Model for NameBuilder<B> {
    ghost Value = { Built };

    ghost view = { λ name. built_of (B.list name.builder) name.head };

    ghost invariant = { λ name. StandsFor (B.list name.builder) name.head (built_of (B.list name.builder) name.head) };
}

impl<B: EmptyBuilder> NameBuilder<B> {
    /// Creates an empty builder. Its octets grow on this allocator if they grow at all.
    pub fn new(alloc: Global) -> Self
        ensures { result ≡ nothing_built }
    {
        NameBuilder {
            builder: B::empty(alloc),
            head: None,
        }
    }

    /// Creates an empty builder with room for `capacity` octets. Fails if the octets can never be that many, and with
    /// `ShortBuf` only then; and with `OutOfMemory` if out of memory.
    pub fn with_capacity(alloc: Global, capacity: usize) -> Result<Self, AppendError>
    where
        B: Drop,
        ensures ok { IfOk result (λ name. name ≡ nothing_built) }
        ensures fits { OnOk result (IsWithin B.limit capacity) }
        ensures short { result ≡ Err ShortBuf → IsPast B.limit capacity }
        ensures not_bad { result ≡ Err BadLength → ⊥ }
    {
        Ok(NameBuilder {
            builder: B::with_capacity(alloc, capacity)?,
            head: None,
        })
    }
}

impl NameBuilder<Vec<u8>> {
    /// Creates an empty builder over a vector.
    pub fn new_vec(alloc: Global) -> Self
        ensures { result ≡ nothing_built }
    {
        NameBuilder::new(alloc)
    }

    /// Creates an empty builder over a vector with room for `capacity` octets. Fails if out of memory, and never with
    /// `ShortBuf`.
    pub fn vec_with_capacity(alloc: Global, capacity: usize) -> Result<Self, AppendError>
        ensures ok { IfOk result (λ name. name ≡ nothing_built) }
        ensures short { result ≡ Err ShortBuf → ⊥ }
        ensures not_bad { result ≡ Err BadLength → ⊥ }
    {
        NameBuilder::with_capacity(alloc, capacity)
    }
}

impl<B: OctetsBuilder> NameBuilder<B> {
    /// Continues after the octets of a builder, which are finished labels. Fails if they are no relative name,
    /// uncompressed and whole, as `RelativeName::from_octets` does.
    pub fn from_builder(builder: B) -> Result<Self, RelativeNameError>
    where
        B: Drop,
        ensures ok { IfOk result (λ name. IsName name.finished × (name ≡ labels_ended name.finished) × (B.list builder ≡ labels_wire name.finished)) }
        ensures err { OnErr result ((name : List (List ℕ)) → IsName name → B.list builder ≡ labels_wire name → ⊥) }
        ensures why { IfErr result (IsNoRelativeName (B.list builder)) }
        ensures long { IfErr result (λ error. 254 < length (B.list builder) → error ≡ relative_error.LongName) }
    {
        check(builder.octets())?;
        Ok(NameBuilder {
            builder,
            head: None,
        })
    }

    /// Returns the labels so far, each after its length, the open one too.
    pub fn as_slice(&self) -> &[u8]
        ensures labels { result.now ≡ labels_wire (labels_built self.now) }
        ensures few { length result.now ≤ 254 }
    {
        self.builder.octets()
    }

    /// Returns the number of octets of the labels, with the open label's length octet.
    pub fn len(&self) -> usize
        ensures octets { result ≡ built_len self.now }
        ensures few { result ≤ 254 }
    {
        self.as_slice().len()
    }

    /// Returns whether there is no label yet.
    pub fn is_empty(&self) -> bool
        ensures { IsTrue result ↔ (labels_built self.now ≡ []) }
    {
        self.as_slice().is_empty()
    }

    /// Returns whether a label is open.
    pub fn in_label(&self) -> bool
        ensures { IsTrue result ↔ IsSome self.now.begun }
    {
        self.head.is_some()
    }

    /// Ends the open label, if there is one.
    pub fn end_label(&mut self)
        ensures { self.new ≡ ended self.old }
    {
        self.head = None;
    }
}

impl<B: WriteOctets> NameBuilder<B> {
    /// Appends an octet to the open label, or begins a label with it, as `append_slice` does.
    pub fn push(&mut self, octet: u8) -> Result<(), PushError>
        ensures ok { OnOk result (self.new ≡ with_octets self.old (octet ∷ [])) }
        ensures err { OnErr result (self.new ≡ self.old) }
        ensures long_name { (result ≡ Err LongName) ↔ (254 < built_len (with_octets self.old (octet ∷ []))) }
        ensures long_label { (result ≡ Err LongLabel) ↔ ((built_len (with_octets self.old (octet ∷ [])) ≤ 254) × (63 < open_len self.old + 1)) }
    {
        self.append_slice(&[octet])
    }

    /// Appends octets to the open label, or begins a label with them. No octets change nothing.
    ///
    /// Fails with `LongName` exactly if the labels would take more than 254 octets; else with `LongLabel` exactly if
    /// the label would have more than 63; and with `ShortBuf` if there is no room or no memory.
    pub fn append_slice(&mut self, octets: &[u8]) -> Result<(), PushError>
        ensures ok { OnOk result (self.new ≡ with_octets self.old octets.now) }
        ensures err { OnErr result (self.new ≡ self.old) }
        ensures long_name { (result ≡ Err LongName) ↔ (254 < built_len (with_octets self.old octets.now)) }
        ensures long_label { (result ≡ Err LongLabel) ↔ ((built_len (with_octets self.old octets.now) ≤ 254) × (63 < open_len self.old + length octets.now)) }
    {
        let len = self.len();
        let head = self.head;
        if octets.is_empty() {
            return Ok(());
        }
        let Some(place) = head else {
            append_label_to(&mut self.builder, octets)?;
            self.head = Some(len);
            return Ok(());
        };
        let count = len - place - 1;
        if octets.len() > 254 - len {
            return Err(PushError::LongName);
        }
        if octets.len() > 63 - count {
            return Err(PushError::LongLabel);
        }
        self.builder.append_slice(octets)?;
        self.builder.set_octet(place, (count + octets.len()) as u8);
        Ok(())
    }
}

impl<B: OctetsBuilder> NameBuilder<B> {
    /// Ends the open label, if there is one, and appends a whole label. A label without octets adds nothing.
    ///
    /// Fails with `LongName` exactly if the labels would take more than 254 octets; else with `LongLabel` exactly if
    /// the label has more than 63; and with `ShortBuf` if there is no room or no memory.
    pub fn append_label(&mut self, label: &[u8]) -> Result<(), PushError>
        ensures ok { OnOk result (self.new ≡ with_label self.old label.now) }
        ensures err { OnErr result (self.new ≡ self.old) }
        ensures long_name { (result ≡ Err LongName) ↔ (254 < built_len (with_label self.old label.now)) }
        ensures long_label { (result ≡ Err LongLabel) ↔ ((built_len (with_label self.old label.now) ≤ 254) × (63 < length label.now)) }
    {
        let _len = self.len();
        if !label.is_empty() {
            append_label_to(&mut self.builder, label)?;
        }
        self.head = None;
        Ok(())
    }
}

/// Appends a label after its length, all or nothing.
fn append_label_to<B: OctetsBuilder>(builder: &mut B, label: &[u8]) -> Result<(), PushError>
    requires { length (B.list builder.old) ≤ 254 }
    ensures ok { OnOk result (B.list builder.new ≡ B.list builder.old ++ label_wire label.now) }
    ensures err { OnErr result (B.list builder.new ≡ B.list builder.old) }
    ensures long_name { (result ≡ Err LongName) ↔ (254 < length (B.list builder.old) + 1 + length label.now) }
    ensures long_label { (result ≡ Err LongLabel) ↔ ((length (B.list builder.old) + 1 + length label.now ≤ 254) × (63 < length label.now)) }
{
    if label.len() >= 254 - builder.octets().len() {
        return Err(PushError::LongName);
    }
    let Ok(label) = Label::from_slice(label) else {
        return Err(PushError::LongLabel);
    };
    label.compose(builder)?;
    Ok(())
}
