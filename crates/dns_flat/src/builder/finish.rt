//! Names from labels that were built.
ghost use Rattle.std.specs.Prelude.{◌≡◌, ◌<◌, ◌↔◌, ◌++◌, Err, length, IfOk};
ghost use Rattle.dns_label.specs.Name.{wire};
ghost use Rattle.dns_wire.specs.Built.{labels_built};
ghost use Rattle.dns_flat.specs.declared.builder.error.PushNameError.TheVariants.{LongName};

use super::{NameBuilder, PushNameError};
use crate::wire_form::wire_of;
use crate::{Name, RelativeName, ToName};
use dns_octets::{FreezeBuilder, OctetsBuilder};

impl<B: OctetsBuilder + FreezeBuilder> NameBuilder<B> {
    /// Returns the relative name of all labels, in the same octets.
    pub fn finish(self) -> RelativeName<B::Octets>
        ensures { result ≡ labels_built self }
    {
        let NameBuilder { builder, head: _ } = self;
        RelativeName::of_octets(builder.freeze())
    }
}

impl<B: OctetsBuilder + FreezeBuilder + Drop> NameBuilder<B> {
    /// Returns the name of all labels and the root. Fails with `ShortBuf` if there is no room or no memory for the
    /// root's octet, and never with `LongName`.
    pub fn into_name(self) -> Result<Name<B::Octets>, PushNameError>
        ensures ok { IfOk result (λ name. name ≡ labels_built self) }
        ensures long { result ≡ Err LongName → ⊥ }
    {
        let NameBuilder {
            mut builder,
            head: _,
        } = self;
        builder.append_slice(&[0])?;
        Ok(Name::from_octets_unchecked(builder.freeze()))
    }

    /// Returns the name of all labels, followed by those of an absolute name.
    ///
    /// Fails with `LongName` exactly if it would have more than 255 octets, and with `ShortBuf` if there is no room or
    /// no memory.
    pub fn append_origin<N: ToName>(self, origin: &N) -> Result<Name<B::Octets>, PushNameError>
        ensures ok { IfOk result (λ name. name ≡ labels_built self ++ N.name origin.now) }
        ensures long { (result ≡ Err LongName) ↔ (255 < length (wire (labels_built self ++ N.name origin.now))) }
    {
        let labels = wire_of(origin);
        if labels.as_slice().len() > 255 - self.len() {
            return Err(PushNameError::LongName);
        }
        let NameBuilder {
            mut builder,
            head: _,
        } = self;
        builder.append_slice(labels.as_slice())?;
        Ok(Name::from_octets_unchecked(builder.freeze()))
    }
}
