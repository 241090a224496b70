//! Whole names appended to a name that is built, and names that are built further.
ghost use Rattle.std.specs.Prelude.{◌≡◌, ◌<◌, ◌↔◌, Err, OnOk, OnErr};
ghost use Rattle.dns_wire.specs.Built.{built_len, labels_ended, with_labels};
ghost use Rattle.dns_flat.specs.declared.builder.error.PushNameError.TheVariants.{LongName};

use super::{NameBuilder, PushNameError};
use crate::wire_form::labels_of;
use crate::{RelativeName, ToRelativeName};
use dns_octets::OctetsBuilder;

impl<B: OctetsBuilder> NameBuilder<B> {
    /// Ends the open label, if there is one, and appends the labels of a relative name.
    ///
    /// Fails with `LongName` exactly if the labels would take more than 254 octets, and with `ShortBuf` if there is no
    /// room or no memory.
    pub fn append_name<N: ToRelativeName>(&mut self, name: &N) -> Result<(), PushNameError>
        ensures ok { OnOk result (self.new ≡ with_labels self.old (N.labels name.now)) }
        ensures err { OnErr result (self.new ≡ self.old) }
        ensures long { (result ≡ Err LongName) ↔ (254 < built_len (with_labels self.old (N.labels name.now))) }
    {
        let labels = labels_of(name);
        if labels.as_slice().len() > 254 - self.len() {
            return Err(PushNameError::LongName);
        }
        self.builder.append_slice(labels.as_slice())?;
        self.head = None;
        Ok(())
    }
}

impl<Octs: OctetsBuilder> RelativeName<Octs> {
    /// Returns a builder that continues after the labels of the name, in the same octets.
    pub fn into_builder(self) -> NameBuilder<Octs>
        ensures { result ≡ labels_ended self }
    {
        NameBuilder {
            builder: self.into_octets(),
            head: None,
        }
    }
}
