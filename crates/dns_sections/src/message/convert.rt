//! Conversions of messages to other octets.
ghost use Rattle.std.specs.Prelude.{◌≡◌, length, Err, IfOk};
ghost use Rattle.dns_octets.specs.Builder.{IsPast};
ghost use Rattle.dns_octets.specs.declared.error.AppendError.TheVariants.{ShortBuf, BadLength};
ghost use Rattle.dns_sections.specs.Message.{octets_in};

use crate::Message;
use dns_name::{AppendError, EmptyBuilder, FromBuilder, Octets, OctetsBuilder, OctetsFrom};
use std::alloc::Global;

/// Returns the same message over other octets. Fails with `ShortBuf` only if these cannot hold as many, and with
/// `OutOfMemory` only if out of memory.
impl<Source: Octets + Drop, Octs: FromBuilder> OctetsFrom<Message<Source>> for Message<Octs>
where
    Octs::Builder: EmptyBuilder + Drop,
{
    ghost octets_from_gives = { λ source result. IfOk result (λ message. octets_in Octs.list message ≡ octets_in Source.list source)
        × (result ≡ Err ShortBuf → IsPast Octs.Builder.limit (length (octets_in Source.list source)))
        × (result ≡ Err BadLength → ⊥) };

    fn try_octets_from(alloc: Global, source: Message<Source>) -> Result<Self, AppendError> {
        let octets = source.as_slice();
        let mut builder = Octs::Builder::with_capacity(alloc, octets.len())?;
        builder.append_slice(octets)?;
        Ok(Message {
            octets: Octs::from_builder(builder),
        })
    }
}
