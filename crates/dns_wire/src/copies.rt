//! Octets made of other octets.
ghost use Rattle.std.specs.Prelude.{◌≡◌, length, Err, IfOk};
ghost use Rattle.dns_octets.specs.Builder.{IsPast};
ghost use Rattle.dns_octets.specs.declared.error.AppendError.TheVariants.{ShortBuf, BadLength};

use dns_octets::{AppendError, EmptyBuilder, FromBuilder, OctetsBuilder};
use std::alloc::Global;

/// Copies octets into octets of another type. Fails with `ShortBuf` only if that type may not hold that number of
/// octets, and with `OutOfMemory` only if out of memory.
pub fn octets_from<Octs: FromBuilder>(alloc: Global, octets: &[u8]) -> Result<Octs, AppendError>
where
    Octs::Builder: EmptyBuilder + Drop,
    ensures octets { IfOk result (λ made. Octs.list made ≡ octets.now) }
    ensures short { result ≡ Err ShortBuf → IsPast Octs.Builder.limit (length octets.now) }
    ensures not_bad { result ≡ Err BadLength → ⊥ }
{
    let mut builder = Octs::Builder::with_capacity(alloc, octets.len())?;
    builder.append_slice(octets)?;
    Ok(Octs::from_builder(builder))
}
