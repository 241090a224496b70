//! Rests that are converted.
ghost use Rattle.std.specs.Prelude.{◌≡◌, Err, length, IfOk};
ghost use Rattle.dns_octets.specs.Builder.{IsPast};
ghost use Rattle.dns_octets.specs.declared.error.AppendError.TheVariants.{ShortBuf, BadLength};

use super::ConvertRow;
use crate::{Last, Rest16, Rest64, RestText};
use dns_name::{AppendError, EmptyBuilder, FromBuilder, Octets, OctetsBuilder};
use std::alloc::Global;

/// The same octets, held otherwise.
fn copied<Octs: FromBuilder>(alloc: Global, octets: &[u8]) -> Result<Octs, AppendError>
where
    Octs::Builder: EmptyBuilder + Drop,
    ensures ok { IfOk result (λ made. Octs.list made ≡ octets.now) }
    ensures short { result ≡ Err ShortBuf → IsPast Octs.Builder.limit (length octets.now) }
    ensures not_bad { result ≡ Err BadLength → ⊥ }
{
    let mut builder = Octs::Builder::with_capacity(alloc, octets.len())?;
    builder.append_slice(octets)?;
    Ok(Octs::from_builder(builder))
}

impl<Source: Octets, Octs: FromBuilder> ConvertRow<Last<RestText<Octs>>, Octs>
    for Last<RestText<Source>>
where
    Octs::Builder: EmptyBuilder + Drop,
{
    fn convert_fields(&self, alloc: Global) -> Result<Last<RestText<Octs>>, AppendError> {
        let Last(RestText(octets)) = self;
        Ok(Last(RestText(copied(alloc, octets.octets())?)))
    }
}

impl<Source: Octets, Octs: FromBuilder> ConvertRow<Last<Rest16<Octs>>, Octs>
    for Last<Rest16<Source>>
where
    Octs::Builder: EmptyBuilder + Drop,
{
    fn convert_fields(&self, alloc: Global) -> Result<Last<Rest16<Octs>>, AppendError> {
        let Last(Rest16(octets)) = self;
        Ok(Last(Rest16(copied(alloc, octets.octets())?)))
    }
}

impl<Source: Octets, Octs: FromBuilder> ConvertRow<Last<Rest64<Octs>>, Octs>
    for Last<Rest64<Source>>
where
    Octs::Builder: EmptyBuilder + Drop,
{
    fn convert_fields(&self, alloc: Global) -> Result<Last<Rest64<Octs>>, AppendError> {
        let Last(Rest64(octets)) = self;
        Ok(Last(Rest64(copied(alloc, octets.octets())?)))
    }
}
