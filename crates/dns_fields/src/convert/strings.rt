//! Strings up to the end, converted.
use super::ConvertRow;
use crate::{Last, Strings};
use dns_name::{AppendError, EmptyBuilder, FromBuilder, Octets, OctetsBuilder};
use std::alloc::Global;

impl<Source: Octets, Octs: FromBuilder> ConvertRow<Last<Strings<Octs>>, Octs>
    for Last<Strings<Source>>
where
    Octs::Builder: EmptyBuilder + Drop,
{
    fn convert_fields(&self, alloc: Global) -> Result<Last<Strings<Octs>>, AppendError> {
        let octets = self.0.as_slice();
        let mut builder = Octs::Builder::with_capacity(alloc, octets.len())?;
        builder.append_slice(octets)?;
        Ok(Last(Strings::of_strings(Octs::from_builder(builder))))
    }
}
