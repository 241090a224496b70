//! Further data over octets of another kind.
ghost use Rattle.std.specs.Prelude.{◌≡◌, Err, IfOk, length};
ghost use Rattle.dns_octets.specs.Builder.{IsPast};
ghost use Rattle.dns_octets.specs.declared.error.AppendError.TheVariants.{ShortBuf, BadLength};

use super::FurtherData;
use dns_name::{AppendError, EmptyBuilder, FlattenInto, FromBuilder, Octets, OctetsFrom};
use dns_rr_data::DataType;
use dns_wire::copies::octets_from;
use std::alloc::Global;
use std::marker::PhantomData;

/// Copies the data to a vector. Fails if out of memory.
impl<T: DataType, S: Octets + Drop> OctetsFrom<FurtherData<T, S>> for FurtherData<T, Vec<u8>> {
    ghost octets_from_gives = { λ source result. IfOk result (λ rdata. rdata ≡ source)
        × (result ≡ Err ShortBuf → ⊥)
        × (result ≡ Err BadLength → ⊥) };

    fn try_octets_from(alloc: Global, source: FurtherData<T, S>) -> Result<Self, AppendError> {
        let octets = Vec::try_octets_from(alloc, source.octets.octets())?;
        Ok(FurtherData {
            octets,
            rtype: PhantomData,
        })
    }
}

/// The same octets: a name in them has no pointer.
impl<T: DataType, S: Octets + Drop, Octs: FromBuilder> FlattenInto<FurtherData<T, Octs>>
    for FurtherData<T, S>
where
    Octs::Builder: EmptyBuilder + Drop,
{
    ghost flattens = { λ rdata flat. flat ≡ rdata };

    ghost is_long = { λ rdata. IsPast Octs.Builder.limit (length rdata) };

    fn try_flatten_into(self, alloc: Global) -> Result<FurtherData<T, Octs>, AppendError> {
        Ok(FurtherData {
            octets: octets_from(alloc, self.octets.octets())?,
            rtype: PhantomData,
        })
    }
}
