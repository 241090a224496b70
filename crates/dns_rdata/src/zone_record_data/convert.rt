//! Data of any type in octets of another kind.
ghost use Rattle.std.specs.Prelude.{◌≡◌, Err, IfOk};
ghost use Rattle.dns_octets.specs.declared.error.AppendError.TheVariants.{ShortBuf, BadLength};
ghost use Rattle.dns_rdata.specs.Data.{HoldsPast};
ghost use Rattle.dns_rdata.specs.ZoneData.{data_of};

use super::ZoneRecordData;
use dns_name::{
    AppendError, EmptyBuilder, FlattenInto, FromBuilder, Name, Octets, OctetsFrom, ToName,
};
use dns_rr_data::FlattenData;
use std::alloc::Global;

/// The arms of `try_flatten_into`.
macro_rules! flattened {
    (($this:ident, $alloc:ident, $Octs:ident) $($variant:ident = $rtype:ident: $row:ty,)*) => {
        match $this {
            $(ZoneRecordData::$variant(rdata) => {
                held!($variant, FlattenData::<$Octs>::flatten_data(rdata, $alloc))
            })*
            ZoneRecordData::Unknown(rdata) => held!(Unknown, rdata.try_flatten_into($alloc)),
        }
    };
}

/// Returns the same data, with flat names.
impl<Source: Octets + Drop, N: ToName + Drop, Octs: FromBuilder + Drop> FlattenInto<
    ZoneRecordData<Octs, Name<Octs>>,
> for ZoneRecordData<Source, N>
where
    Octs::Builder: EmptyBuilder + Drop,
{
    ghost flattens = { λ rdata flat. data_of flat ≡ data_of rdata };

    ghost is_long = { λ rdata. HoldsPast Octs.Builder.limit (data_of rdata) };

    fn try_flatten_into(
        self,
        alloc: Global,
    ) -> Result<ZoneRecordData<Octs, Name<Octs>>, AppendError> {
        with_types!(flattened, self, alloc, Octs)
    }
}

/// Returns the same data over other octets. Fails with `ShortBuf` only if these can't hold as many as a field has, and with
/// `OutOfMemory` only if out of memory.
impl<Source: Octets + Drop, N: ToName + Drop, Octs: FromBuilder + Drop> OctetsFrom<
    ZoneRecordData<Source, N>,
> for ZoneRecordData<Octs, Name<Octs>>
where
    Octs::Builder: EmptyBuilder + Drop,
{
    ghost octets_from_gives = { λ source result. IfOk result (λ rdata. data_of rdata ≡ data_of source)
        × (result ≡ Err ShortBuf → HoldsPast Octs.Builder.limit (data_of source))
        × (result ≡ Err BadLength → ⊥) };

    fn try_octets_from(
        alloc: Global,
        source: ZoneRecordData<Source, N>,
    ) -> Result<Self, AppendError> {
        source.try_flatten_into(alloc)
    }
}
