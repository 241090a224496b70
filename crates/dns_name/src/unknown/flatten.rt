//! Unknown data, in octets of another kind.
ghost use Rattle.std.specs.Prelude.{◌≡◌, length};
ghost use Rattle.dns_octets.specs.Builder.{IsPast};

use super::UnknownRecordData;
use crate::FlattenInto;
use dns_octets::{AppendError, EmptyBuilder, FromBuilder, Octets};
use dns_wire::copies::octets_from;
use std::alloc::Global;

/// The same octets: a name in them is not known.
impl<Source: Octets + Drop, Octs: FromBuilder> FlattenInto<UnknownRecordData<Octs>>
    for UnknownRecordData<Source>
where
    Octs::Builder: EmptyBuilder + Drop,
{
    ghost flattens = { λ rdata flat. flat ≡ rdata };

    ghost is_long = { λ rdata. IsPast Octs.Builder.limit (length rdata.octets) };

    fn try_flatten_into(self, alloc: Global) -> Result<UnknownRecordData<Octs>, AppendError> {
        Ok(UnknownRecordData {
            rtype: self.rtype,
            octets: octets_from(alloc, self.octets.octets())?,
        })
    }
}
