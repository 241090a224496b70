//! Records made from tuples, and conversions to other octets.
ghost use Rattle.std.specs.Prelude.{◌≡◌, ◌⊎◌};
ghost use Rattle.dns_header.specs.RecordParts.{IsConvertedRecord, IsFlatRecord};

use super::Record;
use dns_name::{AppendError, Class, FlattenInto, OctetsFrom, Ttl};
use std::alloc::Global;

/// Owner, class, TTL in seconds, data.
impl<N, Data> From<(N, Class, u32, Data)> for Record<N, Data> {
    ghost from_gives = { λ parts rr. rr ≡ record { owner = parts.0; class = parts.1; ttl = parts.2; rdata = parts.3 } };

    fn from((owner, class, ttl, rdata): (N, Class, u32, Data)) -> Self {
        Record::new(owner, class, Ttl::from_secs(ttl), rdata)
    }
}

/// Owner, class, TTL, data.
impl<N, Data> From<(N, Class, Ttl, Data)> for Record<N, Data> {
    ghost from_gives = { λ parts rr. rr ≡ record { owner = parts.0; class = parts.1; ttl = parts.2; rdata = parts.3 } };

    fn from((owner, class, ttl, rdata): (N, Class, Ttl, Data)) -> Self {
        Record::new(owner, class, ttl, rdata)
    }
}

/// Owner, TTL in seconds, data; of class IN.
impl<N, Data> From<(N, u32, Data)> for Record<N, Data> {
    ghost from_gives = { λ parts rr. rr ≡ record { owner = parts.0; class = 1; ttl = parts.1; rdata = parts.2 } };

    fn from((owner, ttl, rdata): (N, u32, Data)) -> Self {
        Record::new(owner, Class::IN, Ttl::from_secs(ttl), rdata)
    }
}

/// Converts the owner and the data to other octets, as `Record::from_record` does.
impl<Source, SourceData, N, Data> OctetsFrom<Record<Source, SourceData>> for Record<N, Data>
where
    SourceData: Drop,
    N: OctetsFrom<Source> + Drop,
    Data: OctetsFrom<SourceData>,
{
    ghost octets_from_gives = { IsConvertedRecord N.octets_from_gives Data.octets_from_gives };

    fn try_octets_from(
        alloc: Global,
        source: Record<Source, SourceData>,
    ) -> Result<Self, AppendError> {
        Record::from_record(alloc, source)
    }
}

/// Returns the same record with flat names.
impl<N, Data, Flat, FlatData> FlattenInto<Record<Flat, FlatData>> for Record<N, Data>
where
    N: FlattenInto<Flat>,
    Data: FlattenInto<FlatData> + Drop,
    Flat: Drop,
{
    ghost flattens = { IsFlatRecord N.flattens Data.flattens };

    ghost is_long = { λ rr. N.is_long rr.owner ⊎ Data.is_long rr.rdata };

    fn try_flatten_into(self, alloc: Global) -> Result<Record<Flat, FlatData>, AppendError> {
        let owner = self.owner.try_flatten_into(alloc)?;
        let rdata = self.data.try_flatten_into(alloc)?;
        Ok(Record::new(owner, self.class, self.ttl, rdata))
    }
}
