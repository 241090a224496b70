//! Further data as data of records.
ghost use Rattle.std.specs.Prelude.{◌==◌, ◌≡◌};
ghost use Rattle.dns_name.specs.Page.Parts.{End, Octets};
ghost use Rattle.dns_rdata_more.specs.FurtherData.{IsFurtherAt, canonical_of};

use super::FurtherData;
use crate::canonical::compose_canonical_further;
use dns_name::{
    AppendError, ComposeRecordData, Composer, Octets, ParseError, ParseRecordData, Parser,
    RecordData, Rtype,
};
use dns_rr_data::DataType;

impl<T: DataType, Octs: Octets> RecordData for FurtherData<T, Octs> {
    ghost rtype = { λ _. T.number };

    fn rtype(&self) -> Rtype {
        Rtype::from_int(T::number())
    }
}

/// Writes the octets as they are, no name with a pointer (RFC 3597 4). In canonical form a name is in lower case where its form
/// asks for it (RFC 4034 6.2, RFC 6840 5.1).
impl<T: DataType, Octs: Octets> ComposeRecordData for FurtherData<T, Octs> {
    ghost parts = { λ rdata. Octets rdata End };

    ghost canonical_octets = { λ rdata. canonical_of T.number rdata };

    fn rdlen(&self, _compress: bool) -> Option<u16> {
        Some(self.octets.octets().len() as u16)
    }

    fn compose_rdata<Target: Composer>(&self, target: &mut Target) -> Result<(), AppendError> {
        target.append_slice(self.octets.octets())
    }

    fn compose_canonical_rdata<Target: Composer>(
        &self,
        target: &mut Target,
    ) -> Result<(), AppendError> {
        compose_canonical_further(Rtype::from_int(T::number()), self.octets.octets(), target)
    }
}

/// Takes this type alone: all that is left in the parser. A name in it has no pointer (RFC 3597 4).
impl<'a, T: DataType> ParseRecordData<'a> for FurtherData<T, &'a [u8]> {
    ghost takes = { λ number. number == T.number };

    ghost reads = { λ message place number rdata. IsFurtherAt number message place rdata };

    fn parse_rdata(rtype: Rtype, parser: &mut Parser<'a>) -> Result<Option<Self>, ParseError> {
        if rtype.to_int() != T::number() {
            return Ok(None);
        }
        Ok(Some(FurtherData::parse(parser)?))
    }
}
