//! Stored records with their data in fields, parsed in place.
ghost use Rattle.std.specs.Prelude.{◌≡◌};
ghost use Rattle.dns_message.specs.Held.{record_of};
ghost use Rattle.dns_rdata.specs.Data.{number_of};
ghost use Rattle.dns_rdata.specs.DataOctets.{data_octets};
ghost use Rattle.dns_rdata.specs.Fields.{IsData};
ghost use Rattle.dns_rdata.specs.ZoneData.{data_of};
ghost use Rattle.zone_records.specs.Typed.{HasFieldsOfType, seen_of};

use crate::record as stored;
use dns_message::Record;
use dns_name::{Name, ParseAnyRecordData, ParsedName, Parser, Rtype};
use dns_rdata::ZoneRecordData;

/// Returns the record with its data in the fields of its type, or as unknown data if the type has none. Copies nothing.
pub fn typed_record<'a>(
    record: &stored::Record<'a>,
) -> Record<Name<&'a [u8]>, ZoneRecordData<&'a [u8], ParsedName<&'a [u8]>>>
    requires { IsData «record».now.rtype «record».now.rdata }
    ensures same { record_of (seen_of result) ≡ «record».now }
    ensures fields { HasFieldsOfType (data_of result.rdata) }
{
    let rdata = parse_data(record.rtype(), record.data());
    Record::new(record.owner(), record.class(), record.ttl(), rdata)
}

/// Parses octets that are data of the type: its fields, or unknown data if the type has none (RFC 3597 4). Copies
/// nothing.
pub fn parse_data<'a>(
    rtype: Rtype,
    octets: &'a [u8],
) -> ZoneRecordData<&'a [u8], ParsedName<&'a [u8]>>
    requires { IsData rtype octets.now }
    ensures number { number_of (data_of result) ≡ rtype }
    ensures octets { data_octets (data_of result) ≡ octets.now }
    ensures fields { HasFieldsOfType (data_of result) }
{
    let mut parser = Parser::from_ref(octets);
    match ZoneRecordData::parse_any_rdata(rtype, &mut parser) {
        Ok(rdata) => rdata,
        Err(_) => unreachable!(),
    }
}
