//! Checks of a record's data.
ghost use Rattle.std.specs.Prelude.{◌↔◌, IsTrue, IfOk};
ghost use Rattle.dns_rdata.specs.Fields.{IsData};
ghost use Rattle.dns_rdata.specs.DataOctets.{IsSpellable};

use crate::record::Record;
use dns_name::{AppendError, ComposeRecordData, ParseAnyRecordData, ParsedName, Parser, Rtype};
use dns_rdata::ZoneRecordData;
use std::alloc::{AllocError, Global};

/// Returns whether the octets are data of the type: its fields, every name in full, or any octets if the type has no
/// fields. Fails if out of memory.
pub fn is_data_of_type(alloc: Global, rtype: Rtype, data: &[u8]) -> Result<bool, AllocError>
    ensures { IfOk result (λ is. IsTrue is ↔ IsData rtype «data».now) }
{
    let mut parser = Parser::from_ref(data);
    let parsed: Result<ZoneRecordData<&[u8], ParsedName<&[u8]>>, _> =
        ZoneRecordData::parse_any_rdata(rtype, &mut parser);
    let Ok(rdata) = parsed else {
        return Ok(false);
    };
    if let ZoneRecordData::Unknown(_) = rdata {
        // The type has no fields, so any octets are its data.
        return Ok(true);
    }
    // The parser follows compression pointers. Only data without them is composed as the same octets.
    let mut written = Vec::new(alloc);
    match rdata.compose_rdata(&mut written) {
        Ok(()) => Ok(written.as_slice() == data),
        Err(AppendError::OutOfMemory) => Err(AllocError),
        Err(_) => unreachable!(),
    }
}

/// Returns whether text can spell the record's data: any data but that of a CAA record with an empty tag (RFC 8659
/// 4.1).
pub fn is_spellable(record: &Record<'_>) -> bool
    requires { IsData «record».now.rtype «record».now.rdata }
    ensures { IsTrue result ↔ IsSpellable «record».now.rtype «record».now.rdata }
{
    if record.rtype() != Rtype::CAA {
        return true;
    }
    // The tag's length follows one octet of flags.
    match record.data().get(1) {
        Some(&tag_len) => tag_len != 0,
        None => false,
    }
}
