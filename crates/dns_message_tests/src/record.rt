//! Records of several types: with unknown data, as tuples, and in parts.

use arrayvec::ArrayVec;
use dns_header::{ComposeRecord, ParsedRecord, Record, RecordHeader};
use dns_name::{AppendError, Class, Name, ParsedName, Parser, Rtype, Ttl, UnknownRecordData};
use std::test::Fail;

/// Three octets; the record `b.a. 60 CH MX` with two octets of data, its owner with a pointer to the `a.` before it;
/// and one more octet.
const MESSAGE: [u8; 20] = [
    1, b'a', 0, 1, b'b', 0xC0, 0, 0, 15, 0, 3, 0, 0, 0, 60, 0, 2, 7, 8, 9,
];

type Data = UnknownRecordData<&'static [u8]>;

/// The record `A. 60 IN TYPE65280 \# 2 0708`.
fn record(rt: HostRuntime) -> Result<Record<Name<&'static [u8]>, Data>, Fail> {
    let owner = Name::from_slice(b"\x01A\0")?;
    let rdata = UnknownRecordData::from_octets(Rtype::from_int(65280), b"\x07\x08".as_slice())?;
    Ok(Record::new(owner, Class::IN, Ttl::from_secs(60), rdata))
}

#[test]
fn a_record_that_has_no_room_leaves_nothing(rt: HostRuntime) -> Result<(), Fail> {
    let record = record(rt)?;
    let mut target: ArrayVec<u8, 14> = ArrayVec::new();
    assert!(rt; record.compose(&mut target) == Err(AppendError::ShortBuf) && target.is_empty());
    Ok(())
}

#[test]
fn tuples_are_composed_as_records(rt: HostRuntime) -> Result<(), Fail> {
    let mut target = Vec::new(rt.alloc());
    (Name::root_slice(), 60u32, record(rt)?.into_data()).compose_record(&mut target)?;
    (
        Name::root_slice(),
        Ttl::from_secs(60),
        record(rt)?.into_data(),
    )
        .compose_record(&mut target)?;
    (
        Name::root_slice(),
        Class::IN,
        60u32,
        record(rt)?.into_data(),
    )
        .compose_record(&mut target)?;
    (
        Name::root_slice(),
        Class::IN,
        Ttl::from_secs(60),
        record(rt)?.into_data(),
    )
        .compose_record(&mut target)?;
    for octets in target.as_slice().chunks(13) {
        assert!(rt; octets == b"\0\xff\0\0\x01\0\0\0\x3c\0\x02\x07\x08".as_slice());
    }
    assert!(rt; target.len() == 52);
    Ok(())
}

#[test]
fn parts_of_records_are_changed_and_taken(rt: HostRuntime) -> Result<(), Fail> {
    let mut record = record(rt)?;
    record.set_ttl(Ttl::from_secs(61));
    record.set_class(Class::CH);
    assert!(rt; record.ttl() == Ttl::from_secs(61) && record.class() == Class::CH);
    let (owner, rdata) = record.into_owner_and_data();
    assert!(rt;
        owner.as_slice() == b"\x01A\0".as_slice() && *rdata.data() == b"\x07\x08".as_slice()
    );
    Ok(())
}

#[test]
fn unknown_data_of_any_type_is_a_records(rt: HostRuntime) -> Result<(), Fail> {
    let message = MESSAGE;
    let mut parser = Parser::from_ref(&message);
    parser.advance(3)?;
    let found: Option<Record<ParsedName<&[u8]>, UnknownRecordData<&[u8]>>> = Record::parse(
        &mut parser,
    )?;
    assert!(rt; found.is_some() && parser.pos() == 19);
    let mut parser = Parser::from_ref(&message);
    parser.advance(3)?;
    let header = RecordHeader::parse(&mut parser)?;
    let parsed = ParsedRecord::new(header, parser.parse_parser(2)?);
    let found: Option<Record<ParsedName<&[u8]>, UnknownRecordData<&[u8]>>> = parsed.to_record()?;
    assert!(rt; found.is_some());
    let record: Record<ParsedName<&[u8]>, UnknownRecordData<&[u8]>> = parsed.into_any_record()?;
    assert!(rt; record.rtype() == Rtype::MX && *record.data().data() == b"\x07\x08".as_slice());
    Ok(())
}
