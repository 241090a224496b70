//! Records whose parts are changed and converted, and one that cannot be parsed.

use arrayvec::ArrayVec;
use dns_header::{Record, RecordParseError};
use dns_name::{
    AppendError, Class, FlattenInto, Name, OctetsFrom, ParseError, ParsedName, Parser, Rtype, Ttl,
    UnknownRecordData,
};
use std::test::Fail;

type Data<Octs> = UnknownRecordData<Octs>;

/// The record `b.a. 60 CH TYPE65280 \# 2 0708`.
fn record() -> Result<Record<Name<&'static [u8]>, Data<&'static [u8]>>, Fail> {
    let owner = Name::from_slice(b"\x01b\x01a\0")?;
    let rdata = UnknownRecordData::from_octets(Rtype::from_int(65280), b"\x07\x08".as_slice())?;
    Ok(Record::new(owner, Class::CH, Ttl::from_secs(60), rdata))
}

#[test]
fn data_is_changed_in_its_place(rt: HostRuntime) -> Result<(), Fail> {
    let mut record = Record::new(Name::root_slice(), Class::CH, Ttl::from_secs(60), 7u8);
    *record.data_mut() = 8;
    assert!(rt;
        *record.data() == 8
            && record.owner().is_root()
            && record.class() == Class::CH
            && record.ttl() == Ttl::from_secs(60)
    );
    Ok(())
}

#[test]
fn parts_are_converted(rt: HostRuntime) -> Result<(), Fail> {
    let owned: Record<Name<Vec<u8>>, Data<Vec<u8>>> = Record::from_record(rt.alloc(), record()?)?;
    let small: Record<Name<ArrayVec<u8, 5>>, Data<ArrayVec<u8, 2>>> = Record::try_octets_from(
        rt.alloc(),
        record()?,
    )?;
    assert!(rt;
        owned.owner().as_slice() == b"\x01b\x01a\0".as_slice()
            && owned.class() == Class::CH
            && owned.ttl() == Ttl::from_secs(60)
            && owned.data().data().as_slice() == b"\x07\x08".as_slice()
            && small.owner().as_slice() == b"\x01b\x01a\0".as_slice()
            && small.data().rtype() == Rtype::from_int(65280)
    );
    let short: Result<Record<Name<ArrayVec<u8, 4>>, Data<Vec<u8>>>, AppendError> =
        Record::from_record(rt.alloc(), record()?);
    assert!(rt; short.err() == Some(AppendError::ShortBuf));
    let narrow: Result<Record<Name<Vec<u8>>, Data<ArrayVec<u8, 1>>>, AppendError> =
        Record::from_record(rt.alloc(), record()?);
    assert!(rt; narrow.err() == Some(AppendError::ShortBuf));
    Ok(())
}

#[test]
fn names_in_messages_are_made_flat(rt: HostRuntime) -> Result<(), Fail> {
    let message = *b"\x01a\0\x01b\xc0\0";
    let mut parser = Parser::from_ref(&message);
    parser.advance(3)?;
    let owner = ParsedName::parse(&mut parser)?;
    let (_, rdata) = record()?.into_owner_and_data();
    let parsed = Record::new(owner, Class::IN, Ttl::from_secs(60), rdata);
    let flat: Record<Name<Vec<u8>>, Data<Vec<u8>>> = parsed.flatten_into(rt.alloc())?;
    assert!(rt;
        flat.owner().as_slice() == b"\x01b\x01a\0".as_slice()
            && flat.class() == Class::IN
            && flat.data().data().as_slice() == b"\x07\x08".as_slice()
    );
    Ok(())
}

#[test]
fn an_error_shows_what_failed(rt: HostRuntime) -> Result<(), Fail> {
    let name: RecordParseError<ParseError, AppendError> = RecordParseError::Name(
        ParseError::ShortInput,
    );
    let rdata: RecordParseError<ParseError, AppendError> = RecordParseError::Data(
        AppendError::BadLength,
    );
    let room: RecordParseError<ParseError, AppendError> = RecordParseError::ShortBuf;
    assert!(rt; name.to_string(rt.alloc())?.as_str() == "unexpected end of input");
    assert!(rt; rdata.to_string(rt.alloc())?.as_str() == "bad length");
    assert!(rt; room.to_string(rt.alloc())?.as_str() == "unexpected end of buffer");
    Ok(())
}
