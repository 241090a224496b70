//! Data in octets of another kind, with room for it and without.
use arrayvec::ArrayVec;
use dns_name::{
    AppendError, FlattenInto, Name, OctetsFrom, ParseAnyRecordData, ParsedName, Parser, Rtype,
};
use dns_rdata::{Mx, Txt, ZoneRecordData};
use std::test::Fail;

const UPPER: &[u8] = b"\x01A\x01b\x00";

#[test]
fn a_name_is_of_another_kind_where_it_fits(rt: HostRuntime) -> Result<(), Fail> {
    let mx = Mx::new(10, Name::from_slice(UPPER)?);
    let same: Mx<Name<ArrayVec<u8, 5>>> = OctetsFrom::try_octets_from(rt.alloc(), mx)?;
    assert!(rt; same.exchange().as_slice() == UPPER);
    let mx = Mx::new(10, Name::from_slice(UPPER)?);
    let less: Result<Mx<Name<ArrayVec<u8, 4>>>, AppendError> = OctetsFrom::try_octets_from(
        rt.alloc(),
        mx,
    );
    assert!(rt; less.err() == Some(AppendError::ShortBuf));
    Ok(())
}

#[test]
fn strings_are_of_another_kind_where_they_fit(rt: HostRuntime) -> Result<(), Fail> {
    let txt = Txt::from_octets(b"\x02ab".as_slice())?;
    let less: Result<ArrayVec<u8, 1>, AppendError> = txt.text(rt.alloc());
    assert!(rt; less.err() == Some(AppendError::ShortBuf));
    let same: Result<Txt<ArrayVec<u8, 3>>, AppendError> = OctetsFrom::try_octets_from(
        rt.alloc(),
        txt,
    );
    assert!(rt; same.is_ok());
    let txt = Txt::from_octets(b"\x02ab".as_slice())?;
    let less: Result<Txt<ArrayVec<u8, 2>>, AppendError> = txt.flatten_into(rt.alloc());
    assert!(rt; less.err() == Some(AppendError::ShortBuf));
    Ok(())
}

/// Data whose octets and names are in a message.
type Read<'a> = ZoneRecordData<&'a [u8], ParsedName<&'a [u8]>>;

/// Data in at most two octets.
type Small = ZoneRecordData<ArrayVec<u8, 2>, Name<ArrayVec<u8, 2>>>;

#[test]
fn data_of_any_type_has_to_fit(rt: HostRuntime) -> Result<(), Fail> {
    let txt: Read<'_> = ZoneRecordData::parse_any_rdata(
        Rtype::TXT,
        &mut Parser::from_ref(b"\x02ab"),
    )?;
    let small: Result<Small, AppendError> = txt.try_flatten_into(rt.alloc());
    assert!(rt; small.err() == Some(AppendError::ShortBuf));
    Ok(())
}
