//! Labels of names from both ends, and names in octets of other kinds.
use super::WWW;
use arrayvec::ArrayVec;
use dns_name::{
    AppendError, FlattenInto, Label, Name, OctetsFrom, ParsedName, Parser, RelativeName,
    ToLabelIter, ToRelativeName, UnknownRecordData,
};
use dns_values::Rtype;
use std::test::Fail;

fn len_of(label: Option<Label<'_>>) -> Option<usize> {
    match label {
        Some(label) => Some(label.len()),
        None => None,
    }
}

#[test]
fn labels_of_flat_names_come_from_both_ends(rt: HostRuntime) -> Result<(), Fail> {
    let name = Name::from_slice(b"\x01a\x02bb\x03ccc\x00")?;
    let mut labels = name.iter();
    assert!(rt;
        len_of(labels.next_back()) == Some(0)
            && len_of(labels.next()) == Some(1)
            && len_of(labels.next_back()) == Some(3)
            && len_of(labels.next_back()) == Some(2)
            && len_of(labels.next_back()) == None
            && len_of(labels.next()) == None
    );
    let relative = RelativeName::from_slice(b"\x01a\x02bb")?;
    assert!(rt;
        relative.iter().rev().count() == 2 && len_of(relative.iter().rev().next()) == Some(2)
    );
    Ok(())
}

#[test]
fn labels_of_compressed_names_come_from_both_ends(rt: HostRuntime) -> Result<(), Fail> {
    let mut parser = Parser::from_ref(WWW);
    parser.advance(15)?;
    let name = ParsedName::parse(&mut parser)?;
    let mut labels = name.iter();
    assert!(rt;
        len_of(labels.next()) == Some(3)
            && len_of(labels.next_back()) == Some(0)
            && len_of(labels.next_back()) == Some(3)
            && len_of(labels.next()) == Some(7)
            && len_of(labels.next()) == None
            && len_of(labels.next_back()) == None
            && len_of(name.iter().rev().nth(2)) == Some(7)
    );
    Ok(())
}

#[test]
fn labels_of_chains_come_from_both_ends(rt: HostRuntime) -> Result<(), Fail> {
    let front = RelativeName::from_slice(b"\x01a\x02bb")?;
    let chain = front.chain(Name::from_slice(b"\x03ccc\x00")?)?;
    let mut labels = chain.iter_labels();
    assert!(rt;
        len_of(labels.next_back()) == Some(0)
            && len_of(labels.next_back()) == Some(3)
            && len_of(labels.next()) == Some(1)
            && len_of(labels.next_back()) == Some(2)
            && len_of(labels.next_back()) == None
            && len_of(labels.next()) == None
            && len_of(chain.iter_labels().rev().nth(3)) == Some(1)
    );
    Ok(())
}

#[test]
fn names_move_to_other_octets(rt: HostRuntime) -> Result<(), Fail> {
    let name = Name::<Vec<u8>>::try_octets_from(rt.alloc(), Name::from_slice(b"\x01A\x00")?)?;
    assert!(rt; name.as_slice() == b"\x01A\x00".as_slice());
    let array = Name::<ArrayVec<u8, 3>>::try_octets_from(rt.alloc(), name)?;
    assert!(rt; array.as_slice() == b"\x01A\x00".as_slice());
    let short = Name::<ArrayVec<u8, 2>>::try_octets_from(rt.alloc(), array);
    assert!(rt; short.err() == Some(AppendError::ShortBuf));
    let front = RelativeName::from_slice(b"\x01A")?;
    let relative = RelativeName::<Vec<u8>>::try_octets_from(rt.alloc(), front)?;
    assert!(rt; relative.as_slice() == b"\x01A".as_slice());
    let short = RelativeName::<ArrayVec<u8, 1>>::try_octets_from(rt.alloc(), relative);
    assert!(rt; short.err() == Some(AppendError::ShortBuf));
    Ok(())
}

#[test]
fn data_is_made_flat(rt: HostRuntime) -> Result<(), Fail> {
    let rdata = UnknownRecordData::from_octets(Rtype::from_int(2), b"\xc0\x0c".as_slice())?;
    let flat: UnknownRecordData<Vec<u8>> = rdata.flatten_into(rt.alloc())?;
    assert!(rt;
        flat.rtype() == Rtype::from_int(2) && flat.data().as_slice() == b"\xc0\x0c".as_slice()
    );
    let short: Result<UnknownRecordData<ArrayVec<u8, 1>>, AppendError> = flat.try_flatten_into(
        rt.alloc(),
    );
    assert!(rt; short.err() == Some(AppendError::ShortBuf));
    Ok(())
}
