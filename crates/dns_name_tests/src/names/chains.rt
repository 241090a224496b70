//! Chains of two names, and names made flat or lower case in octets of each kind.
use super::www;
use arrayvec::ArrayVec;
use dns_name::{
    AppendError, Chain, FlattenInto, Name, OctetsBuilder, RelativeName, ToLabelIter, ToName,
    ToRelativeName,
};
use std::test::Fail;

fn relative(octets: &[u8]) -> Result<RelativeName<&[u8]>, Fail> {
    Ok(RelativeName::from_slice(octets)?)
}

#[test]
fn chains_of_relative_names_are_relative(rt: HostRuntime) -> Result<(), Fail> {
    let chain = Chain::new(relative(b"\x01a")?, relative(b"\x01b")?)?;
    assert!(rt; ToRelativeName::to_vec(&chain, rt.alloc())?.as_slice() == b"\x01a\x01b".as_slice());
    let long = chain.chain(www()?)?;
    assert!(rt; long.compose_len() == 21);
    assert!(rt;
        ToName::to_vec(&long, rt.alloc())?.as_slice()
            == b"\x01a\x01b\x03www\x07example\x03com\x00".as_slice()
    );
    let (front, back) = long.unwrap();
    assert!(rt; back.label_count() == 4);
    let (first, second) = front.unwrap();
    assert!(rt;
        first.as_slice() == b"\x01a".as_slice() && second.as_slice() == b"\x01b".as_slice()
    );
    let rooted = relative(b"\x01a")?.chain_root();
    assert!(rt; ToName::to_vec(&rooted, rt.alloc())?.as_slice() == b"\x01a\x00".as_slice());
    Ok(())
}

#[test]
fn relative_names_of_any_kind_are_made(rt: HostRuntime) -> Result<(), Fail> {
    let alloc = rt.alloc();
    let chain = Chain::new(relative(b"\x01A")?, relative(b"\x01b")?)?;
    let octets = b"\x01A\x01b".as_slice();
    assert!(rt; chain.try_to_relative_name::<Vec<u8>>(alloc)?.as_slice() == octets);
    assert!(rt; chain.to_relative_name::<ArrayVec<u8, 4>>(alloc)?.as_slice() == octets);
    let refused = chain.to_relative_name::<ArrayVec<u8, 3>>(alloc).err();
    assert!(rt; refused == Some(AppendError::ShortBuf));
    let octets = b"\x01a\x01b".as_slice();
    assert!(rt;
        chain
            .try_to_canonical_relative_name::<Vec<u8>>(alloc)?
            .as_slice()
            == octets
    );
    assert!(rt;
        chain
            .to_canonical_relative_name::<Vec<u8>>(alloc)?
            .as_slice()
            == octets
    );
    Ok(())
}

fn array(octets: &[u8]) -> Result<ArrayVec<u8, 8>, AppendError> {
    let mut made = ArrayVec::new();
    made.append_slice(octets)?;
    Ok(made)
}

#[test]
fn names_are_lowered_in_place(rt: HostRuntime) -> Result<(), Fail> {
    let mut name = Name::from_octets(Vec::from_slice(rt.alloc(), b"\x01A\x00")?)?;
    name.make_canonical();
    assert!(rt; name.as_slice() == b"\x01a\x00".as_slice());
    let mut name = Name::from_octets(array(b"\x01A\x00")?)?;
    name.make_canonical();
    assert!(rt; name.as_slice() == b"\x01a\x00".as_slice());
    let mut name = RelativeName::from_octets(Vec::from_slice(rt.alloc(), b"\x01A")?)?;
    name.make_canonical();
    assert!(rt; name.as_slice() == b"\x01a".as_slice());
    let mut name = RelativeName::from_octets(array(b"\x01A")?)?;
    name.make_canonical();
    assert!(rt; name.as_slice() == b"\x01a".as_slice());
    Ok(())
}

#[test]
fn names_are_flattened(rt: HostRuntime) -> Result<(), Fail> {
    let flat: Name<Vec<u8>> = www()?.try_flatten_into(rt.alloc())?;
    assert!(rt; flat.as_slice() == b"\x03www\x07example\x03com\x00".as_slice());
    let again: Name<ArrayVec<u8, 17>> = flat.flatten_into(rt.alloc())?;
    assert!(rt; again.len() == 17);
    let chain = relative(b"\x01A")?.chain(Name::from_slice(b"\x01b\x00")?)?;
    let flat: Name<Vec<u8>> = chain.flatten_into(rt.alloc())?;
    assert!(rt; flat.as_slice() == b"\x01A\x01b\x00".as_slice());
    Ok(())
}
