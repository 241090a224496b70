//! Names that are built in fixed octets, and from chains of two names (RFC 1035 2.3.4).
use arrayvec::ArrayVec;
use dns_name::{
    AppendError, Chain, NameBuilder, PushError, PushNameError, RelativeName, ToRelativeName,
};
use std::test::Fail;

#[test]
fn fixed_octets_have_no_more_room(rt: HostRuntime) -> Result<(), Fail> {
    let mut name = NameBuilder::<ArrayVec<u8, 2>>::new(rt.alloc());
    name.push(b'a')?;
    assert!(rt;
        name.push(b'b') == Err(PushError::ShortBuf)
            && name.as_slice() == b"\x01a".as_slice()
            && name.into_name().err() == Some(PushNameError::ShortBuf)
    );
    let refused = NameBuilder::<ArrayVec<u8, 2>>::with_capacity(rt.alloc(), 3);
    assert!(rt; refused.err() == Some(AppendError::ShortBuf));
    let name = NameBuilder::<ArrayVec<u8, 2>>::with_capacity(rt.alloc(), 2)?;
    assert!(rt; name.into_name()?.is_root());
    Ok(())
}

#[test]
fn names_of_two_parts_follow_labels(rt: HostRuntime) -> Result<(), Fail> {
    let mut name = NameBuilder::new_vec(rt.alloc());
    name.push(b'e')?;
    let front = RelativeName::from_slice(b"\x01f")?;
    name.append_name(&Chain::new(front, RelativeName::from_slice(b"\x01g")?)?)?;
    assert!(rt; name.as_slice() == b"\x01e\x01f\x01g".as_slice());
    let origin = RelativeName::from_slice(b"\x01x")?.chain_root();
    let whole = name.append_origin(&origin)?;
    assert!(rt; whole.as_slice() == b"\x01e\x01f\x01g\x01x\x00".as_slice());
    Ok(())
}
