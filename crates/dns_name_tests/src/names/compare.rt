//! Absolute and relative names: how they begin and end, composed and made flat (RFC 4034 6.2; RFC 4343).
use super::www;
use arrayvec::ArrayVec;
use dns_name::{AppendError, Name, RelativeName, ToLabelIter, ToName};
use std::test::Fail;

const FLAT: &[u8] = b"\x03WWW\x07example\x03com\x00";

const LOWERED: &[u8] = b"\x03www\x07example\x03com\x00";

fn flat(octets: &[u8]) -> Result<Name<&[u8]>, Fail> {
    Ok(Name::from_slice(octets)?)
}

#[test]
fn names_of_both_kinds_begin_and_end_alike(rt: HostRuntime) -> Result<(), Fail> {
    let name = www()?;
    let base = flat(b"\x07EXAMPLE\x03com\x00")?;
    assert!(rt;
        name.ends_with(&base) && ToLabelIter::ends_with(&name, &base) && !base.ends_with(&name)
    );
    assert!(rt; flat(FLAT)?.ends_with(&name));
    assert!(rt; name.starts_with(&flat(FLAT)?));
    assert!(rt; !name.starts_with(&base));
    assert!(rt; flat(FLAT)?.starts_with(&name));
    let relative = RelativeName::from_slice(b"\x03www\x07example")?;
    assert!(rt;
        name.starts_with(&relative)
            && relative.starts_with(&RelativeName::from_slice(b"\x03WWW")?)
            && relative.ends_with(&RelativeName::from_slice(b"\x07EXAMPLE")?)
            && !relative.ends_with(&RelativeName::from_slice(b"\x03www")?)
    );
    Ok(())
}

#[test]
fn names_are_composed(rt: HostRuntime) -> Result<(), Fail> {
    let mut octets = Vec::from_slice(rt.alloc(), b"x")?;
    www()?.compose(&mut octets)?;
    assert!(rt; octets.as_slice() == b"x\x03www\x07example\x03com\x00".as_slice());
    let mut lowered = Vec::new(rt.alloc());
    flat(FLAT)?.compose_canonical(&mut lowered)?;
    assert!(rt; lowered.as_slice() == LOWERED);
    let mut small = ArrayVec::<u8, 16>::new();
    assert!(rt; www()?.compose(&mut small) == Err(AppendError::ShortBuf));
    assert!(rt; small.is_empty());
    Ok(())
}

#[test]
fn names_are_made_flat(rt: HostRuntime) -> Result<(), Fail> {
    let alloc = rt.alloc();
    let name = www()?;
    assert!(rt; name.try_to_name::<Vec<u8>>(alloc)?.as_slice() == LOWERED);
    assert!(rt; name.to_name::<ArrayVec<u8, 17>>(alloc)?.as_slice() == LOWERED);
    let refused = name.to_name::<ArrayVec<u8, 16>>(alloc).err();
    assert!(rt; refused == Some(AppendError::ShortBuf));
    let upper = flat(FLAT)?;
    assert!(rt; upper.try_to_canonical_name::<Vec<u8>>(alloc)?.as_slice() == LOWERED);
    assert!(rt; upper.to_canonical_name::<Vec<u8>>(alloc)?.as_slice() == LOWERED);
    Ok(())
}
