//! Targets of concrete types, used through their trait bound.
use crate::one_suffix::{OctetForOctet, OneSuffix, UpToCase};
use arrayvec::ArrayVec;
use dns_name::{AppendError, Composer, Name, Octets, OctetsBuilder, Truncate};
use std::test::Fail;

/// `a.b.`
const NAME: &[u8] = b"\x01a\x01b\x00";

/// Appends two octets and the name twice, and then overwrites the two octets.
fn compose_twice<Target: Composer>(target: &mut Target) -> Result<bool, AppendError> {
    target.truncate(0);
    target.append_slice(&[0, 0])?;
    if let Ok(name) = Name::from_slice(NAME) {
        target.append_compressed_name(&name)?;
        target.append_compressed_name(&name)?;
    }
    Ok(target.can_compress())
}

#[test]
fn vectors_take_names_in_full(rt: HostRuntime) -> Result<(), Fail> {
    let mut target = Vec::new(rt.alloc());
    assert!(rt; !compose_twice(&mut target)?);
    if target.len() > 1 {
        target.patch(0, &[7, 8]);
    }
    assert!(rt; target.as_slice() == b"\x07\x08\x01a\x01b\x00\x01a\x01b\x00".as_slice());
    let mut lent = &mut target;
    assert!(rt; !compose_twice(&mut lent)?);
    if lent.octets().len() > 1 {
        lent.patch(1, &[9]);
    }
    assert!(rt; target.as_slice() == b"\x00\x09\x01a\x01b\x00\x01a\x01b\x00".as_slice());
    Ok(())
}

#[test]
fn a_refused_name_leaves_nothing(rt: HostRuntime) -> Result<(), Fail> {
    let mut target = ArrayVec::<u8, 12>::new();
    assert!(rt; !compose_twice(&mut target)?);
    if target.octets().len() > 1 {
        target.patch(0, &[7, 8]);
    }
    assert!(rt; target.octets() == b"\x07\x08\x01a\x01b\x00\x01a\x01b\x00".as_slice());
    let mut short = ArrayVec::<u8, 11>::new();
    assert!(rt;
        compose_twice(&mut short) == Err(AppendError::ShortBuf)
            && short.octets() == b"\x00\x00\x01a\x01b\x00".as_slice()
    );
    Ok(())
}

#[test]
fn a_remembered_name_becomes_a_pointer(rt: HostRuntime) -> Result<(), Fail> {
    let mut target = OneSuffix::new(OctetForOctet, rt.alloc());
    assert!(rt; compose_twice(&mut target)?);
    assert!(rt; target.octets() == b"\x00\x00\x01a\x01b\x00\xc0\x02".as_slice());
    target.truncate(7);
    assert!(rt;
        compose_name(&mut target, b"\x01b\x00") == Ok(())
            && compose_name(&mut target, NAME) == Ok(())
            && target.octets() == b"\x00\x00\x01a\x01b\x00\x01b\x00\xc0\x02".as_slice()
    );
    target.truncate(6);
    assert!(rt;
        compose_name(&mut target, b"\x01b\x00") == Ok(())
            && compose_name(&mut target, b"\x01b\x00") == Ok(())
            && target.octets() == b"\x00\x00\x01a\x01b\x01b\x00\xc0\x06".as_slice()
    );
    Ok(())
}

#[test]
fn names_are_compared_as_the_target_does(rt: HostRuntime) -> Result<(), Fail> {
    let mut folding = OneSuffix::new(UpToCase, rt.alloc());
    let mut exact = OneSuffix::new(OctetForOctet, rt.alloc());
    for name in [b"\x01a\x01B\x00", b"\x01A\x01b\x00", b"\x01a\x01B\x00"] {
        compose_name(&mut folding, name)?;
        compose_name(&mut exact, name)?;
    }
    assert!(rt;
        folding.octets() == b"\x01a\x01B\x00\xc0\x00\xc0\x00".as_slice()
            && exact.octets() == b"\x01a\x01B\x00\x01A\x01b\x00\xc0\x00".as_slice()
    );
    Ok(())
}

fn compose_name<Target: Composer>(target: &mut Target, octets: &[u8]) -> Result<(), AppendError> {
    match Name::from_slice(octets) {
        Ok(name) => target.append_compressed_name(&name),
        Err(_) => Err(AppendError::BadLength),
    }
}
