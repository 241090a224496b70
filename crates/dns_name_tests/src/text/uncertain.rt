//! Names that are absolute or relative: as values of their types, and over octets of several kinds.
use arrayvec::ArrayVec;
use dns_name::{FromStrError, Name, RelativeName};
use dns_text::UncertainName;
use std::test::Fail;

#[test]
fn names_of_either_kind_are_uncertain(rt: HostRuntime) -> Result<(), Fail> {
    let absolute = UncertainName::from(Name::from_slice(b"\x01A\x00")?);
    let relative = UncertainName::from(RelativeName::from_slice(b"\x01a")?);
    assert!(rt;
        absolute == UncertainName::from_octets(b"\x01a\x00".as_slice())?
            && absolute != relative
            && absolute.as_absolute().is_some()
            && absolute.as_relative().is_none()
            && !absolute.is_relative()
            && relative.as_relative().is_some()
            && relative.as_absolute().is_none()
            && relative.is_relative()
            && *relative.as_octets() == b"\x01a".as_slice()
    );
    Ok(())
}

#[test]
fn names_of_other_octets_and_suffixes(rt: HostRuntime) -> Result<(), Fail> {
    let alloc = rt.alloc();
    let small = UncertainName::<ArrayVec<u8, 2>>::from_str(alloc, "a.");
    assert!(rt; small.err() == Some(FromStrError::ShortBuf));
    let name: UncertainName<Vec<u8>> = UncertainName::from_str(alloc, "a")?;
    let chain = name.chain(RelativeName::from_slice(b"\x01b")?)?;
    assert!(rt; chain.to_string(alloc)?.as_str() == "a.b");
    Ok(())
}
