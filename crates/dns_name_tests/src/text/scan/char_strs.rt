//! Character strings over octets of several kinds (RFC 1035 3.3).
use dns_name::{AppendError, OctetsBuilder, OctetsFrom};
use dns_text::{CharStr, CharStrBuilder, CharStrError};
use std::test::Fail;

#[test]
fn strings_of_other_octets(rt: HostRuntime) -> Result<(), Fail> {
    let string = CharStr::from_slice(b"aBc")?;
    assert!(rt; string.for_ref().into_octets() == b"aBc".as_slice());
    let owned: CharStr<Vec<u8>> = CharStr::try_octets_from(rt.alloc(), string)?;
    assert!(rt; owned.as_slice() == b"aBc".as_slice());
    let owned = CharStr::from_octets(Vec::from_slice(rt.alloc(), b"ab")?)?;
    assert!(rt;
        owned.into_octets().as_slice() == b"ab".as_slice()
            && CharStr::<Vec<u8>>::empty(rt.alloc()).is_empty()
    );
    Ok(())
}

#[test]
fn builders_are_made(rt: HostRuntime) -> Result<(), Fail> {
    let mut builder = CharStrBuilder::new_vec(rt.alloc());
    assert!(rt; builder.is_empty());
    builder.append_slice(b"abc")?;
    assert!(rt;
        builder.append_slice(&[0; 253]) == Err(AppendError::ShortBuf)
            && builder.as_slice() == b"abc".as_slice()
    );
    let begun: CharStrBuilder<Vec<u8>> = CharStrBuilder::with_capacity(rt.alloc(), 9)?;
    assert!(rt; begun.finish().is_empty());
    let fresh: CharStrBuilder<Vec<u8>> = CharStrBuilder::new(rt.alloc());
    assert!(rt; fresh.len() == 0);
    let long = CharStrBuilder::from_builder(Vec::from_slice(rt.alloc(), &[0; 256])?);
    assert!(rt; long.err() == Some(CharStrError));
    Ok(())
}
