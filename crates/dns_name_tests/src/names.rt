//! Names over several kinds of octets (RFC 1035 4.1.4, 5.1; RFC 4343).
mod absolute_text;
mod chains;
mod compare;
mod ends;

use arrayvec::ArrayVec;
use dns_name::{
    AppendError, FromStrError, Name, ParsedName, Parser, RelativeFromStrError, RelativeName,
    SpelledName,
};
use std::test::Fail;

/// A message with www.example.com at place 15.
const WWW: &[u8] = b"\x03com\x00\x07example\xc0\x00\x03www\xc0\x05";

/// The name www.example.com of `WWW`.
fn www() -> Result<ParsedName<&'static [u8]>, Fail> {
    let mut parser = Parser::from_ref(WWW);
    parser.seek(15)?;
    Ok(ParsedName::parse_ref(&mut parser)?)
}

#[test]
fn flat_names_lend_their_octets(rt: HostRuntime) -> Result<(), Fail> {
    let name = Name::from_slice(b"\x01a\x01b\x00")?;
    let relative = RelativeName::from_slice(b"\x01a\x01b")?;
    assert!(rt;
        name.for_ref().into_octets() == b"\x01a\x01b\x00".as_slice()
            && *name.as_octets() == b"\x01a\x01b\x00".as_slice()
            && relative.for_ref().into_octets() == b"\x01a\x01b".as_slice()
            && *relative.as_octets() == b"\x01a\x01b".as_slice()
            && name.iter().count() == 3
            && relative.iter().count() == 2
    );
    let made = ParsedName::from(name);
    assert!(rt; !made.is_compressed() && made.label_count() == 3);
    Ok(())
}

#[test]
fn absolute_names_from_text_need_room(rt: HostRuntime) -> Result<(), Fail> {
    let small: Name<ArrayVec<u8, 3>> = Name::from_str(rt.alloc(), "a.")?;
    assert!(rt; small.as_slice() == b"\x01a\x00".as_slice());
    let long = Name::<ArrayVec<u8, 3>>::from_chars(rt.alloc(), "ab".chars());
    assert!(rt; long.err() == Some(FromStrError::ShortBuf));
    let rooted = SpelledName::<ArrayVec<u8, 2>>::from_chars(rt.alloc(), "a.".chars());
    assert!(rt; rooted.err() == Some(FromStrError::ShortBuf));
    Ok(())
}

#[test]
fn relative_names_from_text_need_room(rt: HostRuntime) -> Result<(), Fail> {
    let small: RelativeName<ArrayVec<u8, 2>> = RelativeName::from_str(rt.alloc(), "a")?;
    assert!(rt; small.as_slice() == b"\x01a".as_slice());
    let long = RelativeName::<ArrayVec<u8, 2>>::from_chars(rt.alloc(), "ab".chars());
    assert!(rt; long.err() == Some(RelativeFromStrError::FromStr(FromStrError::ShortBuf)));
    let fits = SpelledName::<ArrayVec<u8, 2>>::from_chars(rt.alloc(), "a".chars())?;
    assert!(rt;
        matches!(fits, SpelledName::Relative(name) if name.as_slice() == b"\x01a".as_slice())
    );
    let long = SpelledName::<ArrayVec<u8, 2>>::from_chars(rt.alloc(), "ab".chars());
    assert!(rt; long.err() == Some(FromStrError::ShortBuf));
    let short = RelativeFromStrError::FromStr(FromStrError::ShortBuf);
    assert!(rt; short.to_string(rt.alloc())?.as_str() == "short buffer");
    Ok(())
}

#[test]
fn constant_names_need_room(rt: HostRuntime) -> Result<(), Fail> {
    assert!(rt; Name::<ArrayVec<u8, 1>>::root(rt.alloc())?.is_root());
    assert!(rt; Name::<ArrayVec<u8, 0>>::root(rt.alloc()).err() == Some(AppendError::ShortBuf));
    let empty: RelativeName<ArrayVec<u8, 0>> = RelativeName::empty(rt.alloc())?;
    assert!(rt; empty.is_empty());
    let wildcard: RelativeName<ArrayVec<u8, 2>> = RelativeName::wildcard(rt.alloc())?;
    assert!(rt; wildcard.into_absolute().err() == Some(AppendError::ShortBuf));
    let wildcard: RelativeName<Vec<u8>> = RelativeName::wildcard(rt.alloc())?;
    assert!(rt; wildcard.into_absolute()?.as_slice() == b"\x01*\x00".as_slice());
    Ok(())
}
