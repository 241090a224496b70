//! Strings that are built into octets with too little room.
use arrayvec::ArrayVec;
use dns_rdata::{Txt, TxtAppendError, TxtBuilder};
use std::test::Fail;

#[test]
fn a_refused_append_changes_nothing(rt: HostRuntime) -> Result<(), Fail> {
    let text = [97u8; 300];
    let mut builder: TxtBuilder<ArrayVec<u8, 260>> = TxtBuilder::new(rt.alloc());
    builder.append_slice(b"ab")?;
    assert!(rt; builder.append_slice(text.as_slice()).err() == Some(TxtAppendError::ShortBuf));
    builder.append_u8(99)?;
    let txt = builder.finish()?;
    assert!(rt; txt.len() == 4 && txt.as_flat_slice() == Some(b"abc".as_slice()));
    Ok(())
}

#[test]
fn a_text_has_to_fit(rt: HostRuntime) -> Result<(), Fail> {
    let full: Result<Txt<ArrayVec<u8, 2>>, TxtAppendError> = Txt::build_from_slice(
        rt.alloc(),
        b"ab",
    );
    assert!(rt; full.err() == Some(TxtAppendError::ShortBuf));
    assert!(rt; TxtAppendError::ShortBuf.to_string(rt.alloc())?.as_str() == "short buffer");
    Ok(())
}
