//! Octets and targets of each kind, used through their trait bounds, and the texts of errors.
use arrayvec::ArrayVec;
use dns_octets::{
    AppendError, EmptyBuilder, FormError, FreezeBuilder, FromBuilder, Octets, OctetsBuilder,
    OctetsFrom, ParseError, ShortInput, Truncate, WriteOctets,
};
use std::alloc::Global;
use std::borrow::CowSlice;
use std::test::Fail;

fn first_three<Octs: Octets>(octets: &Octs) -> Option<[u8; 3]> {
    let slice = octets.octets();
    if slice.len() < 3 {
        return None;
    }
    Some([slice[0], slice[1], slice[2]])
}

#[test]
fn octets_of_each_kind(rt: HostRuntime) -> Result<(), Fail> {
    let slice = [1u8, 2, 3].as_slice();
    let mut vec = Vec::from_slice(rt.alloc(), slice)?;
    let mut array = ArrayVec::<u8, 3>::new();
    assert!(rt;
        array.append_slice(slice).is_ok()
            && slice.range(1, 3) == [2u8, 3].as_slice()
            && first_three(&slice) == Some([1, 2, 3])
            && first_three(&vec) == Some([1, 2, 3])
            && first_three(&array) == Some([1, 2, 3])
            && first_three(&&mut vec) == Some([1, 2, 3])
            && first_three(&&mut array) == Some([1, 2, 3])
    );
    let cow = CowSlice::<u8>::Borrowed(slice);
    assert!(rt; first_three(&cow) == Some([1, 2, 3]));
    Ok(())
}

fn filled<Builder: EmptyBuilder + Truncate + Drop>(alloc: Global) -> Result<Builder, AppendError> {
    let mut builder = Builder::with_capacity(alloc, 4)?;
    builder.append_slice(&[1, 2, 3, 4])?;
    builder.truncate(9);
    builder.truncate(3);
    (&mut builder).truncate(2);
    (&mut builder).append_slice(&[7])?;
    Ok(builder)
}

#[test]
fn targets_of_each_kind(rt: HostRuntime) -> Result<(), Fail> {
    let vec = filled::<Vec<u8>>(rt.alloc())?;
    assert!(rt; vec.as_slice() == [1u8, 2, 7].as_slice());
    let array = filled::<ArrayVec<u8, 4>>(rt.alloc())?;
    assert!(rt;
        array.as_slice() == [1u8, 2, 7].as_slice()
            && filled::<ArrayVec<u8, 3>>(rt.alloc()).err() == Some(AppendError::ShortBuf)
    );
    let mut full = ArrayVec::<u8, 3>::empty(rt.alloc());
    assert!(rt;
        full.append_slice(&[1, 2]) == Ok(())
            && full.append_slice(&[3, 4]) == Err(AppendError::ShortBuf)
            && full.as_slice() == [1u8, 2].as_slice()
    );
    Ok(())
}

#[test]
fn octets_of_targets(rt: HostRuntime) -> Result<(), Fail> {
    let mut vec = Vec::<u8>::empty(rt.alloc());
    vec.append_slice(&[5])?;
    assert!(rt; Vec::<u8>::from_builder(vec).freeze().as_slice() == [5u8].as_slice());
    let mut array = ArrayVec::<u8, 2>::empty(rt.alloc());
    array.append_slice(&[6])?;
    assert!(rt; ArrayVec::<u8, 2>::from_builder(array).freeze().as_slice() == [6u8].as_slice());
    Ok(())
}

/// Appends the octets to an empty target, and returns what is then taken out of it.
fn collected<Octs: FromBuilder>(alloc: Global, octets: &[u8]) -> Result<Octs, AppendError>
where
    Octs::Builder: EmptyBuilder + Drop,
{
    let mut builder: Octs::Builder = EmptyBuilder::empty(alloc);
    builder.append_slice(octets)?;
    Ok(FromBuilder::from_builder(builder))
}

#[test]
fn octets_are_collected(rt: HostRuntime) -> Result<(), Fail> {
    let vec: Vec<u8> = collected(rt.alloc(), &[1, 2, 3])?;
    assert!(rt; vec.as_slice() == [1u8, 2, 3].as_slice());
    let array: ArrayVec<u8, 3> = collected(rt.alloc(), &[1, 2, 3])?;
    assert!(rt; array.as_slice() == [1u8, 2, 3].as_slice());
    let short: Result<ArrayVec<u8, 2>, AppendError> = collected(rt.alloc(), &[1, 2, 3]);
    assert!(rt; short.err() == Some(AppendError::ShortBuf));
    let room: Result<ArrayVec<u8, 2>, AppendError> = EmptyBuilder::with_capacity(rt.alloc(), 3);
    assert!(rt; room.err() == Some(AppendError::ShortBuf));
    let same: Vec<u8> = OctetsFrom::try_octets_from(rt.alloc(), array.as_slice())?;
    assert!(rt; same.as_slice() == [1u8, 2, 3].as_slice());
    let array = ArrayVec::<u8, 3>::try_octets_from(rt.alloc(), same.as_slice())?;
    assert!(rt; array.as_slice() == [1u8, 2, 3].as_slice());
    let short = ArrayVec::<u8, 2>::try_octets_from(rt.alloc(), same.as_slice());
    assert!(rt; short.err() == Some(AppendError::ShortBuf));
    Ok(())
}

#[test]
fn errors_show(rt: HostRuntime) -> Result<(), Fail> {
    let shown = format!(in rt.alloc();
        "{}, {}, {}",
        ShortInput,
        FormError::new("bad label"),
        ParseError::form_error("bad label")
    )?;
    assert!(rt; shown.as_str() == "unexpected end of input, bad label, bad label");
    let shown = format!(in rt.alloc();
        "{}, {}, {}",
        AppendError::ShortBuf,
        AppendError::OutOfMemory,
        AppendError::BadLength
    )?;
    assert!(rt; shown.as_str() == "buffer size exceeded, out of memory, bad length");
    Ok(())
}

fn write_second<B: WriteOctets>(builder: &mut B) -> Result<(), AppendError> {
    builder.append_slice(b"abc")?;
    if builder.octets().len() > 1 {
        builder.set_octet(1, b'x');
    }
    Ok(())
}

#[test]
fn octets_are_written_in_place(rt: HostRuntime) -> Result<(), Fail> {
    let mut octets = Vec::new(rt.alloc());
    write_second(&mut octets)?;
    assert!(rt; octets.as_slice() == b"axc".as_slice());
    let mut fixed = ArrayVec::<u8, 3>::new();
    write_second(&mut &mut fixed)?;
    assert!(rt; fixed.as_slice() == b"axc".as_slice());
    Ok(())
}
