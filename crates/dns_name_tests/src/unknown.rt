//! Unknown data, in octets of each kind.
use arrayvec::ArrayVec;
use dns_name::{AppendError, ComposeRecordData, OctetsFrom, RecordData, Rtype, UnknownRecordData};
use std::alloc::Global;
use std::test::Fail;

fn composed<Data: ComposeRecordData>(alloc: Global, rdata: &Data) -> Result<Vec<u8>, AppendError> {
    let mut target = Vec::new(alloc);
    rdata.compose_rdata(&mut target)?;
    rdata.compose_canonical_rdata(&mut target)?;
    rdata.compose_len_rdata(&mut target)?;
    rdata.compose_canonical_len_rdata(&mut target)?;
    Ok(target)
}

#[test]
fn data_moves_to_other_octets(rt: HostRuntime) -> Result<(), Fail> {
    let rdata = UnknownRecordData::from_octets(Rtype::from_int(10), b"ab".as_slice())?;
    assert!(rt;
        composed(rt.alloc(), &&rdata)?.as_slice() == b"abab\x00\x02ab\x00\x02ab".as_slice()
    );
    assert!(rt;
        RecordData::rtype(&&rdata) == Rtype::from_int(10) && (&rdata).rdlen(false) == Some(2)
    );
    let mut short = ArrayVec::<u8, 3>::new();
    assert!(rt;
        rdata.compose_len_rdata(&mut short) == Err(AppendError::ShortBuf)
            && rdata.compose_canonical_len_rdata(&mut short) == Err(AppendError::ShortBuf)
            && short.len() == 0
    );
    let vec = UnknownRecordData::<Vec<u8>>::try_octets_from(rt.alloc(), rdata)?;
    assert!(rt; vec.data().as_slice() == b"ab".as_slice());
    let array = UnknownRecordData::<ArrayVec<u8, 2>>::try_octets_from(rt.alloc(), vec)?;
    assert!(rt;
        array.data().as_slice() == b"ab".as_slice() && array.rtype() == Rtype::from_int(10)
    );
    let short = UnknownRecordData::<ArrayVec<u8, 1>>::try_octets_from(rt.alloc(), array);
    assert!(rt; short.err() == Some(AppendError::ShortBuf));
    Ok(())
}
