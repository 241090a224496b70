//! Data with a name in it, used through the calls of all types of data (RFC 1035 3.3.11, 4.1.4; RFC 4034 6.2).
mod server;

use crate::one_suffix::{OctetForOctet, OneSuffix};
use arrayvec::ArrayVec;
use dns_name::{AppendError, ComposeRecordData, Composer, Name, ParsedName, Parser, RecordData};
use dns_octets::Octets;
use dns_values::Rtype;
use server::Server;
use std::test::Fail;

/// `F.ISI.ARPA.`
const NAME: &[u8] = b"\x01F\x03ISI\x04ARPA\x00";

#[test]
fn names_in_data_are_written_in_full(rt: HostRuntime) -> Result<(), Fail> {
    let rdata = Server::new(Name::from_slice(NAME)?);
    assert!(rt; rdata.rtype() == Rtype::from_int(2) && rdata.rdlen(false) == Some(12));
    let mut target = Vec::new(rt.alloc());
    rdata.compose_rdata(&mut target)?;
    rdata.compose_len_rdata(&mut target)?;
    assert!(rt;
        target.as_slice() == b"\x01F\x03ISI\x04ARPA\x00\x00\x0c\x01F\x03ISI\x04ARPA\x00".as_slice()
    );
    target.truncate(0);
    rdata.compose_canonical_rdata(&mut target)?;
    rdata.compose_canonical_len_rdata(&mut target)?;
    assert!(rt;
        target.as_slice() == b"\x01f\x03isi\x04arpa\x00\x00\x0c\x01f\x03isi\x04arpa\x00".as_slice()
    );
    Ok(())
}

#[test]
fn names_in_data_become_pointers(rt: HostRuntime) -> Result<(), Fail> {
    let rdata = Server::new(Name::from_slice(NAME)?);
    assert!(rt; rdata.rdlen(true) == None);
    let mut target = OneSuffix::new(OctetForOctet, rt.alloc());
    target.append_compressed_name(&Name::from_slice(NAME)?)?;
    (&rdata).compose_rdata(&mut target)?;
    rdata.compose_len_rdata(&mut target)?;
    assert!(rt; target.octets() == b"\x01F\x03ISI\x04ARPA\x00\xc0\x00\x00\x02\xc0\x00".as_slice());
    rdata.compose_canonical_len_rdata(&mut target)?;
    let behind = &target.octets()[18..];
    assert!(rt; behind == b"\x00\x0c\x01f\x03isi\x04arpa\x00".as_slice());
    Ok(())
}

#[test]
fn refused_data_with_a_name_leaves_nothing(rt: HostRuntime) -> Result<(), Fail> {
    let mut parser = Parser::from_ref(b"\x01b\x00\x01a\xc0\x00".as_slice());
    parser.advance(3)?;
    let rdata = Server::new(ParsedName::parse(&mut parser)?);
    let mut target = ArrayVec::<u8, 7>::new();
    rdata.compose_len_rdata(&mut target)?;
    assert!(rt;
        target.octets() == b"\x00\x05\x01a\x01b\x00".as_slice()
            && rdata.compose_rdata(&mut target) == Err(AppendError::ShortBuf)
            && rdata.compose_len_rdata(&mut target) == Err(AppendError::ShortBuf)
            && rdata.compose_canonical_rdata(&mut target) == Err(AppendError::ShortBuf)
            && target.octets() == b"\x00\x05\x01a\x01b\x00".as_slice()
    );
    Ok(())
}
