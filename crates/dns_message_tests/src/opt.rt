//! OPT records that are built and composed (RFC 6891 6.1).

use dns_header::{Header, Opt, OptHeader, OptRecord, Record};
use dns_name::{
    Class, ComposeRecordData, Name, OptRcode, ParseError, ParseRecordData, Parser, RecordData,
    Rtype, Ttl,
};
use std::test::Fail;

const OPTIONS: [u8; 10] = [0, 10, 0, 2, 0xAB, 0xCD, 0, 3, 0, 0];

#[test]
fn a_record_of_options_is_composed_and_read(rt: HostRuntime) -> Result<(), Fail> {
    let mut owned = Vec::new(rt.alloc());
    owned.extend_from_slice(&OPTIONS)?;
    let opt = Opt::from_octets(owned)?;
    assert!(rt; opt.rtype() == Rtype::OPT && opt.rdlen(true) == Some(10));
    let rr = Record::new(
        Name::root_slice(),
        Class::from_int(1232),
        Ttl::from_secs(0x0100_8000),
        opt,
    );
    let mut target = Vec::new(rt.alloc());
    rr.compose(&mut target)?;
    rr.compose_canonical(&mut target)?;
    assert!(rt; target.len() == 42);
    for octets in target.as_slice().chunks(21) {
        let (front, options) = octets.split_at(11);
        assert!(rt; front == b"\0\0\x29\x04\xd0\x01\0\x80\0\0\x0a".as_slice());
        assert!(rt; options == OPTIONS.as_slice());
    }
    let found = OptRecord::from_record(rr);
    assert!(rt;
        found.udp_payload_size() == 1232
            && found.rcode(Header::new()) == OptRcode::masked_from_int(16)
            && found.version() == 0
            && found.dnssec_ok()
            && found.opt().as_slice() == OPTIONS.as_slice()
            && found.header().class() == Class::from_int(1232)
    );
    Ok(())
}

#[test]
fn only_the_type_opt_is_taken(rt: HostRuntime) -> Result<(), Fail> {
    let mut parser = Parser::from_ref(&OPTIONS);
    let none: Option<Opt<&[u8]>> = Opt::parse_rdata(Rtype::A, &mut parser)?;
    assert!(rt; none.is_none() && parser.pos() == 0);
    let found: Option<Opt<&[u8]>> = Opt::parse_rdata(Rtype::OPT, &mut parser)?;
    assert!(rt; found.is_some() && parser.pos() == 10);
    let mut parser = Parser::from_ref(&OPTIONS[..9]);
    let short: Result<Option<Opt<&[u8]>>, ParseError> = Opt::parse_rdata(Rtype::OPT, &mut parser);
    assert!(rt; short.err() == Some(ParseError::ShortInput) && parser.pos() == 0);
    Ok(())
}

static LONG: [u8; 65_536] = [0; 65_536];

#[test]
fn more_octets_than_a_record_counts_are_no_data(rt: HostRuntime) -> Result<(), Fail> {
    let long = Opt::from_octets(LONG.as_slice()).err();
    assert!(rt; long.is_some() && long != Some(ParseError::ShortInput));
    assert!(rt; Opt::from_octets(&LONG[..5]).err() == Some(ParseError::ShortInput));
    Ok(())
}

#[test]
fn a_new_header_is_zero(rt: HostRuntime) {
    let mut header = OptHeader::new();
    assert!(rt;
        header == OptHeader::default()
            && header.udp_payload_size() == 0
            && header.rcode(Header::new()) == OptRcode::masked_from_int(0)
            && header.version() == 0
            && !header.dnssec_ok()
            && header.ttl() == Ttl::ZERO
    );
    header.set_dnssec_ok(true);
    assert!(rt; header.ttl() == Ttl::from_secs(0x8000) && header != OptHeader::new());
}
