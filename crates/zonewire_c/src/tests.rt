//! Tests of the exports, on a zone of two records, as octets written out by hand, and on every fault.

use crate::answer::Answer;
use crate::fault::Fault;
use crate::{
    zonewire_canonical, zonewire_count, zonewire_fault_text, zonewire_print, zonewire_query,
    zonewire_receive, zonewire_send,
};
use std::alloc::{AllocError, Global};
use std::fmt::Display;
use std::test::Fail;
use zonewire::{QueryError, ReceiveError, SendError, ZoneError};

const ZONE: &[u8] = b"@ 60 IN SOA b. c. 1 2 3 4 5\n@ 60 IN A 1.2.3.4\n";

const PRINTED: &[u8] = b"a. 60 IN SOA b. c. 1 2 3 4 5\na. 60 IN A 1.2.3.4\n";

/// The query `a. IN AXFR` with ID 0x1234.
const QUERY: &[u8] = b"\x12\x34\x00\x00\x00\x01\x00\x00\x00\x00\x00\x00\x01a\x00\x00\xfc\x00\x01";

/// The query without its last octet.
const CUT_QUERY: &[u8] = b"\x12\x34\x00\x00\x00\x01\x00\x00\x00\x00\x00\x00\x01a\x00\x00\xfc\x00";

/// The beginning of the stream: a message's length, its header that counts three answers, and its question.
const HEAD: &[u8] =
    b"\x00\x72\x12\x34\x84\x00\x00\x01\x00\x03\x00\x00\x00\x00\x01a\x00\x00\xfc\x00\x01";

const SOA: &[u8] =
    b"\x01a\x00\x00\x06\x00\x01\x00\x00\x00\x3c\x00\x1a\x01b\x00\x01c\x00\x00\x00\x00\x01\x00\x00\x00\x02\x00\x00\x00\x03\x00\x00\x00\x04\x00\x00\x00\x05";

const ADDRESS: &[u8] = b"\x01a\x00\x00\x01\x00\x01\x00\x00\x00\x3c\x00\x04\x01\x02\x03\x04";

/// Returns the stream that answers the query, with every name in full.
fn stream(alloc: Global) -> Result<Vec<u8>, AllocError> {
    let mut octets = Vec::from_slice(alloc, HEAD)?;
    for record in [SOA, ADDRESS, SOA] {
        octets.extend_from_slice(record)?;
    }
    Ok(octets)
}

/// Returns whether the call handed out these octets, and left those of the buffer after them as they were.
fn hands_out(answer: Answer, out: &[u8], octets: &[u8]) -> bool {
    let (front, rest) = out.split_at_checked(octets.len()).unwrap_or((&[], &[]));
    answer.fault == 0
        && answer.number == 0
        && answer.count == octets.len()
        && front == octets
        && rest.iter().all(|octet| *octet == 0)
}

/// Returns whether the call failed with these numbers.
fn fails(answer: Answer, fault: u32, number: usize) -> bool {
    answer.fault == fault && answer.number == number && answer.count == 0
}

#[test]
fn zones_are_counted_and_printed(rt: HostRuntime) -> Result<(), Fail> {
    let alloc = rt.alloc();
    let counted = zonewire_count(alloc, ZONE, b"a", 1);
    assert!(rt; counted.fault == 0 && counted.number == 0 && counted.count == 2);
    assert!(rt; fails(zonewire_count(alloc, ZONE, b"a..", 1), 2, 0));
    assert!(rt; fails(zonewire_count(alloc, ZONE, b"\xff", 1), 2, 0));
    assert!(rt; fails(zonewire_count(alloc, ZONE, b"", 1), 102, 1));
    assert!(rt; fails(zonewire_count(alloc, ZONE, b"a", 255), 101, 0));
    let mut out = [0u8; 60];
    assert!(rt; fails(zonewire_print(alloc, ZONE, b"a", 1, 3, &mut out), 3, 0));
    let answer = zonewire_print(alloc, ZONE, b"a", 1, 0, &mut out[..47]);
    assert!(rt; answer.fault == 0 && answer.count == 48 && out.iter().all(|octet| *octet == 0));
    let answer = zonewire_print(alloc, ZONE, b"a", 1, 0, &mut out);
    assert!(rt; hands_out(answer, &out, PRINTED));
    Ok(())
}

#[test]
fn canonical_octets_are_in_order(rt: HostRuntime) -> Result<(), Fail> {
    let alloc = rt.alloc();
    let mut wanted = Vec::from_slice(alloc, ADDRESS)?;
    wanted.extend_from_slice(SOA)?;
    let mut out = [0u8; 80];
    let answer = zonewire_canonical(alloc, ZONE, b"a.", 1, &mut out);
    assert!(rt; hands_out(answer, &out, wanted.as_slice()));
    Ok(())
}

#[test]
fn a_zone_is_sent_and_received(rt: HostRuntime) -> Result<(), Fail> {
    let alloc = rt.alloc();
    let mut stream = stream(alloc)?;
    let mut out = [0u8; 200];
    let answer = zonewire_query(alloc, 0x1234, b"a", 1, &mut out);
    assert!(rt; hands_out(answer, &out, QUERY));
    assert!(rt; fails(zonewire_query(alloc, 0x1234, b"", 1, &mut out), 2, 0));
    let mut out = [0u8; 200];
    let answer = zonewire_send(alloc, ZONE, b"a", 1, QUERY, 512, 0, &mut out);
    assert!(rt; hands_out(answer, &out, stream.as_slice()));
    assert!(rt;
        fails(
            zonewire_send(alloc, ZONE, b"a", 1, QUERY, 512, 4, &mut out),
            4,
            0
        )
    );
    assert!(rt;
        fails(
            zonewire_send(alloc, ZONE, b"b", 1, QUERY, 512, 0, &mut out),
            302,
            0
        )
    );
    assert!(rt;
        fails(
            zonewire_send(alloc, ZONE, b"a", 1, QUERY, 50, 0, &mut out),
            303,
            1
        )
    );
    let mut out = [0u8; 60];
    let answer = zonewire_receive(alloc, QUERY, stream.as_slice(), 0, &mut out);
    assert!(rt; hands_out(answer, &out, PRINTED));
    let _last = stream.pop();
    let begun = stream.as_slice();
    assert!(rt; fails(zonewire_receive(alloc, QUERY, begun, 0, &mut out), 417, 0));
    assert!(rt;
        fails(
            zonewire_receive(alloc, CUT_QUERY, begun, 0, &mut out),
            205,
            0
        )
    );
    Ok(())
}

/// Returns whether the text of the fault is that which the error shows.
fn has_text<E: Display + Drop>(alloc: Global, fault: Fault, error: E) -> Result<bool, AllocError> {
    let wanted = error.to_string(alloc)?;
    let mut out = [0u8; 50];
    let answer = zonewire_fault_text(alloc, fault.code(), fault.number(), &mut out);
    Ok(hands_out(answer, &out, wanted.as_bytes()))
}

#[test]
fn faults_of_zones_have_their_texts(rt: HostRuntime) -> Result<(), Fail> {
    let errors = [
        ZoneError::OutOfMemory,
        ZoneError::ClassAny,
        ZoneError::Text(1),
        ZoneError::Include(23),
        ZoneError::Untyped(456),
        ZoneError::FirstNotSoa(1),
        ZoneError::SecondSoa(2),
        ZoneError::OutOfZone(usize::MAX),
        ZoneError::Unspellable(5),
        ZoneError::NoSoa,
    ];
    for error in errors {
        assert!(rt; has_text(rt.alloc(), Fault::Zone(error), error)?);
    }
    Ok(())
}

#[test]
fn faults_of_transfers_have_their_texts(rt: HostRuntime) -> Result<(), Fail> {
    let alloc = rt.alloc();
    let queries = [
        QueryError::Short,
        QueryError::Response,
        QueryError::Opcode,
        QueryError::Counts,
        QueryError::Malformed,
        QueryError::NotAxfr,
        QueryError::ClassAny,
        QueryError::Trailing,
    ];
    for error in queries {
        assert!(rt; has_text(alloc, Fault::Send(SendError::Query(error)), error)?);
        assert!(rt; has_text(alloc, Fault::Receive(ReceiveError::Query(error)), error)?);
    }
    for error in [
        SendError::WrongZone,
        SendError::Record(7),
        SendError::OutOfMemory,
    ] {
        assert!(rt; has_text(alloc, Fault::Send(error), error)?);
    }
    let errors = [
        ReceiveError::Short,
        ReceiveError::Id,
        ReceiveError::NotResponse,
        ReceiveError::Opcode,
        ReceiveError::Rcode(5),
        ReceiveError::Counts,
        ReceiveError::Question,
        ReceiveError::Record(1),
        ReceiveError::FirstNotSoa,
        ReceiveError::Class(2),
        ReceiveError::OutOfZone(3),
        ReceiveError::SoaDiffers(4),
        ReceiveError::AfterLast(5),
        ReceiveError::Unspellable(6),
        ReceiveError::Trailing,
        ReceiveError::Unfinished,
        ReceiveError::OutOfMemory,
    ];
    for error in errors {
        assert!(rt; has_text(alloc, Fault::Receive(error), error)?);
    }
    Ok(())
}

#[test]
fn faults_of_arguments_have_texts(rt: HostRuntime) {
    let alloc = rt.alloc();
    let rows = [
        (Fault::OutOfMemory, "out of memory"),
        (Fault::BadName, "bad name"),
        (Fault::BadLayout, "bad layout"),
        (Fault::BadSpelling, "bad spelling"),
    ];
    for (fault, text) in rows {
        let mut out = [0u8; 20];
        let answer = zonewire_fault_text(alloc, fault.code(), 0, &mut out);
        assert!(rt; hands_out(answer, &out, text.as_bytes()));
    }
    let mut out = [0u8; 20];
    assert!(rt; hands_out(zonewire_fault_text(alloc, 0, 0, &mut out), &out, b""));
}
