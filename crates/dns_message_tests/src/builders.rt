//! Builders of messages over a vector, with enough memory, and over a target that is full.
use arrayvec::ArrayVec;
use dns_builder::MessageBuilder;
use dns_header::Record;
use dns_name::{Class, Name, Rcode, Ttl};
use dns_rdata::A;
use dns_sections::Message;
use std::test::Fail;

/// A question for the addresses of the root, with RD set.
const QUESTION: [u8; 17] = [0, 7, 1, 0, 0, 1, 0, 0, 0, 0, 0, 0, 0, 0, 1, 0, 1];

/// Returns the address record of the root.
fn address() -> Record<Name<&'static [u8]>, A> {
    Record::new(
        Name::root_slice(),
        Class::IN,
        Ttl::HOUR,
        A::from_octets(192, 0, 2, 1),
    )
}

#[test]
fn a_section_is_emptied(rt: HostRuntime) -> Result<(), Fail> {
    let mut builder = MessageBuilder::new_vec(rt.alloc())?;
    builder.set_push_limit(100);
    assert!(rt; builder.push_limit() == Some(100));
    builder.clear_push_limit();
    assert!(rt; builder.push_limit() == None);
    let mut answer = builder.answer();
    answer.push_ref(&address())?;
    answer.push(address())?;
    assert!(rt; answer.counts().ancount() == 2 && answer.as_target().len() == 42);
    let answer = answer.tc_rewind_into();
    assert!(rt; answer.header().tc() && answer.counts().ancount() == 0);
    let mut answer = answer.rewind_into();
    answer.push(address())?;
    assert!(rt; answer.as_message().as_slice() == answer.as_slice());
    assert!(rt; answer.into_message().as_slice().len() == 27);
    Ok(())
}

#[test]
fn later_sections_are_emptied(rt: HostRuntime) -> Result<(), Fail> {
    let mut authority = MessageBuilder::new_vec(rt.alloc())?.authority();
    authority.push(address())?;
    let mut additional = authority.additional();
    additional.push(address())?;
    let additional = additional.tc_rewind_into();
    assert!(rt; additional.counts().nscount() == 1 && additional.counts().arcount() == 0);
    let authority = additional.authority().tc_rewind_into().rewind_into();
    assert!(rt; authority.into_message().as_slice().len() == 12);
    Ok(())
}

#[test]
fn an_answer_is_started(rt: HostRuntime) -> Result<(), Fail> {
    let query = Message::from_slice(&QUESTION)?;
    let builder = MessageBuilder::new_vec(rt.alloc())?;
    match builder.try_start_answer(&query, Rcode::NXDOMAIN) {
        Ok(answer) => {
            assert!(rt; answer.header().rcode() == Rcode::NXDOMAIN && answer.header().id() == 7);
            assert!(rt; answer.counts().qdcount() == 1 && answer.as_slice().len() == 17);
        }
        Err(_) => {
            assert!(rt; false);
        }
    }
    let target: ArrayVec<u8, 16> = ArrayVec::new();
    match MessageBuilder::from_target(target)?.try_start_answer(&query, Rcode::NXDOMAIN) {
        Ok(_) => {
            assert!(rt; false);
        }
        Err(answer) => {
            assert!(rt;
                answer.header().rcode() == Rcode::SERVFAIL && answer.as_slice().len() == 12
            );
        }
    }
    Ok(())
}
