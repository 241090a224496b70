//! Questions of several types, and over octets of several kinds.

use arrayvec::ArrayVec;
use dns_header::{ComposeQuestion, FromStrError, PresentationError, Question};
use dns_name::{AppendError, Class, Name, OctetsFrom, ParsedName, Parser, Rtype};
use std::test::Fail;

fn question() -> Question<Name<&'static [u8]>> {
    Question::new(Name::root_slice(), Rtype::A, Class::IN)
}

#[test]
fn composes(rt: HostRuntime) -> Result<(), Fail> {
    let mut target = Vec::new(rt.alloc());
    question().compose(&mut target)?;
    question().compose_question(&mut target)?;
    (&question()).compose_question(&mut target)?;
    (Name::root_slice(), Rtype::MX, Class::CH).compose_question(&mut target)?;
    (Name::root_slice(), Rtype::MX).compose_question(&mut target)?;
    assert!(rt;
        target.as_slice()
            == [
                0u8, 0, 1, 0, 1, 0, 0, 1, 0, 1, 0, 0, 1, 0, 1, 0, 0, 15, 0, 3, 0, 0, 15, 0, 1
            ]
            .as_slice()
    );
    Ok(())
}

#[test]
fn a_refused_question_leaves_nothing(rt: HostRuntime) -> Result<(), Fail> {
    let mut target = ArrayVec::<u8, 9>::new();
    question().compose(&mut target)?;
    assert!(rt;
        question().compose(&mut target) == Err(AppendError::ShortBuf)
            && target.as_slice() == [0u8, 0, 1, 0, 1].as_slice()
    );
    Ok(())
}

fn needs_copy<T: Copy>(_copied: &T) {}

#[test]
fn makes_converts_and_takes_apart(rt: HostRuntime) -> Result<(), Fail> {
    let short = Question::from((Name::root_slice(), Rtype::A));
    let long = Question::from((Name::root_slice(), Rtype::A, Class::IN));
    assert!(rt;
        short == long
            && Question::new_in(Name::root_slice(), Rtype::A) == long
            && long.qname().as_slice() == [0u8].as_slice()
            && long.qclass() == Class::IN
            && long.into_qname().is_root()
    );
    let mut parser = Parser::from_ref(b"\0");
    needs_copy(&Question::new_in(ParsedName::parse(&mut parser)?, Rtype::A));
    let flat = Question::new(Name::from_slice(b"\x01b\x01a\0")?, Rtype::MX, Class::CH);
    let small: Question<Name<ArrayVec<u8, 5>>> = Question::try_octets_from(rt.alloc(), flat)?;
    assert!(rt; small.to_string(rt.alloc())?.as_str() == "b.a.\tMX\tCH");
    Ok(())
}

#[test]
fn a_text_is_read_over_octets_of_any_kind(rt: HostRuntime) -> Result<(), Fail> {
    let small: Question<Name<ArrayVec<u8, 5>>> = Question::from_str(rt.alloc(), "b.a MX CH")?;
    assert!(rt; small.qname().as_slice() == b"\x01b\x01a\0".as_slice());
    let long: Result<Question<Name<ArrayVec<u8, 5>>>, FromStrError> = Question::from_str(
        rt.alloc(),
        "b.ab MX CH",
    );
    assert!(rt; long.err() == Some(FromStrError::ShortBuf));
    let none: Result<Question<Name<Vec<u8>>>, FromStrError> = Question::from_str(
        rt.alloc(),
        "a IN",
    );
    let missing = FromStrError::Presentation(PresentationError::MissingQtype);
    assert!(rt; none.err() == Some(missing));
    assert!(rt; FromStrError::ShortBuf.to_string(rt.alloc())?.as_str() == "short buffer");
    assert!(rt; missing.to_string(rt.alloc())?.as_str() == "missing qtype");
    Ok(())
}
