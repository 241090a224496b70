//! Messages over octets that are returned or lent, and cursors that are taken apart.
use crate::type_alone::TypeAlone;
use dns_rdata::A;
use dns_sections::{Message, RecordSection};
use std::test::Fail;

/// A header that counts three answers, and the answers: an address, data of type 65280, and an address of class CH.
const ANSWERS: [u8; 55] = [
    0, 0, 0, 0, 0, 0, 0, 3, 0, 0, 0, 0, //
    0, 0, 1, 0, 1, 0, 0, 0, 0, 0, 4, 192, 0, 2, 1, //
    0, 255, 0, 0, 1, 0, 0, 0, 0, 0, 2, 7, 8, //
    0, 0, 1, 0, 3, 0, 0, 0, 0, 0, 4, 192, 0, 2, 2,
];

/// Returns the answers of a message.
fn answers<'m>(message: &'m Message<&'m [u8]>) -> Result<RecordSection<'m>, Fail> {
    Ok(message.answer()?)
}

#[test]
fn octets_are_handed_back_and_lent(rt: HostRuntime) {
    let octets = ANSWERS.as_slice();
    match Message::try_from_octets(&octets[..11]) {
        Ok(_) => {
            assert!(rt; false);
        }
        Err(back) => {
            assert!(rt; back == &octets[..11]);
        }
    }
    match Message::try_from_octets(&octets[..12]) {
        Ok(message) => {
            assert!(rt;
                *message.as_octets() == &octets[..12]
                    && message.for_slice().as_slice() == &octets[..12]
                    && message.for_slice_ref().as_slice() == &octets[..12]
            );
            assert!(rt; message.into_octets() == &octets[..12]);
        }
        Err(_) => {
            assert!(rt; false);
        }
    }
}

#[test]
fn a_cursor_over_addresses_is_taken_apart(rt: HostRuntime) -> Result<(), Fail> {
    let message = Message::from_slice(&ANSWERS)?;
    let section = answers(&message)?;
    let mut addresses = section.limit_to::<A>();
    let Some(Ok(first)) = addresses.next() else {
        assert!(rt; false);
        return Ok(());
    };
    assert!(rt; *first.data() == A::from_octets(192, 0, 2, 1));
    assert!(rt; addresses.unwrap().pos() == 27);
    Ok(())
}

#[test]
fn a_cursor_over_all_data_is_taken_apart(rt: HostRuntime) -> Result<(), Fail> {
    let message = Message::from_slice(&ANSWERS)?;
    let section = answers(&message)?;
    let mut records = section.into_records::<TypeAlone>();
    let Some(Ok(first)) = records.next() else {
        assert!(rt; false);
        return Ok(());
    };
    let Some(Ok(second)) = records.next() else {
        assert!(rt; false);
        return Ok(());
    };
    assert!(rt; first.data().number() == 1 && second.data().number() == 65280);
    assert!(rt; records.unwrap().pos() == 40);
    Ok(())
}
