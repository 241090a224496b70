//! Absolute names in octets of text (RFC 1035 5.1).
use dns_name::{FromStrError, Name};
use std::alloc::{AllocError, Global};
use std::str;
use std::test::Fail;

/// The octets of the vector before a name is appended.
const BEFORE: &[u8] = b"\x09\x09";

/// Returns the octets with those of the name that a text spells after them, or why it spells none.
fn appended(alloc: Global, text: &[u8]) -> Result<(Vec<u8>, Option<FromStrError>), AllocError> {
    let mut octets = Vec::new(alloc);
    octets.extend_from_slice(BEFORE)?;
    let error = Name::append_absolute_text(&mut octets, text).err();
    Ok((octets, error))
}

/// Returns whether octets of text spell the same name as their characters, and whether nothing is appended if they
/// spell none.
fn is_read_alike(alloc: Global, text: &[u8]) -> Result<bool, Fail> {
    let (octets, error) = appended(alloc, text)?;
    let spelled = match str::from_utf8(text) {
        Ok(characters) => Name::vec_from_str(alloc, characters).ok(),
        Err(_) => None,
    };
    Ok(match spelled {
        Some(name) => {
            error.is_none() && octets.as_slice().strip_prefix(BEFORE) == Some(name.as_slice())
        }
        None => error.is_some() && octets.as_slice() == BEFORE,
    })
}

/// Returns a label of `len` octets, with the one at `place` replaced, and another label after it.
fn label_with(alloc: Global, len: usize, place: usize, octet: u8) -> Result<Vec<u8>, AllocError> {
    let mut text = vec![in alloc; b'a'; len]?;
    if let Some(there) = text.get_mut(place) {
        *there = octet;
    }
    text.extend_from_slice(b".b.")?;
    Ok(text)
}

#[test]
fn each_octet_at_each_place_is_read_as_its_character(rt: HostRuntime) -> Result<(), Fail> {
    for place in 0..33 {
        for octet in 0..=255 {
            let text = label_with(rt.alloc(), 33, place, octet)?;
            assert!(rt; is_read_alike(rt.alloc(), text.as_slice())?);
        }
    }
    Ok(())
}

#[test]
fn labels_of_each_length_are_read(rt: HostRuntime) -> Result<(), Fail> {
    for len in 1..70 {
        let text = label_with(rt.alloc(), len, 0, b'a')?;
        assert!(rt; is_read_alike(rt.alloc(), text.as_slice())?);
    }
    Ok(())
}
