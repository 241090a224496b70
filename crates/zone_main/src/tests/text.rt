//! Zone text: each octet in a word, a word that does not end, and the longest data.

use super::examples::{behind_soa, changed, zone_of};
use std::alloc::{AllocError, Global};
use std::test::Fail;
use zonewire::ZoneError;

/// A row whose first word is long.
const LONG_ROW: &[u8] = b"bbbbbbbbbbbbbbbbbb.a. 5 IN A 1.2.3.4\n";

/// Returns the text of the SOA and then the long row with the octet at `place` replaced.
fn long_row_with(alloc: Global, place: usize, octet: u8) -> Result<Vec<u8>, AllocError> {
    let row = changed(alloc, LONG_ROW, place, octet)?;
    behind_soa(alloc, row.as_slice())
}

/// Returns whether the second record of the text has this owner.
fn has_owner(alloc: Global, text: &[u8], owner: &[u8]) -> Result<bool, ZoneError> {
    let zone = zone_of(alloc, text)?;
    let mut records = zone.records();
    let (Some(_), Some(second)) = (records.next(), records.next()) else {
        return Ok(false);
    };
    Ok(second.owner().as_slice() == owner)
}

/// The places are in the first eight octets of the word, in the next eight, and one after these.
#[test]
fn octets_that_stand_in_words(rt: HostRuntime) -> Result<(), Fail> {
    let alloc = rt.alloc();
    for place in 0..17 {
        for &octet in b"!#%&'*-/09:<=?AZ[]^_az{|}~" {
            let text = long_row_with(alloc, place, octet)?;
            let owner = changed(alloc, b"\x12bbbbbbbbbbbbbbbbbb\x01a\x00", 1 + place, octet)?;
            assert!(rt; has_owner(alloc, text.as_slice(), owner.as_slice())?);
        }
        let escaped = long_row_with(alloc, place, b'\\')?;
        let owner = b"\x11bbbbbbbbbbbbbbbbb\x01a\x00";
        assert!(rt; has_owner(alloc, escaped.as_slice(), owner)?);
    }
    Ok(())
}

#[test]
fn octets_that_stand_in_no_word(rt: HostRuntime) -> Result<(), Fail> {
    let alloc = rt.alloc();
    for &octet in b"\x00\t\r\x1f \"();\x7f\x80\xff" {
        // A semicolon at the start of a row begins a comment.
        let first = if octet == b';' { 1 } else { 0 };
        for place in first..17 {
            let text = long_row_with(alloc, place, octet)?;
            assert!(rt; zone_of(alloc, text.as_slice()).err() == Some(ZoneError::Text(2)));
        }
    }
    Ok(())
}

#[test]
fn a_word_of_a_megabyte_is_refused(rt: HostRuntime) -> Result<(), Fail> {
    let alloc = rt.alloc();
    let megabyte = vec![in alloc; b'a'; 1_000_000]?;
    assert!(rt; zone_of(alloc, megabyte.as_slice()).err() == Some(ZoneError::Text(1)));
    Ok(())
}

/// Returns the text of the SOA and then a row of unknown data with this length field and this number of digits.
fn unknown_data(alloc: Global, length: &[u8], digits: usize) -> Result<Vec<u8>, AllocError> {
    let mut text = behind_soa(alloc, b"a. 5 IN TYPE65280 \\# ")?;
    text.extend_from_slice(length)?;
    text.push(b' ')?;
    let digits = vec![in alloc; b'a'; digits]?;
    text.extend_from_slice(digits.as_slice())?;
    text.push(b'\n')?;
    Ok(text)
}

/// Returns the number of octets of the second record's data.
fn second_data_len(alloc: Global, text: &[u8]) -> Result<usize, ZoneError> {
    let zone = zone_of(alloc, text)?;
    let mut records = zone.records();
    let (Some(_), Some(second)) = (records.next(), records.next()) else {
        return Ok(0);
    };
    Ok(second.data().len())
}

/// The length of a record's data has two octets (RFC 1035 3.2.1).
#[test]
fn data_has_at_most_65535_octets(rt: HostRuntime) -> Result<(), Fail> {
    let alloc = rt.alloc();
    let longest = unknown_data(alloc, b"65535", 131_070)?;
    assert!(rt; second_data_len(alloc, longest.as_slice()) == Ok(65535));
    let too_long = unknown_data(alloc, b"65536", 131_072)?;
    assert!(rt; second_data_len(alloc, too_long.as_slice()) == Err(ZoneError::Text(2)));
    Ok(())
}
