//! Octets in a row's notation.
use crate::RowError;
use std::alloc::Global;

/// Returns the octets that a word denotes: hexadecimal digits, or pieces with `+` between them, any of them repeated.
pub(crate) fn octets_of(alloc: Global, word: &str) -> Result<Vec<u8>, RowError> {
    let mut octets = Vec::new(alloc);
    if word == "-" {
        return Ok(octets);
    }
    for part in word.split('+') {
        append_part(&mut octets, part)?;
    }
    Ok(octets)
}

/// Appends the octets of a piece, as many times as the number after its `*` says.
fn append_part(octets: &mut Vec<u8>, part: &str) -> Result<(), RowError> {
    let Some((digits, times)) = part.split_once('*') else {
        return append_digits(octets, part);
    };
    let Ok(times) = times.parse::<u32>() else {
        return Err(RowError::BadWord);
    };
    for _ in 0..times {
        append_digits(octets, digits)?;
    }
    Ok(())
}

/// Appends the octets of pairs of hexadecimal digits.
fn append_digits(octets: &mut Vec<u8>, digits: &str) -> Result<(), RowError> {
    for pair in digits.as_bytes().chunks(2) {
        octets.push(octet_of(pair)?)?;
    }
    Ok(())
}

/// Returns the octet of two hexadecimal digits.
fn octet_of(pair: &[u8]) -> Result<u8, RowError> {
    let [high, low] = pair else {
        return Err(RowError::BadWord);
    };
    match (
        char::from(*high).to_digit(16),
        char::from(*low).to_digit(16),
    ) {
        (Some(high), Some(low)) => Ok((high * 16 + low) as u8),
        _ => Err(RowError::BadWord),
    }
}

/// Returns the octets of a text, in which `%` and two hexadecimal digits stand for an octet.
pub(crate) fn octets_of_text(alloc: Global, word: &str) -> Result<Vec<u8>, RowError> {
    let mut octets = Vec::new(alloc);
    if word == "-" {
        return Ok(octets);
    }
    let mut parts = word.split('%');
    if let Some(first) = parts.next() {
        octets.extend_from_slice(first.as_bytes())?;
    }
    for part in parts {
        let Some((pair, rest)) = part.as_bytes().split_at_checked(2) else {
            return Err(RowError::BadWord);
        };
        octets.push(octet_of(pair)?)?;
        octets.extend_from_slice(rest)?;
    }
    Ok(octets)
}
