//! The words of the command line.

use crate::usage_error::UsageError;
use std::alloc::{Alloc, AllocError};
use std::env::{Env, FillError};

/// The length in octets that a word is expected to have at most.
const USUAL_LEN: usize = 256;

/// Returns the words after the program's path, which is not read: it may be any octets.
///
/// Fails with `NotText` if one of the words is not UTF-8, and with `OutOfMemory` if out of memory.
pub fn words_after_path<R: Env + Alloc>(rt: &R) -> Result<Vec<String<R::A>, R::A>, UsageError> {
    let mut words = Vec::new(rt.alloc());
    for index in 1..usize::MAX {
        let Some(word) = word_at(rt, index)? else {
            break;
        };
        words.push(word).map_err(AllocError::from)?;
    }
    Ok(words)
}

/// Returns the word at an index, or None after the last one.
///
/// Fails with `NotText` if it is not UTF-8, and with `OutOfMemory` if out of memory.
fn word_at<R: Env + Alloc>(rt: &R, index: usize) -> Result<Option<String<R::A>>, UsageError> {
    let mut room = USUAL_LEN;
    for _ in 0..usize::BITS {
        let mut octets = vec![in rt.alloc(); 0u8; room]?;
        match rt.arg(index, octets.as_mut_slice()) {
            Ok(len) => {
                octets.truncate(len);
                return match String::from_utf8(octets) {
                    Ok(word) => Ok(Some(word)),
                    Err(_) => Err(UsageError::NotText),
                };
            }
            Err(FillError::NotPresent) => return Ok(None),
            Err(FillError::TooLong) => room = room.saturating_add(room),
        }
    }
    Err(UsageError::OutOfMemory)
}
