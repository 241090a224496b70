//! The owners of a zone in order, as in the messages of a transfer (RFC 5936 2.2).
use dns_compress::{HashCompressor, StaticCompressor, TreeCompressor};
use dns_name::{Composer, Name};
use rows::{Answer, Row, RowError};
use std::alloc::Global;

/// A message with more octets than this gets no further owner.
const LONG: usize = 16_000;

/// Appends owners to a vector, plain or with a compressor.
pub fn append_owners(alloc: Global, row: &mut Row<'_>, out: &mut Answer) -> Result<(), RowError> {
    let vec: Vec<u8> = Vec::new(alloc);
    match row.word()? {
        "plain" => append_and_count(vec, row, out),
        "static" => append_and_count(StaticCompressor::new(vec), row, out),
        "tree" => append_and_count(TreeCompressor::new(alloc, vec), row, out),
        "hash" => append_and_count(HashCompressor::new(alloc, vec), row, out),
        _ => Err(RowError::BadWord),
    }
}

/// Appends as many owners as the row says, and begins a new message after each long one. Writes the number of octets of
/// all messages.
fn append_and_count<Target: Composer + Drop>(
    mut target: Target,
    row: &mut Row<'_>,
    out: &mut Answer,
) -> Result<(), RowError> {
    let mut octets = 0u64;
    for number in 0..row.value::<u32>()? {
        let owner = owner_of(number);
        let Ok(name) = Name::from_slice(&owner) else {
            return Err(RowError::BadWord);
        };
        if target.append_compressed_name(&name).is_err() {
            return Err(RowError::OutOfMemory);
        }
        let len = target.octets().len();
        if len > LONG {
            octets = octets.saturating_add(len as u64);
            target.truncate(0);
        }
    }
    out.shown(&octets.saturating_add(target.octets().len() as u64))
}

/// Returns the octets of the name `host-00000000.example.com.` with the last eight digits of the number.
fn owner_of(number: u32) -> [u8; 27] {
    let mut owner = *b"\x0dhost-00000000\x07example\x03com\0";
    owner[6] = digit(number / 10_000_000);
    owner[7] = digit(number / 1_000_000);
    owner[8] = digit(number / 100_000);
    owner[9] = digit(number / 10_000);
    owner[10] = digit(number / 1_000);
    owner[11] = digit(number / 100);
    owner[12] = digit(number / 10);
    owner[13] = digit(number);
    owner
}

/// Returns the last digit of the number.
fn digit(number: u32) -> u8 {
    b'0' + (number % 10) as u8
}
